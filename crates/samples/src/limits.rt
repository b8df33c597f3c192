// Texts, needles and lists of places at the limits and one beyond.
use super::codes::{Code, code};
use anystr::anystr::{AnyStr, MAX_BYTES};
use anystr::bytes::Bytes;
use anystr::place::Place;
use bytesinner::finds::either::Either;
use bytesinner::finds::options::ByteInnerFindOptions;
use bytesinner::joins::MAX_PLACES;
use bytesinner::{find, join};
use std::test::Fail;
use text::Text;
use trays::label::Label;

const TOO_LONG: Code = Err((6, 0));

// What the search for a needle answers where the start lies past the end.
fn sought<'a>(text: &'a [u8], sub: &'a [u8]) -> Code {
    let text = Bytes::new(text);
    let options = ByteInnerFindOptions {
        sub: Either::A(sub),
        start: Some(1),
        end: Some(0),
    };
    code(find(&text, options).map(|_| ()))
}

#[test]
fn the_longest_text(rt: HostRuntime) -> Result<(), Fail> {
    assert_eq!(rt; MAX_BYTES, 16_777_216);
    let most = vec![in rt.alloc(); b'a'; MAX_BYTES]?;
    let longest = most.as_slice();
    assert_eq!(rt; code(Bytes::check(longest)), Ok(()));
    assert_eq!(rt; code(Text::check(longest)), Ok(()));
    assert_eq!(rt; Bytes::new(longest).bytes_len(), MAX_BYTES);
    assert_eq!(rt; Text::new(longest).element_count(), MAX_BYTES);
    Ok(())
}

#[test]
fn a_byte_too_many(rt: HostRuntime) -> Result<(), Fail> {
    let more = vec![in rt.alloc(); b'a'; MAX_BYTES + 1]?;
    let longer = more.as_slice();
    assert_eq!(rt; code(Bytes::check(longer)), TOO_LONG);
    assert_eq!(rt; code(Text::check(longer)), TOO_LONG);
    assert!(rt; Bytes::new(longer).is_empty());
    assert!(rt; Text::new(longer).is_empty());
    assert_eq!(rt; sought(b"a", longer), TOO_LONG);
    Ok(())
}

#[test]
fn the_most_places(rt: HostRuntime) -> Result<(), Fail> {
    let nowhere = Place { start: 0, end: 0 };
    let most = vec![in rt.alloc(); nowhere; MAX_PLACES]?;
    let more = vec![in rt.alloc(); nowhere; MAX_PLACES + 1]?;
    let empty = Bytes::new(b"");
    let comma = Bytes::new(b",");
    let mut label = Label::new();
    assert_eq!(rt;
        code(join(&empty, &empty, most.as_slice(), &mut label)),
        Ok(())
    );
    assert_eq!(rt;
        code(join(&empty, &empty, more.as_slice(), &mut label)),
        TOO_LONG
    );
    assert_eq!(rt;
        code(join(&comma, &empty, most.as_slice(), &mut label)),
        Err((7, MAX_BYTES as u64))
    );
    Ok(())
}
