// What is made from what a check refuses: the empty text, and searchers without marks.
use super::codes::code;
use anystr::anystr::AnyStr;
use anystr::bytes::Bytes;
use searchers::bytesets::asciiset::AsciiSet;
use searchers::searcher::{ReverseSearcher, Searcher};
use searchers::substring::Substring;
use text::Text;

#[test]
fn ill_formed(rt: HostRuntime) {
    assert_eq!(rt; code(Text::check(b"\xC3(")), Err((10, 0)));
    assert!(rt; Text::new(b"\xC3(").is_empty());
}

#[test]
fn no_stretch(rt: HostRuntime) {
    let euro = Text::new(b"\xE2\x82\xAC");
    assert_eq!(rt; code(euro.check_bytes(0..1)), Err((12, 0)));
    assert!(rt; euro.get_bytes(0..1).is_empty());
    let bytes = Bytes::new(b"abc");
    assert_eq!(rt; code(bytes.check_bytes(2..1)), Err((12, 0)));
    assert!(rt; bytes.get_bytes(2..1).is_empty());
}

#[test]
fn no_needle(rt: HostRuntime) {
    let text = Bytes::new(b"aaaa");
    let empty = Bytes::new(b"");
    assert_eq!(rt; code(Substring::check(&empty)), Err((1, 0)));
    let nowhere = Substring::new(empty);
    for at in [0, 1, 4, usize::MAX] {
        assert_eq!(rt; nowhere.find(&text, at), None);
        assert_eq!(rt; nowhere.rfind(&text, at), None);
    }
}

// A set for Text searches Bytes too.
#[test]
fn no_ascii_set(rt: HostRuntime) {
    let text = Bytes::new(b", \x82");
    assert_eq!(rt; code(AsciiSet::check(b",\x82")), Err((11, 130)));
    assert_eq!(rt; AsciiSet::new(b",\x82").find(&text, 0), None);
    let mark = AsciiSet::new(b",").find(&text, 0);
    assert_eq!(rt; mark.map(|mark| (mark.start, mark.end)), Some((0, 1)));
}
