// A list of calls, made in turn on one cutter.
use super::codes::{Code, code};
use anystr::bytes::Bytes;
use anystr::refusal::Refusal;
use cutters::bound::UNBOUNDED;
use cutters::piece::Piece;
use cutters::play::{Answer, Call, play};
use searchers::substring::Substring;
use std::test::Fail;
use trays::anytray::AnyTray;
use trays::buffer::Buffer;
use trays::container::AnyStrContainer;
use trays::label::Label;

// no call below answers so
const UNWRITTEN: Answer = Answer::Rest(Piece { start: 9, end: 9 });

// Calls on `a,b` cut at commas, of which a text has 2 pieces; the answers go into a list of `ROOM`
// entries.
fn played<const ROOM: usize>() -> (Code, [Answer; ROOM]) {
    let calls = [
        Call::Skip(3),
        Call::Skip(2),
        Call::Next,
        Call::Pour {
            to: Bytes::new(b"+"),
            tray: 0,
        },
    ];
    let mut answers = [UNWRITTEN; ROOM];
    let played = play(
        Bytes::new(b"a,b"),
        Substring::new(Bytes::new(b",")),
        UNBOUNDED,
        &calls,
        &mut [Label::new()],
        &mut answers,
    );
    (code(played), answers)
}

// The entry past the answers stays as it is.
#[test]
fn a_list_of_calls(rt: HostRuntime) {
    assert_eq!(rt;
        played(),
        (
            Ok(()),
            [
                Answer::Skip(Err(Refusal::TooFew { left: 2 })),
                Answer::Skip(Ok(())),
                Answer::Next(None),
                Answer::Pour(Err(Refusal::Spent)),
                UNWRITTEN,
            ]
        )
    );
}

#[test]
fn too_few_entries(rt: HostRuntime) {
    assert_eq!(rt; played(), (Err((7, 4)), [UNWRITTEN; 3]));
}

// A pour into each of several trays: one over 2 bytes that are lent, which has too few free, one
// that the list has not, and a label.
#[test]
fn several_trays(rt: HostRuntime) -> Result<(), Fail> {
    let mut lent = *b"zz";
    let to = Bytes::new(b"; ");
    let calls = [
        Call::Pour { to, tray: 0 },
        Call::Pour { to, tray: 2 },
        Call::Pour { to, tray: 1 },
    ];
    let mut answers = [UNWRITTEN; 3];
    let mut trays = Vec::new(rt.alloc());
    trays.push(AnyTray::Lent(Buffer::new(&mut lent)))?;
    trays.push(AnyTray::Own(Label::new()))?;
    let played = play(
        Bytes::new(b"a,b"),
        Substring::new(Bytes::new(b",")),
        UNBOUNDED,
        &calls,
        trays.as_mut_slice(),
        &mut answers,
    );
    assert_eq!(rt; code(played), Ok(()));
    assert_eq!(rt;
        answers,
        [
            Answer::Pour(Err(Refusal::TooSmall { needed: 4 })),
            Answer::Pour(Err(Refusal::TooSmall { needed: 4 })),
            Answer::Pour(Ok(())),
        ]
    );
    assert_eq!(rt; (trays[0].free(), trays[1].free()), (2, 76));
    Ok(())
}
