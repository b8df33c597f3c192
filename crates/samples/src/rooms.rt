// Trays that are just full, and what lies past the bytes that they hold.
use super::codes::{Code, code};
use anystr::anystr::AnyStr;
use anystr::bytes::Bytes;
use anystr::optional::OptionalArg;
use bytesinner::replace;
use cutters::bound::UNBOUNDED;
use cutters::cutter::Cutter;
use searchers::lineends::LineEnds;
use trays::buffer::Buffer;
use trays::container::AnyStrContainer;
use trays::gather::Gather;
use trays::label::{LABEL_BYTES, Label};

// `.P.y.` into a tray over the first bytes of a lent slice, and the slice after it.
fn dotted(free: usize) -> (Code, [u8; 7]) {
    let mut lent = *b"abcdefg";
    let end = free.min(7);
    let mut tray = Buffer::new(&mut lent[0..end]);
    let answer = replace(
        &Bytes::new(b"Py"),
        &Bytes::new(b""),
        &Bytes::new(b"."),
        OptionalArg::Missing,
        &mut tray,
    );
    (code(answer), lent)
}

#[test]
fn five_bytes_into_a_buffer(rt: HostRuntime) {
    assert_eq!(rt; dotted(4), (Err((7, 5)), *b"abcdefg"));
    assert_eq!(rt; dotted(5), (Ok(()), *b".P.y.fg"));
    assert_eq!(rt; dotted(7), (Ok(()), *b".P.y.fg"));
}

#[test]
fn eighty_bytes_into_a_label(rt: HostRuntime) {
    let mut label = Label::new();
    let full = [b'a'; LABEL_BYTES];
    assert!(rt; label.push_str(&Bytes::new(&full)).is_ok());
    assert_eq!(rt; label.free(), 0);
    assert!(rt; label.push_str(&Bytes::new(b"")).is_ok());
    assert_eq!(rt; code(label.push_str(&Bytes::new(b"b"))), Err((7, 1)));
    assert_eq!(rt; label.as_bytes(), &full[..]);
}

#[test]
fn gathered_over_a_label(rt: HostRuntime) {
    let row = Bytes::new(b"Quay");
    let mut label = Label::new();
    let mut gather = Gather::new(&mut label);
    let parts = [
        code(gather.push_part(&row, 1, 3)),
        code(gather.push_part(&row, 3, 9)),
        code(gather.push_part(&row, 5, 2)),
        code(gather.push_str(&row)),
        code(gather.push_str(&Bytes::new(&[b'a'; LABEL_BYTES]))),
    ];
    let free = gather.free();
    let _ = gather.finish();
    assert_eq!(rt; parts, [Ok(()), Ok(()), Ok(()), Ok(()), Err((7, 80))]);
    assert_eq!(rt; free, 73);
    assert_eq!(rt; label.as_bytes(), b"uayQuay".as_slice());
}

// Rows of 1 to 40 bytes, and then one of 300, gathered over a buffer.
fn gathered_rows(room: &mut [u8]) -> usize {
    let row = Bytes::new(&[b'a'; 300]);
    let mut tray = Buffer::new(room);
    let mut gather = Gather::new(&mut tray);
    for len in 1..=40 {
        let _ = gather.push_part(&row, 300 - len, 300);
        let _ = gather.push_str(&Bytes::new(b"\n"));
    }
    let _ = gather.push_str(&row);
    let _ = gather.finish();
    tray.as_bytes().len()
}

#[test]
fn gathered_over_a_buffer(rt: HostRuntime) {
    let mut room = [0; 2000];
    assert_eq!(rt; gathered_rows(&mut room), 1160);
    assert_eq!(rt; &room[..5], b"a\naa\n".as_slice());
    assert_eq!(rt; room.iter().filter(|b| **b == b'a').count(), 1120);
    assert_eq!(rt; &room[859..862], b"\naa".as_slice());
}

// A pour of bytes without a line end into a label, which takes them whole or not at all.
fn labelled(bytes: &[u8]) -> (Code, usize) {
    let mut label = Label::new();
    let mut cutter = Cutter::open(Bytes::new(bytes), LineEnds, UNBOUNDED);
    let answer = cutter.pour(&Bytes::new(b""), &mut label);
    (code(answer), label.as_bytes().len())
}

#[test]
fn a_row_into_a_label(rt: HostRuntime) {
    let long = [b'a'; LABEL_BYTES + 1];
    assert_eq!(rt; labelled(&long), (Err((7, 81)), 0));
    assert_eq!(rt; labelled(&long[..LABEL_BYTES]), (Ok(()), LABEL_BYTES));
    assert_eq!(rt; labelled(b"a"), (Ok(()), 1));
    assert_eq!(rt; labelled(b""), (Ok(()), 0));
}
