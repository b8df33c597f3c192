// Optional start and end.
use anystr::indices::adjust_indices;

// A start, an end and a length, and the offsets that they mean: the first two of CPython's
// slice(start, end).indices(len) where the start is not above the length. A start above it stays as
// it is: b''.find(b'', 1) finds nothing, where a start cut at the length would find the empty text.
const ROWS: [(Option<i64>, Option<i64>, usize, usize, usize); 25] = [
    (None, None, 0, 0, 0),
    (None, None, 5, 0, 5),
    (Some(0), Some(5), 5, 0, 5),
    (Some(2), Some(4), 5, 2, 4),
    (Some(1), None, 5, 1, 5),
    (None, Some(1), 5, 0, 1),
    (Some(3), Some(1), 5, 3, 1),
    (Some(5), None, 5, 5, 5),
    (Some(-1), None, 5, 4, 5),
    (None, Some(-1), 5, 0, 4),
    (Some(-5), Some(-4), 5, 0, 1),
    (Some(-6), Some(-6), 5, 0, 0),
    (Some(-1), Some(-1), 0, 0, 0),
    (Some(i64::MIN), None, 5, 0, 5),
    (None, Some(i64::MIN), 5, 0, 0),
    (Some(i64::MIN), Some(i64::MIN), 0, 0, 0),
    (None, Some(6), 5, 0, 5),
    (None, Some(i64::MAX), 5, 0, 5),
    (None, Some(i64::MAX), 0, 0, 0),
    (Some(-1), None, usize::MAX, usize::MAX - 1, usize::MAX),
    (Some(6), None, 5, 6, 5),
    (Some(6), Some(9), 5, 6, 5),
    (Some(1), None, 0, 1, 0),
    (Some(i64::MAX), None, 5, 9_223_372_036_854_775_807, 5),
    (
        Some(i64::MAX),
        Some(i64::MAX),
        0,
        9_223_372_036_854_775_807,
        0,
    ),
];

#[test]
fn offsets(rt: HostRuntime) {
    for (start, end, len, from, to) in &ROWS {
        let range = adjust_indices(*start, *end, *len);
        assert_eq!(rt;
            (range.start, range.end),
            (*from, *to),
            "{start:?} {end:?} {len}"
        );
    }
}
