// The bytes that a caller lends for a report: too few, just enough, and more.
use std::process::Abort;
use text::report::lint;
use text::write::TooFewBytes;

const GOOD: &[u8] = b"states 1 a symbols 1 x rules 0 start 1 a x";

// Whether the report of a text, over lent bytes that are all 7, is answered so and leaves these bytes.
fn leaves<const N: usize>(
    rt: &impl Abort,
    text: &[u8],
    answer: Result<usize, TooFewBytes>,
    after: &[u8; N],
) {
    let mut lent = [7u8; N];
    assert_eq!(rt; lint(text, &mut lent), answer);
    assert_eq!(rt; lent, *after);
}

// The report of an accepted text without rules has 19 bytes: `accepted`, `start 0 0` and two line ends.
#[test]
fn accepted(rt: HostRuntime) {
    leaves(&rt, GOOD, Err(TooFewBytes), &[7u8; 18]);
    leaves(&rt, GOOD, Ok(19), b"accepted\nstart 0 0\n");
    leaves(
        &rt,
        GOOD,
        Ok(19),
        b"accepted\nstart 0 0\n\x07\x07\x07\x07\x07",
    );
}

// The report of an empty text has 27 bytes.
#[test]
fn refused(rt: HostRuntime) {
    leaves(&rt, b"", Err(TooFewBytes), &[7u8; 26]);
    leaves(&rt, b"", Ok(27), b"refusal 13 layer 2 place 0\n");
    leaves(&rt, b"", Ok(27), b"refusal 13 layer 2 place 0\n\x07\x07");
}

// No bytes, or one, are too few for any report.
#[test]
fn none_lent(rt: HostRuntime) {
    leaves(&rt, GOOD, Err(TooFewBytes), &[]);
    leaves(&rt, b"", Err(TooFewBytes), &[]);
    leaves(&rt, GOOD, Err(TooFewBytes), &[7u8; 1]);
    leaves(&rt, b"\xff", Err(TooFewBytes), &[7u8; 1]);
    assert_eq!(rt; TooFewBytes.number(), 18);
}
