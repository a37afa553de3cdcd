// Texts read into a table profile, which is then asked; a refused text leaves it as it was.
use profile::{Mode, Profile, Rule, Table};
use std::process::Abort;
use text::fault::{Cause, Fault, Place, ProfileCause, SectionCause, WordCause};
use text::profiles::read_profile;

const SAMPLE: &[u8] =
    b"states 1 idle\nsymbols 2 base event\nrules 2\nmay idle base trigger idle event base\nmay idle event end idle\nstart 1 idle base\n";

const OTHER: &[u8] = b"states 2 a b\nsymbols 3 x y z\nrules 1\nmust b z gap a y\nstart 1 b z\n";

// Whether a table holds the sample's two rules and its start.
fn holds_sample(rt: &impl Abort, table: &Table) {
    let opens = Rule {
        mode: Mode::May,
        state: 0,
        top: 0,
        event: 0,
        next: 0,
        upper: 1,
        lower: 0,
    };
    let ends = Rule {
        mode: Mode::May,
        state: 0,
        top: 1,
        event: 8,
        next: 0,
        upper: 0,
        lower: 0,
    };
    assert_eq!(rt; table.slots(), 2);
    assert_eq!(rt; table.slot(0), Some(opens));
    assert_eq!(rt; table.slot(1), Some(ends));
    assert_eq!(rt; table.slot(2), None);
    assert_eq!(rt; table.slot(96), None);
    assert_eq!(rt; table.start(), (0, 0));
}

// Whether a table holds one must rule of one state and symbol, and starts in the last state on the last symbol.
fn holds_other(rt: &impl Abort, table: &Table) {
    let must = Rule {
        mode: Mode::Must,
        state: 1,
        top: 2,
        event: 5,
        next: 0,
        upper: 1,
        lower: 0,
    };
    assert_eq!(rt; table.slots(), 1);
    assert_eq!(rt; table.slot(0), Some(must));
    assert_eq!(rt; table.slot(1), None);
    assert_eq!(rt; table.start(), (1, 2));
}

fn fault(cause: Cause, offset: usize) -> Result<(), Fault> {
    Err(Fault {
        cause,
        place: Place { offset },
    })
}

// The sample is read to its two rules and its start.
#[test]
fn the_sample(rt: HostRuntime) {
    let mut table = Table::new();
    assert_eq!(rt; read_profile(SAMPLE, &mut table), Ok(()));
    holds_sample(&rt, &table);
}

// A text that is accepted replaces all that the table held.
#[test]
fn one_after_the_other(rt: HostRuntime) {
    let mut table = Table::new();
    assert_eq!(rt; read_profile(SAMPLE, &mut table), Ok(()));
    assert_eq!(rt; read_profile(OTHER, &mut table), Ok(()));
    holds_other(&rt, &table);
    assert_eq!(rt; read_profile(SAMPLE, &mut table), Ok(()));
    holds_sample(&rt, &table);
}

// Whether each text of a table is refused so, and changes nothing of what the other one left.
fn refused_after_other(rt: &impl Abort, texts: &[(&[u8], Cause, usize)]) {
    let mut table = Table::new();
    assert_eq!(rt; read_profile(OTHER, &mut table), Ok(()));
    for (text, cause, offset) in texts {
        assert_eq!(rt; read_profile(text, &mut table), fault(*cause, *offset));
        holds_other(rt, &table);
    }
}

// A text that is refused, however late, changes nothing of what the table held.
#[test]
fn refused(rt: HostRuntime) {
    refused_after_other(
        &rt,
        &[
            (
                b"states 1 a\x09",
                Cause::InWords(WordCause::ByteNotAllowed),
                10,
            ),
            (
                b"states 1 abcdefghijklmnopq",
                Cause::InWords(WordCause::WordTooLong),
                9,
            ),
            (b"", Cause::InSections(SectionCause::WordNotDue), 0),
            (
                b"states 9 a",
                Cause::InSections(SectionCause::NumberNotDue),
                7,
            ),
        ],
    );
}

// The same of faults that come after rules were read.
#[test]
fn refused_late(rt: HostRuntime) {
    refused_after_other(
        &rt,
        &[
            (
                b"states 1 a symbols 1 x rules 2 may a x end a may a x end a",
                Cause::InProfile(ProfileCause::RuleTwice),
                45,
            ),
            (
                b"states 1 a symbols 1 x rules 1 may a x end a start 1 a y",
                Cause::InProfile(ProfileCause::NameUnknown),
                55,
            ),
            (
                b"states 1 a symbols 1 x rules 1 may a x end a start 1 a x end",
                Cause::InSections(SectionCause::WordNotDue),
                57,
            ),
            (
                b"states 2 a a",
                Cause::InProfile(ProfileCause::NameTwice),
                11,
            ),
        ],
    );
}

// A refused text leaves a new table without rules, and its start at 0, 0.
#[test]
fn refused_at_first(rt: HostRuntime) {
    let mut table = Table::new();
    assert_eq!(rt;
        read_profile(b"states", &mut table),
        fault(Cause::InSections(SectionCause::WordNotDue), 6)
    );
    assert_eq!(rt; table.slots(), 0);
    assert_eq!(rt; table.slot(0), None);
    assert_eq!(rt; table.start(), (0, 0));
}
