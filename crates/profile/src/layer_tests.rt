// Piles of all three layers, in several orders, over both ends.
ghost use Rattle.std.specs.Prelude.{◌≡◌, map, length, Some, None, slice_index_or};
ghost use Rattle.profile.specs.Tables.{table_rules, table_start};
ghost use Rattle.profile.specs.Opens.{open_slots, open_start};
ghost use Rattle.profile.specs.Layers.{bare_slots, Bared, loosen_slots, Loosened, rename_slots, Renamed};

use crate::{Bare, EventTable, Loosen, Mode, OpenProfile, Profile, Rename, Rule, Table};
use std::array;
use std::process::Abort;
use std::test::Fail;

// The ghost members are an impl's own choice. So what each kind of profile answers stands here by the definitions.
fn table_answers(table: &Table, i: usize) -> (usize, Option<Rule>, (u8, u8))
    ensures slots { result.0 ≡ length (map Some (table_rules table.now)) }
    ensures slot { result.1 ≡ slice_index_or (map Some (table_rules table.now)) i None }
    ensures start { result.2 ≡ table_start table.now }
{
    table.answers(i)
}

fn open_answers(profile: &OpenProfile, i: usize) -> (usize, Option<Rule>, (u8, u8))
    ensures slots { result.0 ≡ length (open_slots profile.now.events) }
    ensures slot { result.1 ≡ slice_index_or (open_slots profile.now.events) i None }
    ensures start { result.2 ≡ open_start }
{
    profile.answers(i)
}

fn bare_answers<P: Profile>(layer: &Bare<P>, i: usize) -> (usize, Option<Rule>, (u8, u8))
    ensures slots { result.0 ≡ length (bare_slots (P.Profile.rules layer.now.below)) }
    ensures slot { result.1 ≡ slice_index_or (bare_slots (P.Profile.rules layer.now.below)) i None }
    ensures start { result.2 ≡ P.Profile.origin layer.now.below }
{
    layer.answers(i)
}

fn loosen_answers<P: Profile>(layer: &Loosen<P>, i: usize) -> (usize, Option<Rule>, (u8, u8))
    ensures slots { result.0 ≡ length (loosen_slots layer.now.layering.events (P.Profile.rules layer.now.below)) }
    ensures slot { result.1 ≡ slice_index_or (loosen_slots layer.now.layering.events (P.Profile.rules layer.now.below)) i None }
    ensures start { result.2 ≡ P.Profile.origin layer.now.below }
{
    layer.answers(i)
}

fn rename_answers<P: Profile>(layer: &Rename<P>, i: usize) -> (usize, Option<Rule>, (u8, u8))
    ensures slots { result.0 ≡ length (rename_slots layer.now.layering.table (P.Profile.rules layer.now.below)) }
    ensures slot { result.1 ≡ slice_index_or (rename_slots layer.now.layering.table (P.Profile.rules layer.now.below)) i None }
    ensures start { result.2 ≡ P.Profile.origin layer.now.below }
{
    layer.answers(i)
}

// And what each layer comes to.
fn below_bare<P: Profile>(layer: &Bare<P>) -> &P
    ensures value { result.now ≡ layer.now.below }
    ensures meaning { Bared (P.Profile.rules layer.now.below) (bare_slots (P.Profile.rules layer.now.below)) }
{
    layer.below()
}

fn below_loosen<P: Profile>(layer: &Loosen<P>) -> &P
    ensures value { result.now ≡ layer.now.below }
    ensures meaning { Loosened layer.now.layering.events (P.Profile.rules layer.now.below) (loosen_slots layer.now.layering.events (P.Profile.rules layer.now.below)) }
{
    layer.below()
}

fn below_rename<P: Profile>(layer: &Rename<P>) -> &P
    ensures value { result.now ≡ layer.now.below }
    ensures meaning { Renamed layer.now.layering.table (P.Profile.rules layer.now.below) (rename_slots layer.now.layering.table (P.Profile.rules layer.now.below)) }
{
    layer.below()
}

fn rule(mode: Mode, event: u8) -> Rule {
    Rule {
        mode,
        event,
        ..Rule::default()
    }
}

// Trigger may happen, sample and gap must.
fn table() -> Result<Table, Fail> {
    let mut table = Table::new();
    table.add(rule(Mode::Must, 4))?;
    table.add(rule(Mode::May, 0))?;
    table.add(rule(Mode::Must, 5))?;
    table.set_start(1, 2)?;
    Ok(table)
}

// The open profile of calib and sample.
fn open() -> OpenProfile {
    OpenProfile::new([
        false, true, false, false, true, false, false, false, false, false, false, false,
    ])
}

// Sample and gap change places, and so do trigger and calib.
fn swaps() -> Result<EventTable, Fail> {
    Ok(EventTable::new([1, 0, 2, 3, 5, 4, 6, 7, 8, 9, 10, 11])?)
}

// The set of one event.
fn only(event: usize) -> [bool; 12] {
    array::from_fn(|e| e == event)
}

// Holds a profile against the slots and the start that it is to have.
fn shows<P: Profile>(rt: &impl Abort, profile: &P, slots: &[Option<Rule>], start: (u8, u8)) {
    assert_eq!(rt; profile.slots(), slots.len());
    for (i, slot) in slots.iter().enumerate() {
        assert_eq!(rt; profile.slot(i), *slot);
        assert_eq!(rt; profile.answers(i), (slots.len(), *slot, start));
    }
    assert_eq!(rt; profile.slot(slots.len()), None);
    assert_eq!(rt; profile.slot(usize::MAX), None);
    assert_eq!(rt; profile.start(), start);
}

#[test]
fn ends(rt: HostRuntime) -> Result<(), Fail> {
    let table = table()?;
    shows(
        &rt,
        &table,
        &[
            Some(rule(Mode::May, 0)),
            Some(rule(Mode::Must, 4)),
            Some(rule(Mode::Must, 5)),
        ],
        (1, 2),
    );
    assert_eq!(rt;
        table_answers(&table, 1),
        (3, Some(rule(Mode::Must, 4)), (1, 2))
    );
    let open = open();
    assert_eq!(rt; open.slots(), 12);
    assert_eq!(rt; open.slot(0), None);
    assert_eq!(rt; open.slot(1), Some(rule(Mode::May, 1)));
    assert_eq!(rt; open.slot(4), Some(rule(Mode::May, 4)));
    assert_eq!(rt; open.slot(12), None);
    assert_eq!(rt; open.start(), (0, 0));
    assert_eq!(rt;
        open_answers(&open, 4),
        (12, Some(rule(Mode::May, 4)), (0, 0))
    );
    Ok(())
}

// Renamed first, what is loosened is the new name.
#[test]
fn bare_over_loosen_over_rename(rt: HostRuntime) -> Result<(), Fail> {
    let pile = Bare::new(Loosen::new(only(4), Rename::new(swaps()?, table()?)));
    shows(&rt, &pile, &[None, Some(rule(Mode::Must, 5)), None], (1, 2));
    assert_eq!(rt;
        bare_answers(&pile, 1),
        (3, Some(rule(Mode::Must, 5)), (1, 2))
    );
    shows(
        &rt,
        below_bare(&pile),
        &[
            Some(rule(Mode::May, 1)),
            Some(rule(Mode::Must, 5)),
            Some(rule(Mode::May, 4)),
        ],
        (1, 2),
    );
    shows(
        &rt,
        &Bare::new(Loosen::new(only(4), Rename::new(swaps()?, open()))),
        &[None; 12],
        (0, 0),
    );
    Ok(())
}

// Loosened first, it is the old name.
#[test]
fn rename_over_bare_over_loosen(rt: HostRuntime) -> Result<(), Fail> {
    let pile = Rename::new(swaps()?, Bare::new(Loosen::new(only(4), table()?)));
    shows(&rt, &pile, &[None, None, Some(rule(Mode::Must, 4))], (1, 2));
    assert_eq!(rt;
        rename_answers(&pile, 2),
        (3, Some(rule(Mode::Must, 4)), (1, 2))
    );
    shows(
        &rt,
        below_rename(&pile),
        &[None, None, Some(rule(Mode::Must, 5))],
        (1, 2),
    );
    let over_open = Rename::new(swaps()?, Bare::new(Loosen::new(only(4), open())));
    shows(&rt, &over_open, &[None; 12], (0, 0));
    Ok(())
}

// Bare below loosen keeps what loosen then lets go of.
#[test]
fn loosen_over_rename_over_bare(rt: HostRuntime) -> Result<(), Fail> {
    let pile = Loosen::new(only(4), Rename::new(swaps()?, Bare::new(table()?)));
    shows(
        &rt,
        &pile,
        &[None, Some(rule(Mode::Must, 5)), Some(rule(Mode::May, 4))],
        (1, 2),
    );
    assert_eq!(rt;
        loosen_answers(&pile, 2),
        (3, Some(rule(Mode::May, 4)), (1, 2))
    );
    shows(
        &rt,
        below_loosen(&pile),
        &[None, Some(rule(Mode::Must, 5)), Some(rule(Mode::Must, 4))],
        (1, 2),
    );
    shows(
        &rt,
        &Loosen::new(only(4), Rename::new(swaps()?, Bare::new(open()))),
        &[None; 12],
        (0, 0),
    );
    let over_open = Loosen::new(only(0), Rename::new(swaps()?, open()));
    assert_eq!(rt; over_open.slot(1), Some(rule(Mode::May, 0)));
    assert_eq!(rt; over_open.slot(4), Some(rule(Mode::May, 5)));
    assert_eq!(rt; over_open.slots(), 12);
    Ok(())
}

// A table with an event over 11, or of another kind, is refused.
#[test]
fn refused_tables(rt: HostRuntime) {
    let number = |events: [u8; 12]| EventTable::new(events).err().map(|why| why.number());
    assert_eq!(rt;
        number([12, 1, 2, 3, 4, 5, 6, 7, 8, 9, 10, 11]),
        Some(9),
        "over 11"
    );
    assert_eq!(rt;
        number([0, 1, 2, 4, 4, 5, 6, 7, 8, 9, 10, 11]),
        Some(9),
        "another kind"
    );
}
