// Builds piles of layers over a table that a text spells and over an open profile, and prints every slot and the start
// of each. Whatever stands below, a pile is asked the same three questions.
#![tactic(auto)]

use anyhow::Context;
use profile::{Bare, EventTable, Loosen, OpenProfile, Profile, Rename, Rule, Table};
use std::fs::File;
use std::io::{Read, Write};
use std::{array, env};
use text::profiles::read_profile;
use text::report::slot_told;

// No more of a text is read than shows that it is too long.
const MOST_READ: u64 = 20001;

// Prints the line of a slot with a rule.
fn show_rule(rt: &HostRuntime, i: usize, rule: &Rule) -> anyhow::Result<()> {
    // Memory to lend: a line is written where the caller says.
    let mut line = [0u8; 80];
    let told = slot_told(i, rule, &mut line)
        .ok()
        .and_then(|n| line.get(..n))
        .context("the line of a slot is too long")?;
    rt.stdout().write_all(told)?;
    Ok(())
}

// Prints every slot of a profile and its start.
fn show<P: Profile>(rt: &HostRuntime, title: &str, p: &P) -> anyhow::Result<()> {
    println!(rt; "{title}")?;
    // By number: a profile is asked for one slot at a time.
    for i in 0..p.slots() {
        match p.slot(i) {
            Some(rule) => show_rule(rt, i, &rule)?,
            None => println!(rt; "slot {i} empty")?,
        }
    }
    let (state, symbol) = p.start();
    println!(rt; "start {state} {symbol}")?;
    Ok(())
}

// The profile that a file spells.
fn table_of(rt: &HostRuntime, path: &str) -> anyhow::Result<Table> {
    let mut text = Vec::new(rt.alloc());
    File::open(rt, path)?
        .take(MOST_READ)
        .read_to_end(&mut text)?;
    let mut table = Table::new();
    read_profile(text.as_slice(), &mut table)
        .ok()
        .context("the text is refused: lint tells why")?;
    Ok(table)
}

// A set of events.
fn events(of: &[usize]) -> [bool; 12] {
    array::from_fn(|e| of.contains(&e))
}

// Exchanges sample with gap and end with leave, and lets every other event stay.
fn exchanged() -> anyhow::Result<EventTable> {
    EventTable::new([0, 1, 2, 3, 5, 4, 6, 7, 11, 9, 10, 8])
        .ok()
        .context("the table renames across kinds")
}

fn over_a_table(rt: &HostRuntime, path: &str) -> anyhow::Result<()> {
    show(rt, "table", &table_of(rt, path)?)?;
    let renamed = Rename::new(exchanged()?, table_of(rt, path)?);
    show(
        rt,
        "bare over loosen(calib) over rename over table",
        &Bare::new(Loosen::new(events(&[1]), renamed)),
    )?;
    let bare = Bare::new(table_of(rt, path)?);
    show(
        rt,
        "loosen(gap, end) over rename over bare over table",
        &Loosen::new(events(&[5, 8]), Rename::new(exchanged()?, bare)),
    )
}

fn over_an_open_profile(rt: &HostRuntime) -> anyhow::Result<()> {
    show(
        rt,
        "open profile of sample, gap and end",
        &OpenProfile::new(events(&[4, 5, 8])),
    )?;
    let renamed = Rename::new(exchanged()?, OpenProfile::new(events(&[4, 8])));
    show(
        rt,
        "loosen(gap) over rename over open profile of sample and end",
        &Loosen::new(events(&[5]), renamed),
    )?;
    show(
        rt,
        "bare over open profile of sample",
        &Bare::new(OpenProfile::new(events(&[4]))),
    )
}

fn run(rt: &HostRuntime) -> anyhow::Result<()> {
    let path = env::args(rt)?.nth(1).context("usage: piles PATH")?;
    over_a_table(rt, path.as_str())?;
    over_an_open_profile(rt)
}

fn main(rt: HostRuntime) -> anyhow::Result<()> {
    run(&rt)
}
