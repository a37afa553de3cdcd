// What is told of a profile text, as bytes that the caller lends.
ghost use Rattle.std.specs.Prelude.{◌≡◌, ◌+◌, ◌≤◌, length, Some};
ghost use Rattle.text.specs.ProfileText.{reading_of};
ghost use Rattle.text.specs.Writing.{Puts, write_answer, write_after};
ghost use Rattle.text.specs.Report.{shown_symbol_if, slot_line, refusal_line, accepted_lines, lint_bytes};

use crate::fault::Fault;
use crate::names::{event_name, mode_word};
use crate::profiles::{read_profile, used_by};
use crate::write::{Lent, Told, TooFewBytes, lend};
use profile::{Profile, Rule, Table};
use std::{fmt, str};

// A symbol, where the rule lists one. With a flag: an Option would be made at both calls only to be taken apart here.
fn put_symbol_if(lent: &mut Lent<'_>, used: bool, symbol: u8)
    requires { lent.old.at ≤ 20200 }
    ensures wrote { Puts lent.old (shown_symbol_if used symbol) lent.new }
    ensures bound { lent.new.at ≤ lent.old.at + 4 }
{
    if used {
        lent.number(symbol);
    }
}

// A slot and the rule that it holds, told in a line.
#[derive(Drop)]
struct Slot<'a> {
    number: usize,
    rule: &'a Rule,
}

impl Told for Slot<'_> {
    ghost told = { λ s. slot_line s.number s.rule.now };

    ghost most = { 200 };

    fn tell(&self, lent: &mut Lent<'_>) {
        let rule = self.rule;
        lent.put(b"slot");
        lent.number(self.number);
        lent.word(mode_word(rule.mode));
        lent.number(rule.state);
        lent.number(rule.top);
        lent.word(event_name(rule.event));
        lent.number(rule.next);
        let used = used_by(rule.event);
        put_symbol_if(lent, used >= 1, rule.upper);
        put_symbol_if(lent, used >= 2, rule.lower);
        lent.put(b"\n");
    }
}

// Writes the line of a slot that holds a rule. Tells how many bytes that is.
pub fn slot_told(slot: usize, rule: &Rule, out: &mut [u8]) -> Result<usize, TooFewBytes>
    ensures answer { result ≡ write_answer (slot_line slot rule.now) out.old }
    ensures after { out.new ≡ write_after (slot_line slot rule.now) out.old }
{
    lend(&Slot { number: slot, rule }, out)
}

// The reading of an accepted text: a line for each slot, and the start.
impl Told for Table {
    ghost told = { λ t. accepted_lines (reading_of t) };

    ghost most = { 20000 };

    fn tell(&self, lent: &mut Lent<'_>) {
        lent.put(b"accepted\n");
        for (number, rule) in self.rules().iter().enumerate() {
            Slot { number, rule }.tell(lent);
        }
        let (state, symbol) = self.start();
        lent.put(b"start");
        lent.number(state);
        lent.number(symbol);
        lent.put(b"\n");
    }
}

// The line of a refusal.
impl Told for Fault {
    ghost told = { refusal_line };

    ghost most = { 100 };

    fn tell(&self, lent: &mut Lent<'_>) {
        lent.put(b"refusal");
        lent.number(self.cause.number());
        lent.put(b" layer");
        lent.number(self.cause.layer());
        lent.put(b" place");
        lent.number(self.place.offset);
        lent.put(b"\n");
    }
}

// Writes the line of a refusal, whichever layer found the fault. Tells how many bytes that is. One call, under a contract in the
// words of a refusal.
pub fn write_fault(fault: &Fault, out: &mut [u8]) -> Result<usize, TooFewBytes>
    ensures answer { result ≡ write_answer (refusal_line fault.now) out.old }
    ensures after { out.new ≡ write_after (refusal_line fault.now) out.old }
    ensures short { length (refusal_line fault.now) ≤ 100 }
{
    lend(fault, out)
}

// A fault is printed as the line of its refusal, which has at most 100 bytes. By way of lent bytes, so that one function makes
// that line: written anew with `write!`, it would stand here twice.
impl fmt::Display for Fault {
    ghost output = { λ f. Some (refusal_line f) };

    fn fmt<W: fmt::Write>(&self, f: &mut fmt::Formatter<W>) -> fmt::Result {
        let mut lent = [0u8; 100];
        let n = write_fault(self, &mut lent).map_err(|_| fmt::Error)?;
        let line = str::from_utf8(&lent[..n]).map_err(|_| fmt::Error)?;
        f.write_str(line)
    }
}

// As many bytes are enough for every report.
pub const MOST_TOLD: usize = 20000;

// Judges a profile text and writes what is to be told of it: the reading or the fault. Tells how many bytes that is.
pub fn lint(text: &[u8], out: &mut [u8]) -> Result<usize, TooFewBytes>
    ensures answer { result ≡ write_answer (lint_bytes text.now) out.old }
    ensures after { out.new ≡ write_after (lint_bytes text.now) out.old }
    ensures short { length (lint_bytes text.now) ≤ 20000 }
{
    let mut table = Table::new();
    match read_profile(text, &mut table) {
        Ok(()) => lend(&table, out),
        Err(fault) => lend(&fault, out),
    }
}
