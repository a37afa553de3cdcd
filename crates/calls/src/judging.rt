// Judges three texts: makes the calls over the two profiles, or tells which text is refused and why.
ghost use Rattle.std.specs.Prelude.{◌≡◌, IfOk, string_bytes};
ghost use Rattle.text.specs.ProfileText.{reading_of};
ghost use Rattle.calls.specs.Calls.{calls_of, AllToBeMade};
ghost use Rattle.calls.specs.Judging.{Ran, refused_text, Told};

use crate::printing::{put_rows, put_turns};
use crate::reading::{Script, Unread, read_calls};
use book::run::run;
use game::Row;
use profile::Table;
use std::alloc::{AllocError, Global};
use text::fault::Fault;
use text::profiles::read_profile;
use thiserror::Error;

// There is no memory for what is to be printed.
#[derive(Clone, Copy, Debug, Error)]
#[error("there is no memory for what is to be printed")]
pub struct OutOfMemory;

// By hand: the derive asks for a field that holds what it is made from.
impl From<AllocError> for OutOfMemory {
    fn from(_e: AllocError) -> OutOfMemory {
        OutOfMemory
    }
}

// What is told of a refused text.
fn refused(heap: Global, which: &str, fault: &Fault) -> Result<String, OutOfMemory>
    ensures { IfOk result (λ s. string_bytes s ≡ refused_text which.now fault.now) }
{
    Ok(format!(in heap; "{which}\n{fault}")?)
}

// Makes the calls, and tells what came of them.
fn answered(
    heap: Global,
    station: &Table,
    manual: &Table,
    script: Script,
) -> Result<String, OutOfMemory>
    requires { AllToBeMade script.turns.items }
    ensures { IfOk result (λ s. Ran (reading_of station.now) (reading_of manual.now) script.lend (calls_of script.turns.items) (string_bytes s)) }
{
    let Script { lend, mut turns } = script;
    // Memory to lend: a book has none of its own.
    let mut rows = vec![in heap; Row::blank(); lend]?;
    let book = run(station, manual, rows.as_mut_slice(), turns.as_mut_slice());
    let mut out = String::new(heap);
    put_turns(&mut out, turns.as_slice())?;
    put_rows(&mut out, &rows.as_slice()[..book.held()])?;
    Ok(out)
}

// All that is printed for three texts.
pub fn judge(
    heap: Global,
    station: &[u8],
    manual: &[u8],
    calls: &[u8],
) -> Result<String, OutOfMemory>
    ensures { IfOk result (λ s. Told station.now manual.now calls.now (string_bytes s)) }
{
    let mut of_station = Table::new();
    if let Err(fault) = read_profile(station, &mut of_station) {
        return refused(heap, "station", &fault);
    }
    let mut of_manual = Table::new();
    if let Err(fault) = read_profile(manual, &mut of_manual) {
        return refused(heap, "manual", &fault);
    }
    match read_calls(heap, calls) {
        Ok(script) => answered(heap, &of_station, &of_manual, script),
        Err(Unread::Refused(fault)) => refused(heap, "calls", &fault),
        Err(Unread::NoMemory) => Err(OutOfMemory),
    }
}
