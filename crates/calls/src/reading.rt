// Reads a text of calls: the word `lend` and how many rows are lent, and then calls to the end of the text.
ghost use Rattle.std.specs.Prelude.{◌≡◌};
ghost use Rattle.text.specs.Words.{spelled};
ghost use Rattle.text.specs.Sections.{stepped};
ghost use Rattle.text.specs.Faults.{word_fault_in};
ghost use Rattle.calls.specs.declared.reading.Unread.TheVariants.{Refused as UnreadFor, NoMemory};
ghost use Rattle.calls.specs.Calls.{read_operand, read_enter, read_join, read_call, CallsRead, ScriptRead, TextRead};
ghost use Rattle.calls.specs.CallGrammar.{CallsJudged, SaysOne};

use book::run::{Call, Turn};
use std::alloc::{AllocFailed, Global};
use text::fault::{Fault, SectionCause, WordCause};
use text::reader::Reader;
use text::sections::{alike, keyword, number};
use text::words::{Due, Word, judge_length};

// What a text of calls says: how many rows are lent, and the calls, which are still to be made.
#[derive(Drop)]
pub struct Script {
    pub lend: usize,
    pub turns: Vec<Turn>,
}

// Why a text of calls was not read.
#[derive(Drop)]
pub enum Unread {
    // The text has a fault.
    Refused(Fault),
    // There is no memory for the calls.
    NoMemory,
}

// By hand: which fault it was is promised, and what a derive writes has no contract.
impl From<Fault> for Unread {
    ghost from_gives = { λ f r. r ≡ UnreadFor f };

    fn from(f: Fault) -> Unread {
        Unread::Refused(f)
    }
}

impl From<Fault<WordCause>> for Unread {
    ghost from_gives = { λ f r. r ≡ UnreadFor (word_fault_in f) };

    fn from(f: Fault<WordCause>) -> Unread {
        Unread::Refused(f.into())
    }
}

impl<T: Drop> From<AllocFailed<T>> for Unread {
    ghost from_gives = { λ _ r. r ≡ NoMemory };

    fn from(_e: AllocFailed<T>) -> Unread {
        Unread::NoMemory
    }
}

// Takes a number of a call.
fn operand(reader: &mut Reader<'_>) -> Result<usize, Fault>
    ensures { stepped result reader.new ≡ read_operand reader.old }
{
    let n = number(reader, 0, 9999)?;
    Ok(usize::from(n))
}

// Takes the numbers of an attack.
fn attack(reader: &mut Reader<'_>) -> Result<Call, Fault>
    ensures { stepped result reader.new ≡ read_enter reader.old }
{
    let side = operand(reader)?;
    let slot = operand(reader)?;
    let state = operand(reader)?;
    let symbol = operand(reader)?;
    Ok(Call::Enter {
        side,
        slot,
        state,
        symbol,
    })
}

// Takes the numbers of two rows.
fn two_rows(reader: &mut Reader<'_>) -> Result<Call, Fault>
    ensures { stepped result reader.new ≡ read_join reader.old }
{
    let first = operand(reader)?;
    let second = operand(reader)?;
    Ok(Call::Join { first, second })
}

// The call that a word begins.
fn call_at(word: Word<'_>, reader: &mut Reader<'_>) -> Result<Call, Fault>
    ensures { stepped result reader.new ≡ read_call (record { value = spelled word.entry; rest = reader.old }) }
{
    // By `alike`: a `match` on five byte strings was tried, and the goals of its last three arms stayed open.
    let bytes = word.bytes();
    if alike(bytes, b"enter") {
        return attack(reader);
    }
    if alike(bytes, b"join") {
        return two_rows(reader);
    }
    if alike(bytes, b"search") {
        return Ok(Call::Search);
    }
    if alike(bytes, b"ask") {
        return Ok(Call::Ask);
    }
    if alike(bytes, b"verdict") {
        return Ok(Call::Verdict);
    }
    Err(Fault::new(SectionCause::WordNotDue, word.place()))
}

// Takes the calls to the end of the text.
fn call_list(heap: Global, reader: &mut Reader<'_>) -> Result<Vec<Turn>, Unread>
    ensures { CallsRead reader.old result }
{
    let mut turns = Vec::new(heap);
    while let Some(word) = reader.next(Due::Keyword)? {
        let call = call_at(word, reader)?;
        turns.push(Turn::new(call))?;
    }
    Ok(turns)
}

// Takes how many rows are lent, and the calls.
fn script_of(heap: Global, reader: &mut Reader<'_>) -> Result<Script, Unread>
    ensures { ScriptRead reader.old result }
{
    keyword(reader, b"lend")?;
    let lend = number(reader, 0, 1024)?;
    let turns = call_list(heap, reader)?;
    Ok(Script {
        lend: usize::from(lend),
        turns,
    })
}

// Reads a text of calls, by the definition.
fn read_text(heap: Global, text: &[u8]) -> Result<Script, Unread>
    ensures { TextRead text.now result }
{
    judge_length(text)?;
    script_of(heap, &mut Reader::new(text))
}

// Reads a text of calls. No text has two readings. One call, under a contract that says more than the callee's.
pub fn read_calls(heap: Global, text: &[u8]) -> Result<Script, Unread>
    ensures value { TextRead text.now result }
    ensures grammar { CallsJudged text.now result }
    ensures one { SaysOne text.now }
{
    read_text(heap, text)
}
