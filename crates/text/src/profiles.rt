// Profiles (layer 3): the sections of a profile text, read into a table profile.
ghost use Rattle.std.specs.Prelude.{◌≡◌, ◌<◌, ◌≤◌, true, false, length, [], IfOk};
ghost use Rattle.profile.specs.Kinds.{event_kind};
ghost use Rattle.profile.specs.Rules.{lawful_rule};
ghost use Rattle.text.specs.Sections.{stepped};
ghost use Rattle.text.specs.Grammar.{Judged, OneReading};
ghost use Rattle.text.specs.Places.{FaultStands};
ghost use Rattle.text.specs.ProfileText.{NameLists, texts, event_names, used_by, read_index, read_mode, read_symbol_if, read_rule, more_rules, read_rules, read_start, read_body, read_sections, table_listed, read_as, ReadInto};

use crate::fault::{Fault, Place, ProfileCause, SectionCause};
use crate::names::{EVENTS, Names, name_section, position};
use crate::reader::Reader;
use crate::sections::{finish, keyword, number, word_due};
use crate::words::{Due, judge_length};
use profile::{Kind, Mode, Rule, Table, kind_of};
use std::marker::Model;

// Takes a name of a list and tells its number.
fn index(reader: &mut Reader<'_>, names: &[&[u8]]) -> Result<u8, Fault>
    requires { length names.now ≤ 16 }
    ensures value { stepped result reader.new ≡ read_index (texts names.now) reader.old }
    ensures bound { IfOk result (λ i. i < length names.now) }
{
    let word = word_due(reader, Due::Name)?;
    let Some(i) = position(names, word.bytes()) else {
        return Err(Fault::new(ProfileCause::NameUnknown, word.place()));
    };
    Ok(i as u8)
}

// Takes the mode of a rule, and tells where it stands.
fn mode(reader: &mut Reader<'_>) -> Result<(Mode, Place), Fault>
    ensures { stepped result reader.new ≡ read_mode reader.old }
{
    let word = word_due(reader, Due::Keyword)?;
    match word.bytes() {
        b"may" => Ok((Mode::May, word.place())),
        b"must" => Ok((Mode::Must, word.place())),
        _ => Err(Fault::new(SectionCause::WordNotDue, word.place())),
    }
}

// Takes an event.
fn event(reader: &mut Reader<'_>) -> Result<u8, Fault>
    ensures value { stepped result reader.new ≡ read_index event_names reader.old }
    ensures bound { IfOk result (λ i. i < 12) }
{
    index(reader, &EVENTS)
}

// How many symbols a rule for an event lists.
pub(crate) fn used_by(event: u8) -> usize
    ensures { result ≡ used_by (event_kind event) }
{
    kind_of(event).map_or(0, Kind::symbols)
}

// The states and the symbols of a profile, which its rules and its start name.
#[derive(Drop)]
struct Vocabulary<'a> {
    states: Names<'a, 8>,
    symbols: Names<'a, 16>,
}

// Clauses see the two lists of names.
impl<'a> Model for Vocabulary<'a> {
    ghost Value = { NameLists };

    ghost view = { λ v. record { states = texts v.states.items; symbols = texts v.symbols.items } };
}

impl Vocabulary<'_> {
    // Takes a state. Apart from symbols, since each promises the bound of its own list.
    fn state(&self, reader: &mut Reader<'_>) -> Result<u8, Fault>
        ensures value { stepped result reader.new ≡ read_index self.now.states reader.old }
        ensures bound { IfOk result (λ i. i < 8) }
    {
        index(reader, self.states.as_slice())
    }

    // Takes a symbol.
    fn symbol(&self, reader: &mut Reader<'_>) -> Result<u8, Fault>
        ensures value { stepped result reader.new ≡ read_index self.now.symbols reader.old }
        ensures bound { IfOk result (λ i. i < 16) }
    {
        index(reader, self.symbols.as_slice())
    }

    // Takes a symbol where one is used; where none is, it is 0. With a flag, as the definition reads it.
    fn symbol_if(&self, reader: &mut Reader<'_>, used: bool) -> Result<u8, Fault>
        ensures value { stepped result reader.new ≡ read_symbol_if used self.now.symbols reader.old }
        ensures bound { IfOk result (λ i. i < 16) }
        ensures unused { used ≡ false → IfOk result (λ i. i ≡ 0) }
    {
        if used { self.symbol(reader) } else { Ok(0) }
    }

    // Takes a rule, and tells where it begins.
    fn rule(&self, reader: &mut Reader<'_>) -> Result<(Rule, Place), Fault>
        ensures value { stepped result reader.new ≡ read_rule self.now.states self.now.symbols event_names reader.old }
        ensures lawful { IfOk result (λ x. lawful_rule event_kind x.0 ≡ true) }
    {
        let (mode, place) = mode(reader)?;
        let state = self.state(reader)?;
        let top = self.symbol(reader)?;
        let event = event(reader)?;
        let next = self.state(reader)?;
        let used = used_by(event);
        let upper = self.symbol_if(reader, used >= 1)?;
        let lower = self.symbol_if(reader, used >= 2)?;
        let rule = Rule {
            mode,
            state,
            top,
            event,
            next,
            upper,
            lower,
        };
        Ok((rule, place))
    }

    // Takes `n` rules into a table, none of them twice, the mode aside: the text says how many.
    fn rule_list(&self, reader: &mut Reader<'_>, n: usize) -> Result<Table, Fault>
        requires { n ≤ 96 }
        ensures { table_listed result reader.new ≡ more_rules self.now.states self.now.symbols event_names n [] reader.old }
    {
        let mut table = Table::new();
        for _ in 0..n {
            let (rule, place) = self.rule(reader)?;
            // The rule is lawful and there is room, so that only a double is refused. By `is_err`: which refusal it was is not
            // asked, and a closure before a `?` would only drop it.
            if table.add(rule).is_err() {
                return Err(Fault::new(ProfileCause::RuleTwice, place));
            }
        }
        Ok(table)
    }

    // Takes the section of rules.
    fn rules(&self, reader: &mut Reader<'_>) -> Result<Table, Fault>
        ensures { table_listed result reader.new ≡ read_rules self.now.states self.now.symbols event_names reader.old }
    {
        keyword(reader, b"rules")?;
        let n = number(reader, 0, 96)?;
        self.rule_list(reader, usize::from(n))
    }

    // Takes the section of the start: a state and a symbol.
    fn start(&self, reader: &mut Reader<'_>) -> Result<(u8, u8), Fault>
        ensures value { stepped result reader.new ≡ read_start self.now.states self.now.symbols reader.old }
        ensures bound { IfOk result (λ s. (s.0 < 8) × (s.1 < 16)) }
    {
        keyword(reader, b"start")?;
        number(reader, 1, 1)?;
        let state = self.state(reader)?;
        let symbol = self.symbol(reader)?;
        Ok((state, symbol))
    }

    // Takes the rules and the start, and sees that nothing follows them.
    fn body(&self, reader: &mut Reader<'_>) -> Result<Table, Fault>
        ensures { read_as result ≡ read_body self.now.states self.now.symbols event_names reader.old }
    {
        let mut table = self.rules(reader)?;
        let (state, symbol) = self.start(reader)?;
        finish(reader)?;
        // Both numbers are in range, so that the start is taken.
        table.set_start(state, symbol).unwrap();
        Ok(table)
    }
}

// Takes all four sections.
fn sections(reader: &mut Reader<'_>) -> Result<Table, Fault>
    ensures { read_as result ≡ read_sections event_names reader.old }
{
    let states = name_section(reader, b"states")?;
    let symbols = name_section(reader, b"symbols")?;
    Vocabulary { states, symbols }.body(reader)
}

// Reads a text into a table, by the definition.
fn read_into(text: &[u8], profile: &mut Table) -> Result<(), Fault>
    ensures { ReadInto text.now result profile.old profile.new }
{
    judge_length(text)?;
    let mut reader = Reader::new(text);
    *profile = sections(&mut reader)?;
    Ok(())
}

// Reads a profile text into a table that the caller holds. A fault leaves the table as it was. One call, under a contract that
// says more than the callee's.
pub fn read_profile(text: &[u8], profile: &mut Table) -> Result<(), Fault>
    ensures value { ReadInto text.now result profile.old profile.new }
    ensures grammar { Judged text.now result profile.new }
    ensures place { FaultStands text.now result }
{
    read_into(text, profile)
}

// No text has two readings.
pub fn texts_have_one_reading()
    ensures { OneReading }
{}
