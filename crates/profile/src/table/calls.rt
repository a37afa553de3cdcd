// Making a table profile and asking it.
ghost use Rattle.std.specs.Prelude.{◌≡◌, [], map, length, Some, None, slice_index_or};
ghost use Rattle.profile.specs.Tables.{table_rules, table_start, not_added, add_answer, add_after, start_answer, start_after, LawfulTable};
ghost use Rattle.profile.specs.Laws.{table_law, table_profile_law};

use crate::{Profile, Rule, Table};
use ordered::{Held, Unplaced};

// Why a rule was not added to a table.
#[derive(Clone, Copy, PartialEq, Eq, Debug)]
pub enum NotAdded {
    // A number is out of range, or the symbols have not the form of the event's kind.
    Unlawful,
    // The rule in this slot is the same, the mode aside.
    Double(usize),
    // All 96 slots are taken.
    Full,
}

impl From<Unplaced> for NotAdded {
    ghost from_gives = { λ why e. e ≡ not_added why };

    fn from(why: Unplaced) -> NotAdded {
        match why {
            Unplaced::Double(slot) => NotAdded::Double(slot),
            Unplaced::Full => NotAdded::Full,
        }
    }
}

// A start is a state below 8 and a symbol below 16.
#[derive(Clone, Copy, PartialEq, Eq, Debug)]
pub struct OutOfRange;

impl Table {
    // A table without rules that starts in state 0 on symbol 0.
    pub fn new() -> Table
        ensures rules { table_rules result ≡ [] }
        ensures start { table_start result ≡ (0, 0) }
    {
        Table {
            rules: Held::new(Rule::default()),
            start: (0, 0),
        }
    }

    // Adds a rule at its place in the order and tells its slot; a refusal leaves the table as it was.
    pub fn add(&mut self, rule: Rule) -> Result<usize, NotAdded>
        ensures answer { result ≡ add_answer rule (table_rules self.old) }
        ensures rules { table_rules self.new ≡ add_after rule (table_rules self.old) result }
        ensures start { table_start self.new ≡ table_start self.old }
    {
        if !rule.is_lawful() {
            return Err(NotAdded::Unlawful);
        }
        let slot = self.rules.insert(rule)?;
        Ok(slot)
    }

    // Sets the start; one out of range is refused and leaves the table as it was.
    pub fn set_start(&mut self, state: u8, symbol: u8) -> Result<(), OutOfRange>
        ensures answer { result ≡ start_answer state symbol }
        ensures start { table_start self.new ≡ start_after state symbol (table_start self.old) result }
        ensures rules { table_rules self.new ≡ table_rules self.old }
    {
        if state > 7 || symbol > 15 {
            return Err(OutOfRange);
        }
        self.start = (state, symbol);
        Ok(())
    }

    // The rules, one to a slot, in the order of their keys.
    pub fn rules(&self) -> &[Rule]
        ensures value { result.now ≡ table_rules self.now }
        ensures slots { ⟦<Table as Profile>⟧.rules self.now ≡ map Some (table_rules self.now) }
        ensures start { ⟦<Table as Profile>⟧.origin self.now ≡ table_start self.now }
        ensures law { LawfulTable (table_rules self.now) (table_start self.now) }
    {
        self.rules.as_slice()
    }
}

impl Profile for Table {
    ghost rules = { λ t. map Some (table_rules t) };

    ghost origin = { table_start };

    ghost lawful = { λ t. table_profile_law _ _ (table_law t.rules t.start t.few t.lawful t.ascending t.state_in_range t.symbol_in_range) };

    fn slots(&self) -> usize {
        self.rules().len()
    }

    fn slot(&self, i: usize) -> Option<Rule> {
        self.rules().get(i).copied()
    }

    fn start(&self) -> (u8, u8) {
        self.start
    }
}
