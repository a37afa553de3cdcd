// Profiles: what a logger may do and what it must do, as rules of a visibly pushdown system.
#![tactic(auto)]

ghost use Rattle.std.specs.Prelude.{◌≡◌, Decides};
ghost use Rattle.ordered.specs.Lex.{lex_le};
ghost use Rattle.profile.specs.Kinds.{event_kind, symbols_used};
ghost use Rattle.profile.specs.Rules.{rule_key, lawful_rule, LawfulRule};
ghost use Rattle.ordered.proofs.Lexes.{lex_reflexive, lex_antisymmetric, lex_transitive, lex_total};

use ordered::Keyed;

mod event_table;
mod interface;
#[cfg(test)]
mod layer_tests;
mod layers;
mod open_profile;
mod table;

pub use event_table::EventTable;
pub use event_table::calls::NotRenaming;
pub use interface::Profile;
pub use layers::bare::{Bare, Baring};
pub use layers::defined::layerings_are_as_defined;
pub use layers::loosen::{Loosen, Loosening};
pub use layers::rename::{Rename, Renaming};
pub use layers::{Layer, Layering};
pub use open_profile::OpenProfile;
pub use table::Table;
pub use table::calls::{NotAdded, OutOfRange};

// How binding a rule is: what may happen, as by default, or what also must. A must rule counts as a may rule too.
#[derive(Clone, Copy, Default, PartialEq, Eq, Debug)]
pub enum Mode {
    #[default]
    May,
    Must,
}

// What an event does to the stack of open windows: it opens one, leaves their number, or closes one.
#[derive(Clone, Copy, PartialEq, Eq, Debug)]
pub enum Kind {
    Open,
    Step,
    Close,
}

impl Kind {
    // How many symbols a rule of this kind puts in the place of the top one. A count, and not the number of a case.
    pub fn symbols(self) -> usize
        ensures { result ≡ symbols_used self }
    {
        match self {
            Kind::Open => 2,
            Kind::Step => 1,
            Kind::Close => 0,
        }
    }
}

// The kind of an event, or nothing where there is no such event: that is no fault to tell, so this is no TryFrom.
pub fn kind_of(event: u8) -> Option<Kind>
    ensures { result ≡ event_kind event }
{
    match event {
        0..=3 => Some(Kind::Open),
        4..=7 => Some(Kind::Step),
        8..=11 => Some(Kind::Close),
        _ => None,
    }
}

// A rule: in a state with a symbol on top, an event leads to the next state and puts the upper symbol above
// the lower one in the place of the top.
#[derive(Clone, Copy, Default, PartialEq, Eq, Debug)]
pub struct Rule {
    pub mode: Mode,
    pub state: u8,
    pub top: u8,
    pub event: u8,
    pub next: u8,
    pub upper: u8,
    pub lower: u8,
}

impl Rule {
    // What rules are ordered by: all but the mode. An array that is always full.
    pub fn key(&self) -> [u8; 6]
        ensures { result ≡ rule_key self.now }
    {
        [
            self.state, self.top, self.event, self.next, self.upper, self.lower,
        ]
    }

    // Whether every number is in range and the symbols have the form of the event's kind.
    pub fn is_lawful(&self) -> bool
        ensures value { result ≡ lawful_rule event_kind self.now }
        ensures meaning { Decides result (LawfulRule event_kind self.now) }
    {
        if self.state > 7 || self.next > 7 || self.top > 15 || self.upper > 15 || self.lower > 15 {
            return false;
        }
        // By cases: each kind asks something else, and no kind refuses.
        match kind_of(self.event) {
            Some(Kind::Open) => true,
            Some(Kind::Step) => self.lower == 0,
            Some(Kind::Close) => self.upper == 0 && self.lower == 0,
            None => false,
        }
    }
}

// The key is an array, always full. Ordered by `Keyed`, for the reason beside that trait.
impl Keyed for Rule {
    type Key = [u8; 6];

    ghost key = { rule_key };

    ghost le = { lex_le };

    ghost reflexive = { lex_reflexive };

    ghost antisymmetric = { lex_antisymmetric };

    ghost transitive = { lex_transitive };

    ghost total = { lex_total };

    fn at_most(&self, other: &Rule) -> bool {
        ordered::lex_at_most(&self.key(), &other.key())
    }
}
