// The game of modal refinement between a station's profile and the manual's, and the attack rows that decide it:
// the plain types that rows are made of.
#![tactic(auto)]

ghost use Rattle.std.specs.Prelude.{◌≡◌, min, Decides};
ghost use Rattle.game.specs.Members.{top_of, below_top, member_numbers, member_le, members_of, row_of, blank_row};
ghost use Rattle.game.specs.Order.{member_reflexive, member_antisymmetric, member_transitive, member_total};

use ordered::Keyed;

pub mod examples;
mod printed;
pub mod relation;
pub mod row_set;
pub mod theorems;

// A number of the station's beside one of the manual's: two states, or two stack symbols.
#[derive(Clone, Copy, Default, PartialEq, Eq, Debug)]
pub struct Pair {
    pub station: u8,
    pub manual: u8,
}

// The states of both sides and the symbols on top of both stacks, whatever lies below them.
#[derive(Clone, Copy, Default, PartialEq, Eq, Debug)]
pub struct Head {
    pub states: Pair,
    pub symbols: Pair,
}

// The symbols that lie above the stacks below: none, one pair, or an upper pair above a lower one.
#[derive(Clone, Copy, Default, PartialEq, Eq, Debug)]
pub enum Pairs {
    #[default]
    Zero,
    One(Pair),
    Two(Pair, Pair),
}

impl Pairs {
    // What is left when the upper pair is taken off.
    pub fn below_top(self) -> Pairs
        ensures { result ≡ below_top self }
    {
        match self {
            Pairs::Zero | Pairs::One(_) => Pairs::Zero,
            Pairs::Two(_, lower) => Pairs::One(lower),
        }
    }
}

// One position that the replies to an attack lead to: the states of both sides, and the pairs above the stacks below.
#[derive(Clone, Copy, Default, PartialEq, Eq, Debug)]
pub struct Member {
    pub states: Pair,
    pub symbols: Pairs,
}

impl Member {
    // The head formed by the states and the upper pair, if there is a pair.
    pub fn top(&self) -> Option<Head>
        ensures { result ≡ top_of self.now }
    {
        let states = self.states;
        match self.symbols {
            Pairs::Zero => None,
            Pairs::One(symbols) | Pairs::Two(symbols, _) => Some(Head { states, symbols }),
        }
    }

    // What members are ordered by: the number of pairs, the states, the upper pair, the lower pair. An array, always full.
    // By hand: a derived order would have the states before the number of pairs.
    pub fn numbers(&self) -> [u8; 7]
        ensures { result ≡ member_numbers self.now }
    {
        let p = self.states.station;
        let q = self.states.manual;
        match self.symbols {
            Pairs::Zero => [0, p, q, 0, 0, 0, 0],
            Pairs::One(u) => [1, p, q, u.station, u.manual, 0, 0],
            Pairs::Two(u, l) => [2, p, q, u.station, u.manual, l.station, l.manual],
        }
    }
}

// A member is its own key.
impl Keyed for Member {
    type Key = Member;

    ghost key = { λ m. m };

    ghost le = { member_le };

    ghost reflexive = { member_reflexive };

    ghost antisymmetric = { member_antisymmetric };

    ghost transitive = { member_transitive };

    ghost total = { member_total };

    // By `cmp`, which takes less time than `<=` on slices.
    fn at_most(&self, other: &Member) -> bool {
        let own = self.numbers();
        own.as_slice().cmp(&other.numbers().as_slice()).is_le()
    }
}

// How a row is made, in any numbers: by an attack from a slot of one side at a state and symbol of the other,
// or from two rows by their numbers.
#[derive(Clone, Copy, PartialEq, Eq, Debug)]
pub enum Line {
    Enter {
        side: usize,
        slot: usize,
        state: usize,
        symbol: usize,
    },
    Join {
        first: usize,
        second: usize,
    },
}

// A head, the members in the first `count` of twelve places, and the line that made the row.
// Any count may stand in a row that others wrote: one over 12 is read as 12.
// Places with a count beside them: rows lie in memory that the caller lends, and others may write them.
#[derive(Clone, Copy, Debug)]
pub struct Row {
    pub head: Head,
    pub members: [Member; 12],
    pub count: usize,
    pub line: Line,
}

impl Row {
    // A row in which nothing is written yet: its numbers are all 0, the side among them. Any row will do as memory to lend; this
    // is one.
    pub fn blank() -> Row
        ensures { result ≡ blank_row }
    {
        Row {
            head: Head::default(),
            members: [Member::default(); 12],
            count: 0,
            line: Line::Enter {
                side: 0,
                slot: 0,
                state: 0,
                symbol: 0,
            },
        }
    }

    // How many members there are.
    pub fn len(&self) -> usize
        ensures { result ≡ min self.now.count 12 }
    {
        self.count.min(12)
    }

    // The members.
    pub fn members(&self) -> &[Member]
        ensures { result.now ≡ members_of self.now }
    {
        &self.members[..self.len()]
    }

    // Whether both hold the same row: head and members are the same, whatever lines made them.
    // By hand: a derived `==` would tell rows apart by their lines and by what lies past their members.
    pub fn same_row(&self, other: &Row) -> bool
        ensures { Decides result (row_of self.now ≡ row_of other.now) }
    {
        self.head == other.head && self.members() == other.members()
    }
}
