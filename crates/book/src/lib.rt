// The book: attack rows in memory that the caller lends, and the numbers that say which of them it holds.
#![tactic(auto)]

ghost use Rattle.std.specs.Prelude.{◌≡◌};
ghost use Rattle.book.specs.Refusals.{refusal_number};

mod attack;
pub mod calls;
mod completed;
mod held;
mod joining;
mod making;
mod printed;
mod reply;
pub mod rulings;
pub mod run;
mod running;
mod search;
pub mod state;
mod width;

// Why a line was not taken, or a search left off. Refusals are numbered from 1.
#[derive(Clone, Copy, PartialEq, Eq, Debug)]
pub enum Refusal {
    // There is no such side, the slot is past the end or empty, or it holds a may rule of the manual.
    NoSuchAttack = 1,
    // The head is neither that of the starts nor the top of a member of a held row.
    HeadNotCalledFor,
    // The row has over 12 members.
    TooManyMembers,
    // A held row has the same head and the same members.
    RowAlreadyHeld,
    // Every usable row is taken.
    NoRowFree,
    // One of the two rows is not held.
    RowNotHeld,
    // The rows do not join.
    RowsDoNotJoin,
    // A row is missing that has over 12 members or finds every usable row taken.
    RowsDoNotFit,
}

impl Refusal {
    // The number by which the refusal is told.
    pub fn number(self) -> u8
        ensures { result ≡ refusal_number self }
    {
        self as u8
    }
}
