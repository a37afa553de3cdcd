// A list of calls, given one after the other to a new draft.
ghost use Rattle.std.specs.Prelude.{◌≡◌, false};
ghost use Rattle.profile.specs.Kinds.{event_kind};
ghost use Rattle.book.specs.Offers.{usable};
ghost use Rattle.game.specs.Rows.{head_of_starts};
ghost use Rattle.book.specs.Guarantee.{BookKept, Guarantee};
ghost use Rattle.book.specs.ByContract.{GuaranteeByContract};
ghost use Rattle.book.specs.Turns.{to_be_made, held_of, is_completed, line_answer, ask_answer, verdict_answer, StepsDraft, StepsCompleted, Steps};

use crate::Refusal;
use crate::calls::{Asked, Verdict};
use crate::state::{Completed, Draft};
use game::Row;
use profile::Profile;

// A call, in any numbers: a call may give any.
#[derive(Clone, Copy, PartialEq, Eq, Debug)]
pub enum Call {
    Enter {
        side: usize,
        slot: usize,
        state: usize,
        symbol: usize,
    },
    Join {
        first: usize,
        second: usize,
    },
    Search,
    Ask,
    Verdict,
}

// What a call is answered.
#[derive(Clone, Copy, PartialEq, Eq, Debug)]
pub enum Answer {
    // The number of the row that was appended.
    Row(usize),
    Refused(Refusal),
    // How many rows the completed book holds.
    Completed(usize),
    Refuted,
    Undecided,
    Refines,
    // A verdict before completion, or anything else after it. Nothing changes.
    NotOffered,
}

// A call with its answer, and how many rows are held after it, of those that the caller lends.
#[derive(Clone, Copy, PartialEq, Eq, Debug)]
pub struct Turn {
    pub call: Call,
    pub answer: Answer,
    pub held: usize,
}

// A book in either state.
#[derive(Drop)]
pub enum Book {
    Draft(Draft),
    Completed(Completed),
}

impl Turn {
    // A call that is still to be made.
    pub fn new(call: Call) -> Turn
        ensures { result ≡ to_be_made call }
    {
        Turn {
            call,
            answer: Answer::NotOffered,
            held: 0,
        }
    }
}

impl Book {
    // How many rows the book holds.
    pub fn held(&self) -> usize
        ensures { result ≡ held_of self.now }
    {
        match self {
            Book::Draft(draft) => draft.held,
            Book::Completed(done) => done.held,
        }
    }
}

// The answer to an offered line. By cases, here and below: which answer stands for which is what is told.
impl From<Result<usize, Refusal>> for Answer {
    ghost from_gives = { λ told answer. answer ≡ line_answer told };

    fn from(told: Result<usize, Refusal>) -> Answer {
        match told {
            Ok(number) => Answer::Row(number),
            Err(why) => Answer::Refused(why),
        }
    }
}

impl From<Asked> for Answer {
    ghost from_gives = { λ asked answer. answer ≡ ask_answer asked };

    fn from(asked: Asked) -> Answer {
        match asked {
            Asked::Refuted => Answer::Refuted,
            Asked::Undecided => Answer::Undecided,
        }
    }
}

impl From<Verdict> for Answer {
    ghost from_gives = { λ verdict answer. answer ≡ verdict_answer verdict };

    fn from(verdict: Verdict) -> Answer {
        match verdict {
            Verdict::Refuted => Answer::Refuted,
            Verdict::Refines => Answer::Refines,
        }
    }
}

// A call on a draft. The profiles come one by one, here and below: the calls of a draft take them so, and a pair of them would
// only be taken apart again.
fn step_draft<S: Profile, M: Profile>(
    mut draft: Draft,
    station: &S,
    manual: &M,
    rows: &mut [Row],
    call: Call,
) -> (Book, Answer)
    ensures { StepsDraft event_kind (S.Profile.rules station.now) (M.Profile.rules manual.now) draft rows.old call rows.new result.0 result.1 }
{
    match call {
        Call::Enter {
            side,
            slot,
            state,
            symbol,
        } => {
            let told = draft.enter(station, manual, rows, side, slot, state, symbol);
            (Book::Draft(draft), told.into())
        }
        Call::Join { first, second } => {
            let told = draft.join(rows, first, second);
            (Book::Draft(draft), told.into())
        }
        Call::Search => match draft.search(station, manual, rows) {
            Ok(done) => {
                let held = done.held;
                (Book::Completed(done), Answer::Completed(held))
            }
            Err((left, why)) => (Book::Draft(left), Answer::Refused(why)),
        },
        Call::Ask => {
            let asked = draft.ask(rows);
            (Book::Draft(draft), asked.into())
        }
        Call::Verdict => (Book::Draft(draft), Answer::NotOffered),
    }
}

// A call on a completed book. By cases, as on a draft: a call carries its numbers, and each is another method.
fn step_completed(done: Completed, rows: &[Row], call: Call) -> (Book, Answer)
    ensures { StepsCompleted done rows.now call result.0 result.1 }
{
    match call {
        Call::Verdict => {
            let verdict = done.verdict(rows);
            (Book::Completed(done), verdict.into())
        }
        _ => (Book::Completed(done), Answer::NotOffered),
    }
}

// A call on a book: the book after it, and the answer.
fn step<S: Profile, M: Profile>(
    book: Book,
    station: &S,
    manual: &M,
    rows: &mut [Row],
    call: Call,
) -> (Book, Answer)
    ensures { Steps event_kind (S.Profile.rules station.now) (M.Profile.rules manual.now) book rows.old call rows.new result.0 result.1 }
{
    match book {
        Book::Draft(draft) => step_draft(draft, station, manual, rows, call),
        Book::Completed(done) => step_completed(done, rows, call),
    }
}

// Gives a book to each call in turn, writes the answers in place, and gives the book at the end.
fn drive<S: Profile, M: Profile>(
    mut book: Book,
    station: &S,
    manual: &M,
    rows: &mut [Row],
    turns: &mut [Turn],
) -> Book
    requires { BookKept event_kind (S.Profile.rules station.now) (M.Profile.rules manual.now) (head_of_starts (S.Profile.origin station.now) (M.Profile.origin manual.now)) (usable rows.old) book rows.old }
    ensures kept { Guarantee event_kind (S.Profile.rules station.now) (M.Profile.rules manual.now) (head_of_starts (S.Profile.origin station.now) (M.Profile.origin manual.now)) (usable rows.old) (is_completed book) (held_of book) turns.old turns.new rows.old result rows.new }
    ensures by_contract { GuaranteeByContract event_kind (S.Profile.rules station.now) (M.Profile.rules manual.now) (head_of_starts (S.Profile.origin station.now) (M.Profile.origin manual.now)) (usable rows.old) (is_completed book) (held_of book) turns.old turns.new rows.old result rows.new }
{
    for turn in turns.iter_mut() {
        let (next, answer) = step(book, station, manual, rows, turn.call);
        turn.answer = answer;
        turn.held = next.held();
        book = next;
    }
    book
}

// Gives a new draft to each call in turn.
pub fn run<S: Profile, M: Profile>(
    station: &S,
    manual: &M,
    rows: &mut [Row],
    turns: &mut [Turn],
) -> Book
    ensures kept { Guarantee event_kind (S.Profile.rules station.now) (M.Profile.rules manual.now) (head_of_starts (S.Profile.origin station.now) (M.Profile.origin manual.now)) (usable rows.old) false 0 turns.old turns.new rows.old result rows.new }
    ensures by_contract { GuaranteeByContract event_kind (S.Profile.rules station.now) (M.Profile.rules manual.now) (head_of_starts (S.Profile.origin station.now) (M.Profile.origin manual.now)) (usable rows.old) false 0 turns.old turns.new rows.old result rows.new }
{
    let book = Book::Draft(Draft::new(station, manual));
    drive(book, station, manual, rows, turns)
}
