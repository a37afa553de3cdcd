// The calls on a draft and on a completed book, with the rows lent to each call.
ghost use Rattle.std.specs.Prelude.{◌≡◌, ◌+◌, ◌<◌, List, Option, slice_set};
ghost use Rattle.profile.specs.declared.Rule.{Rule};
ghost use Rattle.profile.specs.Kinds.{event_kind};
ghost use Rattle.game.specs.declared.Line.TheVariants.{Enter, Join};
ghost use Rattle.book.specs.Offers.{usable};
ghost use Rattle.game.specs.Rows.{head_of_starts};
ghost use Rattle.book.specs.Drafts.{empty_draft, draft_offer, told, rows_after, draft_after, draft_answer, verdict_of};

use crate::Refusal;
use crate::held::{held_of, tell_refuted};
use crate::making::{HeldRows, Sides};
use crate::state::{Completed, Draft};
use game::{Head, Pair, Row};
use profile::Profile;

// What a draft answers.
#[derive(Clone, Copy, PartialEq, Eq, Debug)]
pub enum Asked {
    Refuted,
    Undecided,
}

// What a completed book answers: a type of its own, so that a draft cannot say that the station refines.
#[derive(Clone, Copy, PartialEq, Eq, Debug)]
pub enum Verdict {
    Refuted,
    Refines,
}

impl Draft {
    // A draft that holds nothing, for the starts of two profiles.
    pub fn new<S: Profile, M: Profile>(station: &S, manual: &M) -> Draft
        ensures { result ≡ empty_draft (head_of_starts (S.Profile.origin station.now) (M.Profile.origin manual.now)) }
    {
        let (s, x) = station.start();
        let (m, y) = manual.start();
        let states = Pair {
            station: s,
            manual: m,
        };
        let symbols = Pair {
            station: x,
            manual: y,
        };
        Draft {
            start: Head { states, symbols },
            held: 0,
        }
    }

    // Writes a row after the held ones, and tells its number.
    fn append(&mut self, rows: &mut [Row], row: Row) -> usize
        requires { self.old.held < usable rows.old }
        ensures told { result ≡ self.old.held }
        ensures rows { rows.new ≡ slice_set rows.old self.old.held row }
        ensures draft { self.new ≡ record { start = self.old.start; held = self.old.held + 1 } }
    {
        let number = self.held;
        rows[number] = row;
        self.held = number + 1;
        number
    }

    // An enter: the number of the row that is appended, or a refusal. Public, and in any numbers: a call may give any.
    pub fn enter<S: Profile, M: Profile>(
        &mut self,
        station: &S,
        manual: &M,
        rows: &mut [Row],
        side: usize,
        slot: usize,
        state: usize,
        symbol: usize,
    ) -> Result<usize, Refusal>
        ensures answer { result ≡ told self.old (draft_offer event_kind (S.Profile.rules station.now) (M.Profile.rules manual.now) self.old rows.old (Enter side slot state symbol)) }
        ensures lent { rows.new ≡ rows_after self.old rows.old (Enter side slot state symbol) (draft_offer event_kind (S.Profile.rules station.now) (M.Profile.rules manual.now) self.old rows.old (Enter side slot state symbol)) }
        ensures draft { self.new ≡ draft_after self.old (draft_offer event_kind (S.Profile.rules station.now) (M.Profile.rules manual.now) self.old rows.old (Enter side slot state symbol)) }
    {
        let sides = Sides {
            station,
            manual,
            start: self.start,
        };
        let row = sides.offer_enter(HeldRows::of(rows, self.held), side, slot, state, symbol)?;
        Ok(self.append(rows, row))
    }

    // A join of two held rows: the number of the row that is appended, or a refusal. It needs no profile.
    pub fn join(&mut self, rows: &mut [Row], i: usize, j: usize) -> Result<usize, Refusal>
        ensures answer { (s m : List (Option Rule)) → result ≡ told self.old (draft_offer event_kind s m self.old rows.old (Join i j)) }
        ensures lent { (s m : List (Option Rule)) → rows.new ≡ rows_after self.old rows.old (Join i j) (draft_offer event_kind s m self.old rows.old (Join i j)) }
        ensures draft { (s m : List (Option Rule)) → self.new ≡ draft_after self.old (draft_offer event_kind s m self.old rows.old (Join i j)) }
    {
        let row = HeldRows::of(rows, self.held).offer_join(i, j)?;
        Ok(self.append(rows, row))
    }

    // Whether the held rows say that the starts are refuted. If not, a draft leaves it open.
    pub fn ask(&self, rows: &[Row]) -> Asked
        ensures { result ≡ draft_answer self.now rows.now }
    {
        if tell_refuted(self.start, held_of(rows, self.held)) {
            Asked::Refuted
        } else {
            Asked::Undecided
        }
    }
}

impl Completed {
    // Whether the held rows say that the starts are refuted; if not, it tells refines. That is a refinement where the rows
    // lent are those that the search completed, all of them, and the profiles are the same.
    pub fn verdict(&self, rows: &[Row]) -> Verdict
        ensures { result ≡ verdict_of self.now rows.now }
    {
        if tell_refuted(self.start, held_of(rows, self.held)) {
            Verdict::Refuted
        } else {
            Verdict::Refines
        }
    }
}
