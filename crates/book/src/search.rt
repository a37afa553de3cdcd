// The search: derivable rows are appended until none is missing, or one that is missing cannot be.
ghost use Rattle.std.specs.Prelude.{◌≡◌, ◌≤◌, length, take, None, slice_index_or};
ghost use Rattle.profile.specs.Kinds.{event_kind};
ghost use Rattle.game.specs.Members.{row_of};
ghost use Rattle.game.specs.Computed.{called_for};
ghost use Rattle.book.specs.Offers.{said};
ghost use Rattle.book.specs.Sides.{slots_of, rule_at, enter_at, InBytes};
ghost use Rattle.game.specs.Rows.{head_of_starts};
ghost use Rattle.book.specs.Drafts.{SearchEnds};
ghost use Rattle.book.specs.Deciding.{OwnRows, DecidesRightly};
ghost use Rattle.book.specs.Trying.{stuck_by};

use crate::Refusal;
use crate::held::{is_called_for, usable_rows};
use crate::making::{HeldRows, Sides};
use crate::reply::Side;
use crate::running::Search;
use crate::state::{Completed, Draft};
use game::{Head, Line, Row};
use profile::{Profile, Rule};

// A row is missing that cannot be appended.
#[derive(Clone, Copy, PartialEq, Eq, Debug)]
struct Unfit;

// Whether a refusal says that a row is missing that cannot be appended. A name of its own: the steps' contracts speak of it.
fn is_stuck(why: Refusal) -> bool
    ensures { result ≡ stuck_by why }
{
    matches!(why, Refusal::TooManyMembers | Refusal::NoRowFree)
}

// Whether a slot of a side has a rule for that side's state and symbol in a head.
fn has_rule_at(side: Side, slot: Option<Rule>, head: Head) -> bool
    ensures { result ≡ rule_at side slot head }
{
    slot.is_some_and(|rule| {
        rule.state == side.attacking(head.states) && rule.top == side.attacking(head.symbols)
    })
}

// The enter from a slot of a side at a head.
fn enter_line(side: Side, slot: usize, head: Head) -> Line
    ensures line { result ≡ enter_at side slot head }
    ensures bytes { InBytes side head }
{
    Line::Enter {
        side: side as usize,
        slot,
        state: usize::from(side.replying(head.states)),
        symbol: usize::from(side.replying(head.symbols)),
    }
}

// By cases: the two profiles are of two types.
impl<S: Profile, M: Profile> Sides<'_, S, M> {
    // How many slots a side has.
    fn slots(&self, side: Side) -> usize
        ensures { result ≡ length (slots_of (S.Profile.rules self.now.station.now) (M.Profile.rules self.now.manual.now) side) }
    {
        match side {
            Side::Station => self.station.slots(),
            Side::Manual => self.manual.slots(),
        }
    }

    // What a slot of a side holds.
    pub(crate) fn slot(&self, side: Side, slot: usize) -> Option<Rule>
        ensures { result ≡ slice_index_or (slots_of (S.Profile.rules self.now.station.now) (M.Profile.rules self.now.manual.now) side) slot None }
    {
        match side {
            Side::Station => self.station.slot(slot),
            Side::Manual => self.manual.slot(slot),
        }
    }
}

impl<S: Profile, M: Profile> Search<'_, S, M> {
    ghost use Rattle.book.specs.Underway.{Steps, offered};
    ghost use Rattle.book.specs.Trying.{line_tried, slot_tried, side_tried, head_tried, new_tried, top_tried, tops_tried, pair_tried, all_tried};

    // A line, offered to the rows that are held. Asked of a `&self`, by which the rows are known to stay as they are.
    fn offer(&self, line: Line) -> Result<Row, Refusal>
        ensures { result ≡ offered S.Profile.rules M.Profile.rules self.now line }
    {
        self.sides.offer(HeldRows::of(self.rows, self.held), line)
    }

    // Tries a line: the row that it makes is appended where it is new.
    fn try_line(&mut self, line: Line) -> Result<(), Unfit>
        ensures { Steps S.Profile.rules M.Profile.rules self.old (λ s m h before. line_tried event_kind s m h before line) result self.new }
    {
        match self.offer(line) {
            Ok(row) => {
                self.rows[self.held] = row;
                self.held += 1;
                Ok(())
            }
            Err(why) if is_stuck(why) => Err(Unfit),
            Err(_) => Ok(()),
        }
    }

    // Tries the enter from one slot of a side at a head.
    fn try_slot(&mut self, head: Head, side: Side, slot: usize) -> Result<(), Unfit>
        ensures { Steps S.Profile.rules M.Profile.rules self.old (λ s m h before. slot_tried event_kind s m h before side slot head) result self.new }
    {
        if has_rule_at(side, self.sides.slot(side, slot), head) {
            self.try_line(enter_line(side, slot, head))
        } else {
            Ok(())
        }
    }

    // Tries the enters from every slot of a side at a head.
    fn try_side(&mut self, head: Head, side: Side) -> Result<(), Unfit>
        ensures { Steps S.Profile.rules M.Profile.rules self.old (λ s m h before. side_tried event_kind s m h before side (length (slots_of s m side)) head) result self.new }
    {
        // By number: a profile is asked slot by slot.
        for i in 0..self.sides.slots(side) {
            self.try_slot(head, side, i)?;
        }
        Ok(())
    }

    // Tries every enter at a head.
    fn try_head(&mut self, head: Head) -> Result<(), Unfit>
        ensures { Steps S.Profile.rules M.Profile.rules self.old (λ s m h before. head_tried event_kind s m h before head) result self.new }
    {
        self.try_side(head, Side::Station)?;
        self.try_side(head, Side::Manual)
    }

    // Whether the starts or one of the rows that are done with called for a head. Asked of a `&self` likewise.
    fn was_called_for(&self, done: usize, head: Head) -> bool
        requires { done ≤ self.now.held }
        ensures { result ≡ called_for self.now.sides.now.start (said (take done self.now.rows.now)) head }
    {
        is_called_for(self.sides.start, &self.rows[..done], head)
    }

    // Tries every enter at a head, unless the starts or one of the rows that are done with called for it.
    fn try_new_head(&mut self, done: usize, head: Head) -> Result<(), Unfit>
        requires { done ≤ self.old.held }
        ensures { Steps S.Profile.rules M.Profile.rules self.old (λ s m h before. new_tried event_kind s m h before done head) result self.new }
    {
        if self.was_called_for(done, head) {
            Ok(())
        } else {
            self.try_head(head)
        }
    }

    // Tries every enter at a top, if there is one. By cases: a closure would have to take the search with it.
    fn try_top(&mut self, done: usize, top: Option<Head>) -> Result<(), Unfit>
        requires { done ≤ self.old.held }
        ensures { Steps S.Profile.rules M.Profile.rules self.old (λ s m h before. top_tried event_kind s m h before done top) result self.new }
    {
        match top {
            Some(head) => self.try_new_head(done, head),
            None => Ok(()),
        }
    }

    // Tries every enter at the tops of the members of a row.
    fn try_tops(&mut self, done: usize, row: Row) -> Result<(), Unfit>
        requires { done ≤ self.old.held }
        ensures { Steps S.Profile.rules M.Profile.rules self.old (λ s m h before. tops_tried event_kind s m h before done (row_of row)) result self.new }
    {
        let members = row.members();
        for m in members {
            self.try_top(done, m.top())?;
        }
        Ok(())
    }

    // Tries the joins of two rows, both ways round. A row has one join with itself.
    fn try_pair(&mut self, k: usize, j: usize) -> Result<(), Unfit>
        ensures { Steps S.Profile.rules M.Profile.rules self.old (λ s m h before. pair_tried event_kind s m h before k j) result self.new }
    {
        let there = Line::Join {
            first: k,
            second: j,
        };
        let back = Line::Join {
            first: j,
            second: k,
        };
        self.try_line(there)?;
        if k == j { Ok(()) } else { self.try_line(back) }
    }

    // Appends derivable rows until none is missing, or one that is missing cannot be appended: the enters at the head of
    // the starts, then for each row the enters at the tops of its members and the joins with itself and the rows before it.
    fn close(&mut self) -> Result<(), Unfit>
        ensures { Steps S.Profile.rules M.Profile.rules self.old (λ s m h before. all_tried event_kind s m h) result self.new }
    {
        self.try_head(self.sides.start)?;
        // By number: rows are appended while the outer loop runs, and a pair is told by its numbers. Left by a label: a rule of the
        // project for the search (docs/DECISIONS.md).
        let mut k = 0;
        'search: {
            while k < self.held {
                let row = self.rows[k];
                if let Err(unfit) = self.try_tops(k, row) {
                    break 'search Err(unfit);
                }
                for j in 0..=k {
                    if let Err(unfit) = self.try_pair(k, j) {
                        break 'search Err(unfit);
                    }
                }
                k += 1;
            }
            Ok(())
        }
    }
}

impl Draft {
    // Appends derivable rows, each with the line that makes it, until none is missing: the book is completed. The draft
    // is handed back at the first missing row that is too wide or finds no usable row free. Where the rows held are this
    // book's own, the search decides: it completes exactly when the derivable rows fit, and then the verdict is right.
    pub fn search<S: Profile, M: Profile>(
        self,
        station: &S,
        manual: &M,
        rows: &mut [Row],
    ) -> Result<Completed, (Draft, Refusal)>
        ensures ends { SearchEnds event_kind (S.Profile.rules station.now) (M.Profile.rules manual.now) self rows.old rows.new result }
        ensures decides { self.start ≡ head_of_starts (S.Profile.origin station.now) (M.Profile.origin manual.now) → OwnRows event_kind (S.Profile.rules station.now) (M.Profile.rules manual.now) self rows.old → DecidesRightly event_kind (S.Profile.rules station.now) (M.Profile.rules manual.now) self rows.old rows.new result }
    {
        let start = self.start;
        let sides = Sides {
            station,
            manual,
            start,
        };
        let most = usable_rows(rows);
        let mut search = Search {
            sides: &sides,
            rows,
            held: self.held.min(most),
        };
        let closed = search.close();
        let held = self.held.max(search.held);
        // By cases: each hands out a book in another state.
        match closed {
            Ok(()) => Ok(Completed { start, held }),
            Err(Unfit) => Err((Draft { start, held }, Refusal::RowsDoNotFit)),
        }
    }
}
