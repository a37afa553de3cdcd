// What an offered line comes to: the row that it makes, or a refusal.
ghost use Rattle.std.specs.Prelude.{◌≡◌, List, Ok, Option, nat_lt};
ghost use Rattle.profile.specs.declared.Rule.{Rule};
ghost use Rattle.profile.specs.Kinds.{event_kind};
ghost use Rattle.game.specs.declared.Head.{Head};
ghost use Rattle.game.specs.declared.Line.TheVariants.{Enter, Join};
ghost use Rattle.game.specs.Rows.{entered};
ghost use Rattle.book.specs.Offers.{and_then, usable, held_rows, said, row_at, offer, written};
ghost use Rattle.book.specs.Sides.{player};
ghost use Rattle.book.specs.Widths.{fitted};
ghost use Rattle.book.specs.Written.{headed, fitted_row, fitted_both, new_and_free};

use crate::Refusal;
use crate::attack::Attack;
use crate::held::{has_room, held_of, is_among, is_called_for};
use crate::joining::join_rows;
use crate::reply::Side;
use crate::width::{Members, row_with};
use game::{Head, Line, Row};
use profile::Profile;

// The rows that are held, and whether a usable row is free: a yes or no, as the definition of an offer takes it.
#[derive(Clone, Copy)]
pub(crate) struct HeldRows<'a> {
    rows: &'a [Row],
    free: bool,
}

impl<'a> HeldRows<'a> {
    // Of the rows that are lent, those that are held.
    pub(crate) fn of(lent: &'a [Row], held: usize) -> HeldRows<'a>
        ensures rows { result.rows.now ≡ held_rows lent.now held }
        ensures free { result.free ≡ nat_lt held (usable lent.now) }
    {
        HeldRows {
            rows: held_of(lent, held),
            free: has_room(lent, held),
        }
    }

    // The row that joins two held rows, unless it is too wide.
    fn join_row(self, i: usize, j: usize) -> Result<Row, Refusal>
        ensures { result ≡ fitted_both (row_at (said self.entry.rows.now) i) (row_at (said self.entry.rows.now) j) (Join i j) }
    {
        let first = self.rows.get(i).ok_or(Refusal::RowNotHeld)?;
        let second = self.rows.get(j).ok_or(Refusal::RowNotHeld)?;
        let line = Line::Join {
            first: i,
            second: j,
        };
        Ok(row_with(first.head, &join_rows(first, second)?, line))
    }

    // A row that was made, unless it is held already or there is no room.
    fn if_new(self, row: Row) -> Result<Row, Refusal>
        ensures { result ≡ new_and_free self.entry.free (said self.entry.rows.now) (Ok row) }
    {
        if is_among(self.rows, &row) {
            Err(Refusal::RowAlreadyHeld)
        } else if self.free {
            Ok(row)
        } else {
            Err(Refusal::NoRowFree)
        }
    }

    // A join, offered to the held rows. Whatever the profiles and their starts are, it comes to the same.
    pub(crate) fn offer_join(self, i: usize, j: usize) -> Result<Row, Refusal>
        ensures { (s m : List (Option Rule)) (start : Head) → result ≡ and_then (offer event_kind s m start self.entry.free (said self.entry.rows.now) (Join i j)) (λ row. Ok (written row (Join i j))) }
    {
        self.if_new(self.join_row(i, j)?)
    }
}

// A station's profile beside a manual profile, with the head of the starts that a book is about.
#[derive(Drop)]
pub(crate) struct Sides<'a, S, M> {
    pub(crate) station: &'a S,
    pub(crate) manual: &'a M,
    pub(crate) start: Head,
}

impl<'a, S: Profile, M: Profile> Sides<'a, S, M> {
    // The members that the replies to an attack lead to. By cases: the two profiles are of two types.
    fn reply_members(&self, attack: Attack) -> Result<Members, Refusal>
        ensures { result ≡ fitted (entered event_kind (S.Profile.rules self.now.station.now) (M.Profile.rules self.now.manual.now) (player attack.side) attack.rule attack.head).members }
    {
        match attack.side {
            Side::Station => attack.replies(self.manual),
            Side::Manual => attack.replies(self.station),
        }
    }

    // The row of an attack, unless it is too wide, whether or not its head is called for.
    fn attack_row(&self, attack: Attack, line: Line) -> Result<Row, Refusal>
        ensures { result ≡ fitted_row (entered event_kind (S.Profile.rules self.now.station.now) (M.Profile.rules self.now.manual.now) (player attack.side) attack.rule attack.head) line }
    {
        Ok(row_with(attack.head, &self.reply_members(attack)?, line))
    }

    // An enter, offered to the held rows.
    pub(crate) fn offer_enter(
        &self,
        held: HeldRows<'_>,
        side: usize,
        slot: usize,
        state: usize,
        symbol: usize,
    ) -> Result<Row, Refusal>
        ensures { result ≡ and_then (offer event_kind (S.Profile.rules self.now.station.now) (M.Profile.rules self.now.manual.now) self.now.start held.entry.free (said held.entry.rows.now) (Enter side slot state symbol)) (λ row. Ok (written row (Enter side slot state symbol))) }
    {
        let line = Line::Enter {
            side,
            slot,
            state,
            symbol,
        };
        let attack = self.attack(side, slot, state, symbol)?;
        if is_called_for(self.start, held.rows, attack.head) {
            held.if_new(self.attack_row(attack, line)?)
        } else {
            Err(Refusal::HeadNotCalledFor)
        }
    }

    // A line, offered to the held rows. By cases: an enter asks the profiles, a join does not.
    pub(crate) fn offer(&self, held: HeldRows<'_>, line: Line) -> Result<Row, Refusal>
        ensures { result ≡ and_then (offer event_kind (S.Profile.rules self.now.station.now) (M.Profile.rules self.now.manual.now) self.now.start held.entry.free (said held.entry.rows.now) line) (λ row. Ok (written row line)) }
    {
        match line {
            Line::Enter {
                side,
                slot,
                state,
                symbol,
            } => self.offer_enter(held, side, slot, state, symbol),
            Line::Join { first, second } => held.offer_join(first, second),
        }
    }
}
