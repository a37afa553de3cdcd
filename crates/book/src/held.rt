// Questions to the rows that are held.
ghost use Rattle.std.specs.Prelude.{◌≡◌, nat_lt};
ghost use Rattle.game.specs.Members.{top_of, row_of};
ghost use Rattle.game.specs.Computed.{any_of, is_top, tops_row, called_for};
ghost use Rattle.book.specs.Offers.{usable, said, row_eq, held_rows, says_refuted};

use game::{Head, Member, Row};

// Whether a head is the top of a member. A name of its own: two contracts speak of it.
pub(crate) fn tops(m: &Member, head: Head) -> bool
    ensures { result ≡ is_top head (top_of m.now) }
{
    m.top() == Some(head)
}

// Whether a head is the top of a member of a row. By a loop: a rule of the project for tests of a row (docs/DECISIONS.md).
fn tops_row(row: &Row, head: Head) -> bool
    ensures { result ≡ tops_row head (row_of row.now) }
{
    let members = row.members();
    for m in members {
        if tops(m, head) {
            return true;
        }
    }
    false
}

// Whether the starts or the rows call for a head.
pub(crate) fn is_called_for(start: Head, rows: &[Row], head: Head) -> bool
    ensures { result ≡ called_for start (said rows.now) head }
{
    start == head || rows.iter().any(|row| tops_row(row, head))
}

// Whether a row is among the rows. A name of its own: an offer's contract speaks of it.
pub(crate) fn is_among(rows: &[Row], row: &Row) -> bool
    ensures { result ≡ any_of (row_eq (row_of row.now)) (said rows.now) }
{
    rows.iter().any(|old| row.same_row(old))
}

// Whether the rows say that the starts are refuted.
pub(crate) fn tell_refuted(start: Head, rows: &[Row]) -> bool
    ensures { result ≡ says_refuted start (said rows.now) }
{
    rows.iter()
        .any(|row| row.head == start && row.members().is_empty())
}

// How many of the rows that are lent are usable.
pub(crate) fn usable_rows(rows: &[Row]) -> usize
    ensures { result ≡ usable rows.now }
{
    rows.len().min(1024)
}

// Of the rows that are lent, those that are held. Rows and a number: they are lent by the caller to each call.
pub(crate) fn held_of(rows: &[Row], held: usize) -> &[Row]
    ensures { result.now ≡ held_rows rows.now held }
{
    &rows[..held.min(usable_rows(rows))]
}

// Whether a usable row is free.
pub(crate) fn has_room(rows: &[Row], held: usize) -> bool
    ensures { result ≡ nat_lt held (usable rows.now) }
{
    held < usable_rows(rows)
}
