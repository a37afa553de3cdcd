// The members of one row while it is made: at most twelve, each inserted in its place.
ghost use Rattle.std.specs.Prelude.{◌≡◌, Ok, Err, MatchResult};
ghost use Rattle.game.specs.Members.{member_le};
ghost use Rattle.ordered.specs.Insert.{insert_into};
ghost use Rattle.book.specs.Offers.{written};
ghost use Rattle.book.specs.Widths.{fitted};

use crate::Refusal;
use game::{Head, Line, Member, Row};
use ordered::{Held, Unplaced};

pub(crate) type Members = Held<Member, 12>;

// One member more, unless it is there already; a thirteenth is refused.
pub(crate) fn put(members: &mut Members, m: Member) -> Result<(), Refusal>
    ensures { MatchResult result (λ _. fitted (insert_into member_le m members.old) ≡ Ok members.new) (λ why. fitted (insert_into member_le m members.old) ≡ Err why) }
{
    // Two arms with one answer: in a joined arm the proof would not know which of them it was.
    match members.insert(m) {
        Ok(_) => Ok(()),
        Err(Unplaced::Double(_)) => Ok(()),
        Err(Unplaced::Full) => Err(Refusal::TooManyMembers),
    }
}

// A row of these members, with blank places past them: a row lies in lent memory and is written whole.
pub(crate) fn row_with(head: Head, members: &Members, line: Line) -> Row
    ensures { result ≡ written (record { head = head; members = members.now }) line }
{
    let held = members.as_slice();
    let count = held.len();
    let mut places = [Member::default(); 12];
    places[..count].copy_from_slice(held);
    Row {
        head,
        members: places,
        count,
        line,
    }
}
