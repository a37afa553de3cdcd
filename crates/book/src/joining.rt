// The members of a join.
ghost use Rattle.std.specs.Prelude.{◌≡◌, ◌&&◌, map};
ghost use Rattle.game.specs.Members.{top_of, row_of};
ghost use Rattle.game.specs.Rows.{with_pairs, put_in};
ghost use Rattle.game.specs.Computed.{is_top, pairless, joined};
ghost use Rattle.book.specs.Widths.{fitted, fitted_join};

use crate::Refusal;
use crate::held::tops;
use crate::width::{Members, put};
use game::{Member, Pairs, Row};
use ordered::Held;

// Whether no member has a pair. By a loop: a rule of the project for tests of a row (docs/DECISIONS.md).
fn no_pairs(members: &[Member]) -> bool
    ensures { result ≡ pairless members.now }
{
    for m in members {
        if m.symbols != Pairs::Zero {
            return false;
        }
    }
    true
}

// The members in front with others among them, each of those with these pairs.
fn put_among(front: &[Member], members: &[Member], pairs: Pairs) -> Result<Members, Refusal>
    ensures { result ≡ fitted (put_in (map (with_pairs pairs) members.now) front.now) }
{
    let mut among = Held::copied(Member::default(), front).ok_or(Refusal::TooManyMembers)?;
    for m in members {
        put(
            &mut among,
            Member {
                symbols: pairs,
                ..*m
            },
        )?;
    }
    Ok(among)
}

// Whether a row can take the place of a last member: it has that member's top for its head, and no pairs.
fn replaces(last: &Member, j: &Row) -> bool
    ensures { result ≡ (is_top j.now.head (top_of last.now) && pairless (row_of j.now).members) }
{
    tops(last, j.head) && no_pairs(j.members())
}

// The members of the join of two rows.
pub(crate) fn join_rows(i: &Row, j: &Row) -> Result<Members, Refusal>
    ensures { result ≡ fitted_join (joined (row_of i.now) (row_of j.now)) }
{
    let (last, front) = i.members().split_last().ok_or(Refusal::RowsDoNotJoin)?;
    if !replaces(last, j) {
        return Err(Refusal::RowsDoNotJoin);
    }
    put_among(front, j.members(), last.symbols.below_top())
}
