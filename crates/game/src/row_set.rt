// Sets of attack rows, by any propositions.
ghost use Rattle.ordered.specs.Laws.{Ascending};
ghost use Rattle.game.specs.Members.{AttackRow, member_le};
ghost use Rattle.game.specs.Theorems.{DerivableRowsAreTheLeastClosedSet, DerivableRowsAscend};

// A set of rows: the rows that it has.
pub trait RowSet {
    ghost has: { AttackRow → Type 0 };
}

// A set that is closed under enter on the heads that it calls for and under join has every derivable row.
pub fn derivable_rows_are_the_least_closed_set<S: RowSet>()
    ensures { DerivableRowsAreTheLeastClosedSet S.RowSet.has }
{}

// The rows whose members are strictly ascending.
#[derive(Clone, Copy, Debug)]
pub struct Ascends;

impl RowSet for Ascends {
    ghost has = { λ row. Ascending member_le row.members };
}

// The members of every derivable row are strictly ascending, since that set is closed.
pub fn derivable_rows_ascend()
    ensures { DerivableRowsAscend }
{
    derivable_rows_are_the_least_closed_set::<Ascends>()
}
