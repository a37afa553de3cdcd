// A search while it runs.
ghost use Rattle.std.specs.Prelude.{◌≤◌};
ghost use Rattle.book.specs.Offers.{usable};

use crate::making::Sides;
use game::Row;

// A search under way: the sides, the rows that the caller lends, and how many of them are held.
#[derive(Drop)]
pub(crate) struct Search<'a, S, M> {
    pub(crate) sides: &'a Sides<'a, S, M>,
    pub(crate) rows: &'a mut [Row],
    pub(crate) held: usize,
    ghost within: { held ≤ usable rows.now },
}
