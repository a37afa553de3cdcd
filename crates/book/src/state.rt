// The two states of a book.
ghost use Rattle.std.specs.Prelude.{◌≡◌};

use game::Head;

// A book that is still being written: the head of the two starts, and how many rows it holds of those that the caller lends to
// each call. It cannot be copied.
#[derive(Drop)]
pub struct Draft {
    pub(crate) start: Head,
    pub(crate) held: usize,
}

// A book that a search has completed: the same numbers, where nothing was missing from the rows lent to the search. It
// cannot be copied either. It is a type of its own, so that nothing can be entered in it and no draft gives a verdict.
#[derive(Drop)]
pub struct Completed {
    pub(crate) start: Head,
    pub(crate) held: usize,
}

impl Draft {
    // How many rows the draft holds.
    pub fn held(&self) -> usize
        ensures { result ≡ self.now.held }
    {
        self.held
    }
}
