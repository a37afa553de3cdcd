// What a completed book tells of itself.
ghost use Rattle.std.specs.Prelude.{◌≡◌};

use crate::state::Completed;

impl Completed {
    // How many rows the completed book holds. As short as for a draft: a trait for both would say no more.
    pub fn held(&self) -> usize
        ensures { result ≡ self.now.held }
    {
        self.held
    }
}
