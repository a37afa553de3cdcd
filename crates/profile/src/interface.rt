// The interface of a profile: three questions, and what their answers mean. Whoever checks a profile asks these
// and never looks inside.
ghost use Rattle.std.specs.Prelude.{◌≡◌, ℕ, List, length, None, Option, slice_index_or};
ghost use Rattle.profile.specs.declared.Rule.{Rule};
ghost use Rattle.profile.specs.Kinds.{event_kind};
ghost use Rattle.profile.specs.Profiles.{LawfulProfile};

use crate::Rule;

pub trait Profile {
    // The slots, each with one rule or nothing.
    ghost rules: { Self → List (Option Rule) };

    // The state and the symbol, alone on the stack, that the profile starts with.
    ghost origin: { Self → ℕ × ℕ };

    // How many slots there are.
    fn slots(&self) -> usize
        ensures { result ≡ length (rules self.now) };

    // What slot i holds: one rule or nothing, and nothing from the number of slots on. Asked by number, so that no
    // profile has to hold its slots as a list.
    fn slot(&self, i: usize) -> Option<Rule>
        ensures { result ≡ slice_index_or (rules self.now) i None };

    // The state and the stack symbol that the profile starts with, as plain numbers that layers hand on.
    fn start(&self) -> (u8, u8)
        ensures { result ≡ origin self.now };

    // The three questions at once: the number of slots, slot i and the start.
    fn answers(&self, i: usize) -> (usize, Option<Rule>, (u8, u8))
        ensures slots { result.0 ≡ length (rules self.now) }
        ensures slot { result.1 ≡ slice_index_or (rules self.now) i None }
        ensures start { result.2 ≡ origin self.now }
    {
        (self.slots(), self.slot(i), self.start())
    }

    ghost lawful: { (p : Self) → LawfulProfile event_kind (rules p) (origin p) };
}
