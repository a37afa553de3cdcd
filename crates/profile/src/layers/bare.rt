// The bare profile keeps what must happen: every slot whose rule is may is empty.
ghost use Rattle.std.specs.Prelude.{◌≡◌, List, Option, refl};
ghost use Rattle.profile.specs.declared.Rule.{Rule};
ghost use Rattle.profile.specs.Layers.{bare_slot, Bared};
ghost use Rattle.profile.specs.Kinds.{event_kind};
ghost use Rattle.profile.specs.Layerings.{bare_keeps};
ghost use Rattle.profile.specs.Meanings.{bare_means};

use crate::layers::{Layer, Layering};
use crate::{Mode, Rule};

// What must happen stays, and nothing else.
#[derive(Clone, Copy)]
pub struct Baring;

// The profile below without its may rules.
pub type Bare<P> = Layer<Baring, P>;

impl<P> Bare<P> {
    // What must happen in the profile below, and nothing else.
    pub fn new(below: P) -> Bare<P>
        ensures value { result.below ≡ below }
        ensures made { ⟦<Baring as Layering>⟧.made result.layering ≡ bare_slot }
        ensures means { (a b : List (Option Rule)) → ⟦<Baring as Layering>⟧.Means result.layering a b → Bared a b }
    {
        Layer {
            layering: Baring,
            below,
        }
    }
}

impl Layering for Baring {
    ghost made = { λ _. bare_slot };

    ghost Means = { λ _. Bared };

    ghost leaves_empty = { λ _. refl };

    ghost keeps = { λ _. bare_keeps event_kind };

    ghost holds = { λ _. bare_means };

    fn slot(&self, below: Option<Rule>) -> Option<Rule> {
        below.filter(|rule| rule.mode == Mode::Must)
    }
}
