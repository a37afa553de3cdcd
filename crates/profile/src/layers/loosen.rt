// The loosened profile: must becomes may for a set of events.
ghost use Rattle.std.specs.Prelude.{◌≡◌, List, Option, refl};
ghost use Rattle.profile.specs.declared.Rule.{Rule};
ghost use Rattle.profile.specs.Layers.{loosen_slot, Loosened};
ghost use Rattle.profile.specs.Kinds.{event_kind};
ghost use Rattle.profile.specs.Layerings.{loosen_keeps};
ghost use Rattle.profile.specs.Meanings.{loosen_means};

use crate::layers::{Layer, Layering};
use crate::{Mode, Rule};

// The events that no longer must happen.
#[derive(Clone, Copy)]
pub struct Loosening {
    // A mark for each event, in place, so that the layer asks for no memory.
    events: [bool; 12],
}

// The profile below, in which these events no longer must happen.
pub type Loosen<P> = Layer<Loosening, P>;

impl<P> Loosen<P> {
    // The profile below, in which the events that are marked no longer must happen. Each layer is made from parts of its own.
    pub fn new(events: [bool; 12], below: P) -> Loosen<P>
        ensures set { result.layering.events ≡ events }
        ensures value { result.below ≡ below }
        ensures made { ⟦<Loosening as Layering>⟧.made result.layering ≡ loosen_slot events }
        ensures means { (a b : List (Option Rule)) → ⟦<Loosening as Layering>⟧.Means result.layering a b → Loosened events a b }
    {
        Layer {
            layering: Loosening { events },
            below,
        }
    }
}

impl Layering for Loosening {
    ghost made = { λ l. loosen_slot l.events };

    ghost Means = { λ l. Loosened l.events };

    ghost leaves_empty = { λ _. refl };

    ghost keeps = { λ l. loosen_keeps event_kind l.events };

    ghost holds = { λ l. loosen_means l.events };

    fn slot(&self, below: Option<Rule>) -> Option<Rule> {
        below.map(|rule| {
            match self.events.get(rule.event as usize) {
                Some(true) => Rule {
                    mode: Mode::May,
                    ..rule
                },
                _ => rule,
            }
        })
    }
}
