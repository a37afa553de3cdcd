// The renamed profile: each event is replaced by what a table tells for it.
ghost use Rattle.std.specs.Prelude.{◌≡◌, List, Option, refl};
ghost use Rattle.profile.specs.declared.Rule.{Rule};
ghost use Rattle.profile.specs.Layers.{rename_slot, Renamed};
ghost use Rattle.profile.specs.Layerings.{rename_keeps};
ghost use Rattle.profile.specs.Meanings.{rename_means};

use crate::layers::{Layer, Layering};
use crate::{EventTable, Rule};

// The names that events get.
#[derive(Clone, Copy)]
pub struct Renaming {
    table: EventTable,
}

// The profile below under new names.
pub type Rename<P> = Layer<Renaming, P>;

impl<P> Rename<P> {
    // The profile below under the new names. Each layer is made from parts of its own.
    pub fn new(table: EventTable, below: P) -> Rename<P>
        ensures names { result.layering.table ≡ table }
        ensures value { result.below ≡ below }
        ensures made { ⟦<Renaming as Layering>⟧.made result.layering ≡ rename_slot table }
        ensures means { (a b : List (Option Rule)) → ⟦<Renaming as Layering>⟧.Means result.layering a b → Renamed table a b }
    {
        Layer {
            layering: Renaming { table },
            below,
        }
    }
}

impl Layering for Renaming {
    ghost made = { λ l. rename_slot l.table };

    ghost Means = { λ l. Renamed l.table };

    ghost leaves_empty = { λ _. refl };

    ghost keeps = { λ l. rename_keeps l.table };

    ghost holds = { λ l. rename_means l.table };

    fn slot(&self, below: Option<Rule>) -> Option<Rule> {
        below.map(|rule| Rule {
            event: self.table.renamed_event(rule.event),
            ..rule
        })
    }
}
