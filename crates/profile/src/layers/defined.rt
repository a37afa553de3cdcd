// The three layerings are those of the definitions, whoever made the layer.
ghost use Rattle.std.specs.Prelude.{◌≡◌, List, Option};
ghost use Rattle.profile.specs.declared.Rule.{Rule};
ghost use Rattle.profile.specs.declared.layers.bare.Baring.{Baring};
ghost use Rattle.profile.specs.declared.layers.loosen.Loosening.{Loosening};
ghost use Rattle.profile.specs.declared.layers.rename.Renaming.{Renaming};
ghost use Rattle.profile.specs.Layers.{bare_slot, loosen_slot, rename_slot, Bared, Loosened, Renamed};

use crate::{Baring, Layering, Loosening, Renaming};

// What each makes of a slot, and what that means of may rules and must rules, from the slots below to those above.
pub fn layerings_are_as_defined()
    ensures bare { (l : Baring) → ⟦<Baring as Layering>⟧.made l ≡ bare_slot }
    ensures bare_means { (l : Baring) (a b : List (Option Rule)) → ⟦<Baring as Layering>⟧.Means l a b → Bared a b }
    ensures loosen { (l : Loosening) → ⟦<Loosening as Layering>⟧.made l ≡ loosen_slot l.events }
    ensures loosen_means { (l : Loosening) (a b : List (Option Rule)) → ⟦<Loosening as Layering>⟧.Means l a b → Loosened l.events a b }
    ensures rename { (l : Renaming) → ⟦<Renaming as Layering>⟧.made l ≡ rename_slot l.table }
    ensures rename_means { (l : Renaming) (a b : List (Option Rule)) → ⟦<Renaming as Layering>⟧.Means l a b → Renamed l.table a b }
{}
