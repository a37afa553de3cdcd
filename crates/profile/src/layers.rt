// Layers: each holds the profile below by value and is a profile again. Start and number of slots come from below, and
// what a layer makes of slot i below is its slot i.
ghost use Rattle.std.specs.Prelude.{◌≡◌, map, List, None, Option, ℕ};
ghost use Rattle.profile.specs.declared.Rule.{Rule};
ghost use Rattle.profile.specs.Kinds.{event_kind};
ghost use Rattle.profile.specs.Profiles.{LawfulSlot};
ghost use Rattle.profile.specs.Layerings.{layer_lawful};

use crate::{Profile, Rule};

pub mod bare;
pub mod defined;
pub mod loosen;
pub mod rename;

// What a layer does slot by slot, and what that comes to.
pub trait Layering {
    // What becomes of a slot.
    ghost made: { Self → Option Rule → Option Rule };

    // What that makes of the may rules and the must rules, from the slots below to those above.
    ghost Means: { Self → List (Option Rule) → List (Option Rule) → Type 0 };

    // What becomes of a slot below.
    fn slot(&self, below: Option<Rule>) -> Option<Rule>
        ensures { result ≡ made self.now below };

    // An empty slot stays empty.
    ghost leaves_empty: { (l : Self) → made l None ≡ None };

    // A lawful slot stays lawful.
    ghost keeps: { (l : Self) (s : Option Rule) → LawfulSlot event_kind s → LawfulSlot event_kind (made l s) };

    // It comes to what it means.
    ghost holds: { (l : Self) (slots : List (Option Rule)) → Means l slots (map (made l) slots) };
}

// A profile whose slots are those of the profile below, as the layering makes them.
#[derive(Drop)]
pub struct Layer<L, P> {
    layering: L,
    below: P,
}

impl<L: Layering, P: Profile> Layer<L, P> {
    // The profile below. The layer makes of its may rules and must rules what is told here.
    pub fn below(&self) -> &P
        ensures value { result.now ≡ self.now.below }
        ensures slots { ⟦<Layer<L, P> as Profile>⟧.rules self.now ≡ map (L.made self.now.layering) (P.Profile.rules self.now.below) }
        ensures start { ⟦<Layer<L, P> as Profile>⟧.origin self.now ≡ P.Profile.origin self.now.below }
        ensures meaning { L.Means self.now.layering (P.Profile.rules self.now.below) (map (L.made self.now.layering) (P.Profile.rules self.now.below)) }
    {
        &self.below
    }
}

impl<L: Layering, P: Profile> Profile for Layer<L, P> {
    ghost rules = { λ p. map (L.made p.layering) (P.Profile.rules p.below) };

    ghost origin = { λ p. P.Profile.origin p.below };

    ghost lawful = { λ p. layer_lawful event_kind (L.made p.layering) (L.keeps p.layering) _ _ (P.Profile.lawful p.below) };

    fn slots(&self) -> usize {
        self.below.slots()
    }

    fn slot(&self, i: usize) -> Option<Rule> {
        self.layering.slot(self.below.slot(i))
    }

    fn start(&self) -> (u8, u8) {
        self.below.start()
    }
}
