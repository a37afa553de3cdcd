// Relations of any propositions on positions. One that says yes or no to every position is the case in which each
// proposition is that the answer is yes.
ghost use Rattle.std.specs.Prelude.{◌≡◌};
ghost use Rattle.game.specs.Game.{Position};
ghost use Rattle.game.specs.Theorems.{DefendingIsRefining, RefinementKeepsAttackerFromWinning, AnyRefinementGivesAYesOrNoOne, EveryProfileRefinesItself};

// A relation between a station's and a manual's configurations: the positions at which it holds. Not the trait of a set of
// rows: other theorems speak of each.
pub trait Relation {
    ghost holds: { Position → Type 0 };
}

// That every attack from where a relation holds has a reply to where it holds is the same as that the relation is a
// refinement between the two induced systems.
pub fn defending_is_refining<R: Relation>()
    ensures { DefendingIsRefining R.Relation.holds }
{}

// Where a refinement holds, the attacker does not win.
pub fn refinement_keeps_attacker_from_winning<R: Relation>()
    ensures { RefinementKeepsAttackerFromWinning R.Relation.holds }
{}

// A refinement that holds the starts gives a modal refinement relation, yes or no at every position, that holds them.
pub fn any_refinement_gives_a_yes_or_no_one<R: Relation>()
    ensures { AnyRefinementGivesAYesOrNoOne R.Relation.holds }
{}

// The relation that holds where station and manual are in the same configuration.
#[derive(Clone, Copy, Debug)]
pub struct Same;

impl Relation for Same {
    ghost holds = { λ pos. pos.station ≡ pos.manual };
}

// Every list of optional rules refines itself, by that relation.
pub fn every_profile_refines_itself()
    ensures { EveryProfileRefinesItself }
{
    any_refinement_gives_a_yes_or_no_one::<Same>()
}
