// What is proved of the game and the rows: a theorem stands on the contract of each function, and a function is only
// there if its contract is proved.
ghost use Rattle.std.specs.Prelude.{◌≡◌, Decides};
ghost use Rattle.game.specs.declared.Head.{Head};
ghost use Rattle.game.specs.declared.Member.{Member};
ghost use Rattle.game.specs.Computed.{head_eq};
ghost use Rattle.game.specs.Sameness.{same_member};
ghost use Rattle.game.specs.Theorems.{AttacksAndRepliesAreTheTransitions, ModalRefinementIsRefinement, DerivableRowsKeepCountOfRounds, DerivableRowsMeanWhatRowsMean, RefutedMeansAttackerWins, RelationKeepsAttackerFromWinning, MoreRoundsDoNoHarm, ClosedListsHoldEveryDerivableRow, RefinesExactlyWhenNotRefuted, AttackerWinsExactlyWhenRefuted, SaturatedRowsDecide, SaturatedRowsExist, AttackerWinsOrStationRefines, MembersOfAnEnterAreWhatRepliesLeadTo, MembersOfAJoinAreBothRows, SameMembersSameList, DerivableDependsOnTheRulesAlone, DifferentRowsAreNoMoreThanTheList, RowsFitByWidthAndNumber, ComputedJoinsAreTheJoins, ComputedCalledForIsCalledFor};

use crate::{Head, Member};

// `==` on heads tests all their numbers, and on members too: it tells whether they are the same.
pub fn equality_tells_the_same()
    ensures heads { (h k : Head) → (⟦<Head as PartialEq>⟧.eq h k ≡ head_eq h k) × Decides (⟦<Head as PartialEq>⟧.eq h k) (h ≡ k) }
    ensures members { (m n : Member) → (⟦<Member as PartialEq>⟧.eq m n ≡ same_member m n) × Decides (⟦<Member as PartialEq>⟧.eq m n) (m ≡ n) }
{}

// Attacks and replies are exactly the transitions that the two clauses of refinement speak of: may transitions of the
// station answered by may transitions of the manual, must transitions of the manual by must transitions of the station.
pub fn attacks_and_replies_are_the_transitions()
    ensures { AttacksAndRepliesAreTheTransitions }
{}

// A modal refinement relation of the game is a refinement between the two induced systems, and the other way round.
pub fn modal_refinement_is_refinement()
    ensures { ModalRefinementIsRefinement }
{}

// On any stacks below, if the attacker wins from every member of a derivable row within k rounds, it wins from the head
// within k + n, where n counts the enters of the derivation.
pub fn derivable_rows_keep_count_of_rounds()
    ensures { DerivableRowsKeepCountOfRounds }
{}

// On any stacks below, if the attacker wins from every member of a derivable row, it wins from the head.
pub fn derivable_rows_mean_what_rows_mean()
    ensures { DerivableRowsMeanWhatRowsMean }
{}

// A derivable row of the starts' head without members means that the attacker wins from the starts.
pub fn refuted_means_attacker_wins()
    ensures { RefutedMeansAttackerWins }
{}

// Where a modal refinement relation says yes, the attacker does not win.
pub fn relation_keeps_attacker_from_winning()
    ensures { RelationKeepsAttackerFromWinning }
{}

// An attacker that wins within k rounds wins within any greater number.
pub fn more_rounds_do_no_harm()
    ensures { MoreRoundsDoNoHarm }
{}

// The derivable rows are closed under enter on called-for heads and under join, and every closed list contains them all.
pub fn closed_lists_hold_every_derivable_row()
    ensures { ClosedListsHoldEveryDerivableRow }
{}

// Of a closed list of derivable rows: a modal refinement relation holds the starts exactly when no row has the starts'
// head and no members.
pub fn refines_exactly_when_not_refuted()
    ensures { RefinesExactlyWhenNotRefuted }
{}

// Of a closed list of derivable rows: the attacker wins from the starts exactly when some row has the starts' head and no
// members.
pub fn attacker_wins_exactly_when_refuted()
    ensures { AttackerWinsExactlyWhenRefuted }
{}

// A closed list of derivable rows decides: the attacker wins from the starts, or a modal refinement relation holds them,
// and never both.
pub fn saturated_rows_decide()
    ensures { SaturatedRowsDecide }
{}

// Every two lists of optional rules and every head have a closed list of derivable rows.
pub fn saturated_rows_exist()
    ensures { SaturatedRowsExist }
{}

// The attacker wins from the starts, or a modal refinement relation holds them, and never both.
pub fn attacker_wins_or_station_refines()
    ensures { AttackerWinsOrStationRefines }
{}

// The members of an enter's row are exactly what the replies lead to, strictly ascending, and that is where the replies
// lead on any stacks below.
pub fn members_of_an_enter_are_what_replies_lead_to()
    ensures { MembersOfAnEnterAreWhatRepliesLeadTo }
{}

// The members of a join's row are those of the first row but the last, and those of the second, each with the lower pair
// of the last if there was one.
pub fn members_of_a_join_are_both_rows()
    ensures { MembersOfAJoinAreBothRows }
{}

// Two strictly ascending lists with the same members are equal.
pub fn same_members_same_list()
    ensures { SameMembersSameList }
{}

// What is derivable depends only on which may rules, which must rules and which starts there are, not on slots or doubles.
pub fn derivable_depends_on_the_rules_alone()
    ensures { DerivableDependsOnTheRulesAlone }
{}

// Pairwise different rows that all occur in a list are no more than the list is long.
pub fn different_rows_are_no_more_than_the_list()
    ensures { DifferentRowsAreNoMoreThanTheList }
{}

// When the derivable rows fit: a narrow closed list that is short enough shows it; a wide derivable row, or more
// different ones than usable, show that they do not.
pub fn rows_fit_by_width_and_number()
    ensures { RowsFitByWidthAndNumber }
{}

// The computed join gives the row that joins two rows, and nothing where none does.
pub fn computed_joins_are_the_joins()
    ensures { ComputedJoinsAreTheJoins }
{}

// The computed test tells which heads a list of rows calls for.
pub fn computed_called_for_is_called_for()
    ensures { ComputedCalledForIsCalledFor }
{}
