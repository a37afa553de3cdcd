// Worked examples on each side of every rule of the game, so that it is this game that the theorems speak of.
ghost use Rattle.game.specs.Examples.{KindsTellWhatIsPushed, ModesTellWhoMayPlay, HeadsHaveTheStationFirst, NothingComesOfNothing, JoinsKeepTheLowerPair, MembersAreInThisOrder, HeadsAreCalledFor, RoundsAreCounted};

// By the kind of its event a rule puts its upper symbol above its lower one, its upper symbol, or nothing.
pub fn kinds_tell_what_is_pushed()
    ensures { KindsTellWhatIsPushed }
{}

// What may rules and must rules count for, in attack and in reply.
pub fn modes_tell_who_may_play()
    ensures { ModesTellWhoMayPlay }
{}

// Whoever attacks, heads and members have the station first.
pub fn heads_have_the_station_first()
    ensures { HeadsHaveTheStationFirst }
{}

// Empty slots and empty stacks give nothing.
pub fn nothing_comes_of_nothing()
    ensures { NothingComesOfNothing }
{}

// A join replaces the last member, at its upper pair, and keeps its lower pair.
pub fn joins_keep_the_lower_pair()
    ensures { JoinsKeepTheLowerPair }
{}

// The order of members.
pub fn members_are_in_this_order()
    ensures { MembersAreInThisOrder }
{}

// Which heads are called for, and which are not.
pub fn heads_are_called_for()
    ensures { HeadsAreCalledFor }
{}

// The attacker wins where there is no reply, and each round counts.
pub fn rounds_are_counted()
    ensures { RoundsAreCounted }
{}
