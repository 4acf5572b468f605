// Side branches can be ended, as laws: what functions with no body of their own ensure.
ghost use Rattle.mc_follow.specs.Ending.Laws.{SidesCanEnd};
ghost use Rattle.mc_follow.specs.Ending.Steps.{GoalsAreMade};

use mc_pure::each_is_decided;
use mc_rules_logic::fold::{
    folding_is_determined, folding_makes_well, naming_is_determined, naming_makes_well,
    segments_make_well,
};
use mc_rules_logic::listed::lists_are_there;

/// Where a predicate has a cover, lines make an Ind of it, so a side branch whose shape is not lacking can be ended.
pub fn sides_can_end()
    ensures { SidesCanEnd }
{
    each_is_decided();
    lists_are_there();
    folding_makes_well();
    segments_make_well();
    naming_makes_well();
}

/// The goals that the marks of a cover meet are made one by one, the last one first: each line can be read, and what comes
/// of it is one step further.
pub fn goals_are_made()
    ensures { GoalsAreMade }
{
    lists_are_there();
    naming_makes_well();
    naming_is_determined();
    folding_is_determined();
}
