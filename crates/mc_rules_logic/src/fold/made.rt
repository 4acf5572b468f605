// What a rule makes is well made where the state before is. Each law is what a function with no body ensures.
ghost use Rattle.mc_rules_logic.specs.Fold.MadeLaws.{FoldIndStaysMade, FoldSegStaysMade, CloseSegStaysMade, JoinSegsStaysMade};
ghost use Rattle.mc_rules_logic.specs.Fold.MadeLaws.{EmptySegStaysMade, SpareStaysMade, MergeStaysMade, DropStaysMade, ForgetStaysMade};

use crate::fold::laws::{folding_is_sound, naming_is_sound, segments_are_closed};
use mc_state::nodes_are_there;

/// What folding makes is well made, where the definitions and the state before are.
pub fn folding_makes_well()
    ensures ind { FoldIndStaysMade }
    ensures seg { FoldSegStaysMade }
{
    folding_is_sound();
}

/// What closing, joining and making segments makes is well made where the state before is.
pub fn segments_make_well()
    ensures close { CloseSegStaysMade }
    ensures join { JoinSegsStaysMade }
    ensures empty { EmptySegStaysMade }
{
    segments_are_closed();
}

/// What naming, merging, dropping and forgetting makes is well made where the state before is.
pub fn naming_makes_well()
    ensures spare { SpareStaysMade }
    ensures merge { MergeStaysMade }
    ensures drop_edge { DropStaysMade }
    ensures forget { ForgetStaysMade }
{
    naming_is_sound();
    nodes_are_there();
}
