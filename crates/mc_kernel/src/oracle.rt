//! There is a right judge of documents, as a law: what is asked of well-made states has an answer.

ghost use Rattle.mc_kernel.specs.Oracle.Judges.{JudgesAreThere};

use mc_cover::none_is_missed;
use mc_gaps::unmet::gaps_are_told;
use mc_pure::{each_is_decided, normal_forms_say_all};
use mc_rules_logic::listed::lists_are_there;
use mc_rules_steps::{causes_are_one, instructions_fit, operands_fit, operands_tell_nothing};

/// Each valid flow graph has a right judge. So a clause that speaks of all right judges is never empty.
pub fn judges_are_there()
    ensures { JudgesAreThere }
{
    each_is_decided();
    normal_forms_say_all();
    lists_are_there();
    instructions_fit();
    operands_fit();
    operands_tell_nothing();
    causes_are_one();
    gaps_are_told();
    none_is_missed();
}
