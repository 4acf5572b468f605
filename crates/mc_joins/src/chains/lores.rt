// There is a right lore, as a law: what chains are judged by has an answer.
ghost use Rattle.mc_joins.specs.Chains.ReadLaws.{LoresAreThere};

use crate::chains::laws::joint_atoms_are_there;
use crate::same::derived_is_renamed;
use mc_kernel::oracle::judges_are_there;
use mc_rules_logic::fold::naming_is_judged;
use mc_state::tests_tell;

/// Each valid flow graph has a right lore. So a clause that speaks of all right lores is never empty.
pub fn lores_are_there()
    ensures { LoresAreThere }
{
    derived_is_renamed();
    joint_atoms_are_there();
    judges_are_there();
    naming_is_judged();
    tests_tell();
}
