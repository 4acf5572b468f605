// Rules for which the laws fail.
ghost use Rattle.mc_rules_logic.specs.Fold.WrongRules.{SharedFoldIsSound, ClosingAnyArgsIsSound, DroppingKeepsWhole};

use mc_flow::defs::{example_predicates, example_premises};
use mc_flow::heap::{heaps_change_one_address, parts_regroup};
use mc_state::{body_premises, derived_is_true};

/// One edge is not two calls.
pub fn wrong_fold()
    ensures { ¬ SharedFoldIsSound }
{
    parts_regroup();
    heaps_change_one_address();
    example_predicates();
    example_premises();
    derived_is_true();
}

/// The arguments at a segment's end are those of what stands there.
pub fn wrong_closing()
    ensures { ¬ ClosingAnyArgsIsSound }
{
    parts_regroup();
    example_predicates();
    body_premises();
    derived_is_true();
}

/// What is dropped is allocated still.
pub fn wrong_drop()
    ensures { ¬ DroppingKeepsWhole }
{
    parts_regroup();
    example_predicates();
    body_premises();
    derived_is_true();
}
