// What holds of the rules of instructions. Each law is what a function with no body ensures.
ghost use Rattle.mc_rules_steps.specs.Laws.{StepsAreSound, StepsStayBounded, UnmetHasNoStep};

/// Where a rule applies, no configuration at the state faults, and each step leads to a successor.
pub fn steps_are_sound()
    ensures { StepsAreSound }
{
    mc_state::derived_is_true();
    mc_state::nothing_is_allocated();
    mc_state::new_nodes_are_free();
    mc_state::variables_change();
    mc_state::edges_come_and_go();
    mc_state::numbers_stay_bounded();
    mc_state::nodes_are_there();
    mc_flow::heap::parts_regroup();
    mc_flow::heap::heaps_change_one_address();
    mc_flow::heap::changes_are_local();
    mc_flow::heap::blocks_come_together();
}

/// The numbers of a rule's successors are in their bounds, and so are the nodes of a goal.
pub fn steps_stay_bounded()
    ensures { StepsStayBounded }
{
    mc_state::numbers_stay_bounded();
    mc_state::nodes_are_there();
}

/// No rule applies where an instruction is unmet, but for a shape that may be shown all the same.
pub fn unmet_has_no_step()
    ensures { UnmetHasNoStep }
{
    mc_pure::contradictions_are_false();
}
