// What holds of judged rules of instructions. Each law is what a function with no body ensures.
ghost use Rattle.mc_rules_steps.specs.JudgedLaws.{StepsAreJudged, StepsAreOne, StepsAreDecided, FieldsAreThere};
ghost use Rattle.mc_rules_steps.specs.JudgedLaws.{CausesAreOne, LeastRangeIsOne, LeastRangeHasNumber, LeastRangeIsOfInts, StepsAreWellMade};
ghost use Rattle.mc_rules_steps.specs.JudgedLaws.{OperandsKeepSound, OperandsTellNothing, RangesSuffice};

/// Each rule is judged by its instances: it has one list of successors, or a first unmet premise and no instance.
pub fn steps_are_judged()
    ensures judged { StepsAreJudged }
    ensures once { StepsAreOne }
    ensures decided { StepsAreDecided }
{
    mc_pure::contradictions_are_false();
    mc_state::numbers_stay_bounded();
    mc_state::nodes_are_there();
}

/// In a state that fits, a block of a struct has each field of the struct.
pub fn fields_are_there()
    ensures { FieldsAreThere }
{}

/// An instruction is unmet for one cause.
pub fn causes_are_one()
    ensures { CausesAreOne }
{}

/// Two least ranges of a node are one. It has a number, and ints alone where the node is of kind Int.
pub fn least_ranges_are_known()
    ensures once { LeastRangeIsOne }
    ensures number { LeastRangeHasNumber }
    ensures ints { LeastRangeIsOfInts }
{}

/// What a rule makes of a well-made state is well made, and the goal of a side branch fits the definitions.
pub fn steps_are_well_made()
    ensures { StepsAreWellMade }
{
    mc_state::numbers_stay_bounded();
    mc_state::nodes_are_there();
}

/// The nodes of operands make no state false, and nothing more is entailed of the nodes before; so ranges that are the
/// least at states that are not false are the ones that instructions ask for.
pub fn operands_tell_nothing()
    ensures sound { OperandsKeepSound }
    ensures told { OperandsTellNothing }
    ensures ranges { RangesSuffice }
{
    mc_state::numbers_stay_bounded();
    mc_state::nodes_are_there();
}
