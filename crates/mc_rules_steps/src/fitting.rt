// What instructions take fits well-made states. Each law is what a function with no body ensures.
ghost use Rattle.mc_rules_steps.specs.Sums.{sum, difference, product};
ghost use Rattle.mc_rules_steps.specs.Fitting.{InstructionsFit, OperandFits, OperandsFit, ConstantsFit};
ghost use Rattle.mc_rules_steps.specs.Fitting.{EndsAreLeast, FoundEdgesAreThere, FoundFieldsAreThere, FreedMayBeWritten};

/// Each instruction of a valid flow graph is one of a program for which the state is well made.
pub fn instructions_fit()
    ensures { InstructionsFit }
{}

/// The nodes of operands can be put into well-made states, which stay well made.
pub fn operands_fit()
    ensures one { OperandFits }
    ensures many { OperandsFit }
    ensures constants { ConstantsFit }
{
    mc_state::numbers_stay_bounded();
    mc_state::nodes_are_there();
}

/// Edges that are found are there, with the nodes of their fields, and what is known of a freed block may be written.
pub fn blocks_are_there()
    ensures edges { FoundEdgesAreThere }
    ensures fields { FoundFieldsAreThere }
    ensures freed { FreedMayBeWritten }
{}

/// The ends of the results of two ranges are those of their least range, where that lies in `int`.
pub fn results_are_ranged()
    ensures sums { EndsAreLeast sum }
    ensures differences { EndsAreLeast difference }
    ensures products { EndsAreLeast product }
{}
