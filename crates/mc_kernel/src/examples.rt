// Documents of small programs.
ghost use Rattle.std.specs.Prelude.{[], ◌∷◌};
ghost use Rattle.mc_base.specs.declared.plain.FaultKind.TheVariants.{Assertion};
ghost use Rattle.mc_flow.specs.Runs.{Reaches, fault};
ghost use Rattle.mc_base.specs.Nodes.{null};
ghost use Rattle.mc_flow.specs.Defs.Examples.{defs};
ghost use Rattle.mc_flow.specs.Steps.{Step, start};
ghost use Rattle.mc_flow.specs.Valid.{IsValid};
ghost use Rattle.mc_pure.specs.Examples.{node};
ghost use Rattle.mc_state.specs.Examples.{two_names};
ghost use Rattle.mc_state.specs.RawStates.{state_of};
ghost use Rattle.mc_kernel.specs.Certificates.{IsValidCertificate, IsLastPass};
ghost use Rattle.mc_kernel.specs.Jumps.{Jumps};
ghost use Rattle.mc_kernel.specs.Reading.Documents.{IsShortChain};
ghost use Rattle.mc_kernel.specs.Examples.{at, edge, loop_flow, loop_document, list_flow, list_document, failing_flow, failing_state, failing_pass, failing_chain, failing_path, one_name_head};

/// A loop over inputs, with its certificate.
pub fn loop_is_certified()
    ensures valid { IsValid loop_flow defs }
    ensures certificate { IsValidCertificate loop_flow defs loop_document }
{
    mc_flow::defs::examples_fit();
    mc_pure::derived_is_true();
}

/// A list that is assumed and asserted, with its certificate.
pub fn list_is_certified()
    ensures valid { IsValid list_flow defs }
    ensures certificate { IsValidCertificate list_flow defs list_document }
{
    mc_flow::defs::examples_fit();
    mc_pure::derived_is_true();
}

/// A program that fails, and the last pass of a chain, which is stuck at the fault; and the chain, with its head.
pub fn failing_is_stuck()
    ensures valid { IsValid failing_flow defs }
    ensures pass { IsLastPass failing_flow defs (at 1 ∷ []) ((at 1, state_of failing_state) ∷ []) failing_pass (failing_path ∷ []) }
    ensures chain { IsShortChain failing_flow defs failing_chain (failing_path ∷ []) }
    ensures faults { Reaches (Step failing_flow defs) 3 (start failing_flow) [] (fault Assertion (record { line = 1; column = 1 })) }
{
    mc_flow::defs::examples_fit();
    mc_pure::derived_is_true();
}

/// A jump with an edge, to a state that is whole.
pub fn example_of_jump()
    ensures { Jumps two_names one_name_head (null ∷ node 1 ∷ []) (edge 0 ∷ []) }
{}
