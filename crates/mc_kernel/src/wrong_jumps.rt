// Jumps that are wrong, and what they would prove.
ghost use Rattle.std.specs.Prelude.{◌↔◌, List};
ghost use Rattle.mc_base.specs.declared.ids.EdgeId.{EdgeId as Edge};
ghost use Rattle.mc_base.specs.declared.ids.NodeId.{NodeId as Node};
ghost use Rattle.mc_flow.specs.Defs.Examples.{defs};
ghost use Rattle.mc_state.specs.Graph.Graph.{Picks};
ghost use Rattle.mc_kernel.specs.Jumps.{Jumps};
ghost use Rattle.mc_state.specs.State.{State};
ghost use Rattle.mc_kernel.specs.Certificates.{IsValidCertificate};
ghost use Rattle.mc_kernel.specs.Examples.{loop_flow, failing_flow};
ghost use Rattle.mc_kernel.specs.JumpLaws.{IsLawOfJumps};
ghost use Rattle.mc_kernel.specs.WrongJumps.{JumpsBy, AreThere, LeavesNone, LeavesSome, IsCertificateAtOnce, failing_document, uncut_document};

/// A jump names each edge once, and all of them where the state is whole; one that takes one edge for two,
/// or leaves an edge there, is not sound.
pub fn edges_are_taken_once()
    ensures right { (s t : State) (images : List Node) (edges : List Edge)
        → JumpsBy Picks LeavesNone s t images edges ↔ Jumps s t images edges }
    ensures distinct { ¬ IsLawOfJumps (JumpsBy AreThere LeavesNone) }
    ensures each { ¬ IsLawOfJumps (JumpsBy Picks LeavesSome) }
{
    mc_state::example_merging();
    mc_state::nothing_is_allocated();
}

/// Where a branch may jump before an instruction's line stands on it, a program that fails has a certificate.
/// `failing_is_stuck` shows its fault.
pub fn jumps_come_after_steps()
    ensures { IsCertificateAtOnce failing_flow defs failing_document }
{
    mc_pure::derived_is_true();
}

/// A document in which the head of a loop is no cut is no valid certificate.
pub fn loop_heads_are_cuts()
    ensures { ¬ IsValidCertificate loop_flow defs uncut_document }
{}
