// A small program with a fault on each branch.
ghost use Rattle.std.specs.Prelude.{[], ◌∷◌};
ghost use Rattle.mc_base.specs.declared.plain.FaultKind.TheVariants.{Null, Freed};
ghost use Rattle.mc_base.specs.Nodes.{null};
ghost use Rattle.mc_flow.specs.Runs.{Reaches, fault};
ghost use Rattle.mc_flow.specs.Heap.Choices.{malloc};
ghost use Rattle.mc_flow.specs.Defs.Examples.{defs};
ghost use Rattle.mc_flow.specs.Steps.{Step, start};
ghost use Rattle.mc_flow.specs.Valid.{IsValid};
ghost use Rattle.mc_pure.specs.Examples.{node};
ghost use Rattle.mc_rules_steps.specs.declared.gap.Gap.TheVariants.{NoBlock};
ghost use Rattle.mc_rules_steps.specs.Unmet.{IsUnmet};
ghost use Rattle.mc_kernel.specs.Examples.{at};
ghost use Rattle.mc_exact.specs.Marks.{AreMarked};
ghost use Rattle.mc_exact.specs.Real.{IsShort};
ghost use Rattle.mc_exact.specs.Tracks.{AsksMallocAlone, IsExactTrack};
ghost use Rattle.mc_exact.specs.Examples.{freed_flow, null_state, freed_state, null_track, freed_track, freed_chain, freed_alarms};

/// A program that reads what it freed: it lacks a block on both branches, and each answer of malloc leads to a fault. In its
/// chain both are marked.
pub fn freed_is_read()
    ensures valid { IsValid freed_flow defs }
    ensures short { IsShort freed_flow }
    ensures asks { AsksMallocAlone freed_flow }
    ensures null_track { IsExactTrack freed_flow null_track }
    ensures null_unmet { IsUnmet freed_flow defs (at 2) null_state (NoBlock null) }
    ensures null_faults { Reaches (Step freed_flow defs) 3 (start freed_flow) (malloc 0 ∷ []) (fault Null (record { line = 1; column = 1 })) }
    ensures freed_track { IsExactTrack freed_flow freed_track }
    ensures freed_unmet { IsUnmet freed_flow defs (at 2) freed_state (NoBlock (node 1)) }
    ensures freed_faults { Reaches (Step freed_flow defs) 3 (start freed_flow) (malloc 1 ∷ []) (fault Freed (record { line = 1; column = 1 })) }
    ensures marked { AreMarked freed_flow defs freed_chain freed_alarms }
{
    mc_flow::defs::examples_fit();
    mc_flow::heap::heaps_change_one_address();
    mc_pure::derived_is_true();
}
