// Laws of runs.
ghost use Rattle.mc_flow.specs.declared.defs.rules.Def.{Def};
ghost use Rattle.mc_flow.specs.declared.graph.Flow.{Flow};
ghost use Rattle.mc_flow.specs.Steps as graph;
ghost use Rattle.mc_semantics.specs.Configs.{Program};
ghost use Rattle.mc_semantics.specs.Steps.{Step};
ghost use Rattle.mc_semantics.specs.Waiting.Laws.{ComesToItsEnd, ComesToOneEnd, FlowsStepEndOrWait, ProgramsStepEndOrWait, ReachesItsEnd};
ghost use Rattle.mc_semantics.specs.Waiting.Runs.{IsDetermined};
ghost use Rattle.std.specs.Prelude.{List};

use crate::{steps_are_determined, values_are_determined};

/// Wherever the run of a well typed program has come to, with whatever choices left, it makes a step, has ended, or
/// waits for a choice, which is missing or not allowed: it is exactly one of the three.
pub fn programs_step_end_or_wait()
    ensures { ProgramsStepEndOrWait }
{
    steps_are_determined();
    values_are_determined();
}

/// The same for the runs of a valid flow graph.
pub fn flows_step_end_or_wait()
    ensures { FlowsStepEndOrWait }
{}

/// The run of a program comes to one end at most, in one number of steps. Telling of an end takes one look more than
/// there are steps.
pub fn programs_come_to_one_end()
    ensures once { (p : Program) → ComesToOneEnd (Step p) }
    ensures reaches { (p : Program) → ReachesItsEnd (Step p) }
    ensures reached { (p : Program) → ComesToItsEnd (Step p) }
{
    steps_are_determined();
}

/// The same for flow graphs, whose steps are determined.
pub fn flows_come_to_one_end()
    ensures determined { (flow : Flow) (defs : List Def) → IsDetermined (graph.Step flow defs) }
    ensures once { (flow : Flow) (defs : List Def) → ComesToOneEnd (graph.Step flow defs) }
    ensures reaches { (flow : Flow) (defs : List Def) → ReachesItsEnd (graph.Step flow defs) }
    ensures reached { (flow : Flow) (defs : List Def) → ComesToItsEnd (graph.Step flow defs) }
{}
