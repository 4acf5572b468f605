// Shapes that are assumed and asserted, and ends of runs.
ghost use Rattle.std.specs.Prelude.{◌≡◌, ◌∷◌, [], Some, None, IfOk, OnOk};
ghost use Rattle.mc_flow.specs.declared.instr.Instr.TheVariants.{AssertEmpty, End};
ghost use Rattle.mc_state.specs.Known.{Test, Tells};
ghost use Rattle.mc_rules_steps.specs.Judges.{emptying, ending, has_none};
ghost use Rattle.mc_apply_steps.specs.Step.Stepped.{Steps};

use crate::step::moves::moved_to;
use crate::step::{Refused, Stepped};
use mc_base::PointId;
use mc_symbolic::changes::State;

/// S17: an End ends the branch.
pub fn end(s: State) -> Result<Stepped, Refused>
    ensures { (know : Test) → Tells know s → Steps (ending know (Some End) s) s result }
{
    if s.is_false() {
        return Err(Refused::Premise(2, s));
    }
    Ok(Stepped::Ended)
}

/// Whether there is no edge.
fn has_none(s: &State) -> bool
    ensures { result ≡ has_none s.now.graph.edges }
{
    match s.edges().first() {
        Some(_) => false,
        None => true,
    }
}

/// S18: an AssertEmpty goes on where the edges are all that is allocated, and there is none.
pub fn assert_empty(s: State, q: PointId) -> Result<Stepped, Refused>
    ensures { (know : Test) → Tells know s → Steps (emptying know (Some (AssertEmpty q)) s) s result }
{
    if s.is_false() {
        return Err(Refused::Premise(2, s));
    }
    if !s.is_whole() {
        return Err(Refused::Premise(3, s));
    }
    if !has_none(&s) {
        return Err(Refused::Premise(4, s));
    }
    Ok(moved_to(q, s))
}
