// The next line of a branch.
ghost use Rattle.std.specs.Prelude.{◌≡◌, ◌&&◌, ◌||◌, true, Some, None, IfOk, is_some, option_and_then};
ghost use Rattle.mc_lines.specs.declared.cert.line.Line.{Line as Written};
ghost use Rattle.mc_flow.specs.Valid.{IsValid};
ghost use Rattle.mc_check_line.specs.Judging.{path};
ghost use Rattle.mc_kernel.specs.Judges.{is_cut};
ghost use Rattle.mc_find_paths.specs.Next.Next.{GoesOn, HasGap, IsAtCode, stuck};
ghost use Rattle.mc_state.specs.Known.{Test, Tells};
ghost use Rattle.mc_kernel.specs.Progress.Asked.{at_code, false_or_null};
ghost use Rattle.mc_rules_steps.specs.Operands.{code_at};

use crate::next::stepping::instance;
use crate::next::unfolding::{at_node, false_or_null};
use mc_apply_steps::instructions::code_at;
use mc_base::{NoMemory, PointId};
use mc_check_line::{Branch, accessed_by};
use mc_flow::defs::Defs;
use mc_flow::{Flow, Instr};
use mc_gaps::lacking::lacking_at;
use mc_lines::cert::Line;
use mc_state::Form;
use mc_symbolic::State;
use std::alloc::Global;

/// Whether the point is a cut.
fn is_cut(cuts: &[PointId], point: PointId) -> bool
    ensures { result ≡ is_cut cuts.now point }
{
    for cut in cuts {
        if cut.0 == point.0 {
            return true;
        }
    }
    false
}

/// The line that says that the instruction lacks something, which only a chain can.
fn stuck(form: Form) -> Option<Line>
    ensures { result ≡ stuck form }
{
    match form {
        Form::Certificate => None,
        Form::Chain => Some(Line::C1),
    }
}

/// The line of an instruction that lacks nothing, or the one that unfolds what it accesses.
pub fn at_code(defs: &Defs, code: &Instr, state: &State) -> Option<Line>
    ensures { (know : Test) → Tells know state.now → result ≡ at_code know defs.now state.now code.now }
{
    if let Some(line) = instance(state, code) {
        return Some(line);
    }
    match accessed_by(state, code) {
        Some(node) => at_node(state, defs, node),
        None => None,
    }
}

/// The line that a branch asks for where it may go on by its instruction.
fn at_instruction(
    alloc: Global,
    flow: &Flow,
    defs: &Defs,
    form: Form,
    branch: &Branch,
) -> Result<Option<Line>, NoMemory>
    requires { IsValid flow.now defs.now }
    ensures gap { IfOk result (λ asked. HasGap flow.now defs.now (path branch.now) → asked ≡ stuck form) }
    ensures none { IfOk result (λ asked. (know : Test) → Tells know branch.now.state → (HasGap flow.now defs.now (path branch.now) → ⊥)
        → asked ≡ option_and_then (at_code know defs.now branch.now.state) (code_at flow.now branch.now.point)) }
{
    let Some(code) = code_at(flow, branch.point) else {
        return Ok(None);
    };
    match lacking_at(alloc, flow, defs, branch.point, &branch.state)? {
        Some(_) => Ok(stuck(form)),
        None => Ok(at_code(defs, code, &branch.state)),
    }
}

/// The line that a branch asks for. A false state ends it; then edges at null are unfolded; then an instruction that
/// lacks something ends it in a chain, and stops it in a certificate; else the instruction's own line comes, or the one
/// that unfolds what it accesses. None too on side branches, closing ones, and those that have come to a cut.
pub fn next_line(
    alloc: Global,
    flow: &Flow,
    defs: &Defs,
    form: Form,
    cuts: &[PointId],
    branch: &Branch,
) -> Result<Option<Line>, NoMemory>
    requires { IsValid flow.now defs.now }
    ensures rests { IfOk result (λ asked. (GoesOn (path branch.now) → ⊥) → asked ≡ None) }
    ensures first { IfOk result (λ asked. (know : Test) (line : Written) → Tells know branch.now.state → GoesOn (path branch.now)
        → false_or_null know branch.now.state.graph.edges ≡ Some line → asked ≡ Some line) }
    ensures at_cut { IfOk result (λ asked. (know : Test) → Tells know branch.now.state
        → false_or_null know branch.now.state.graph.edges ≡ None
        → (branch.now.moved && is_cut cuts.now branch.now.point) ≡ true → asked ≡ None) }
    ensures gap { IfOk result (λ asked. (know : Test) → Tells know branch.now.state → GoesOn (path branch.now)
        → IsAtCode know cuts.now (path branch.now) → HasGap flow.now defs.now (path branch.now) → asked ≡ stuck form) }
    ensures code { IfOk result (λ asked. (know : Test) → Tells know branch.now.state → GoesOn (path branch.now)
        → IsAtCode know cuts.now (path branch.now) → (HasGap flow.now defs.now (path branch.now) → ⊥)
        → asked ≡ option_and_then (at_code know defs.now branch.now.state) (code_at flow.now branch.now.point)) }
{
    if branch.goal.is_some() || branch.closing {
        return Ok(None);
    }
    if let Some(line) = false_or_null(&branch.state) {
        return Ok(Some(line));
    }
    if branch.moved && is_cut(cuts, branch.point) {
        return Ok(None);
    }
    at_instruction(alloc, flow, defs, form, branch)
}
