// The node that an instruction accesses.
ghost use Rattle.std.specs.Prelude.{◌≡◌, Some};
ghost use Rattle.std.specs.Option.{option_copied};
ghost use Rattle.mc_check_line.specs.Judging.{path};
ghost use Rattle.mc_kernel.specs.Instances.{accessed, accessed_by};
ghost use Rattle.mc_rules_steps.specs.Operands.{code_at, operand_node};

use crate::Branch;
use mc_apply_steps::step::{node_of, read};
use mc_base::{NodeId, PointId};
use mc_flow::{Flow, Instr, Operand};
use mc_symbolic::State;

/// The node of an operand, where it is known.
fn operand_node(s: &State, o: Operand) -> Option<NodeId>
    ensures { result ≡ operand_node s.now o }
{
    match read(s, o) {
        Some(value) => Some(node_of(s, &value)),
        None => None,
    }
}

/// The node that an instruction accesses, where it is known.
pub fn accessed_by(s: &State, code: &Instr) -> Option<NodeId>
    ensures { result ≡ accessed_by s.now (Some code.now) }
{
    match code {
        Instr::Load(_, base, _, _, _) => s.var(*base),
        Instr::Store(base, _, _, _, _) => s.var(*base),
        Instr::Free(freed, _) => operand_node(s, *freed),
        Instr::Skip(_) | Instr::Copy(_, _, _) | Instr::Undef(_, _) | Instr::Input(_, _) => None,
        Instr::Add(_, _, _, _) | Instr::Sub(_, _, _, _) | Instr::Mul(_, _, _, _) => None,
        Instr::Malloc(_, _, _) | Instr::TestEq(_, _, _, _) | Instr::TestLe(_, _, _, _) => None,
        Instr::AssumeShape(_, _, _, _) | Instr::AssertShape(_, _, _, _) => None,
        Instr::AssertEmpty(_) | Instr::End | Instr::Fail => None,
    }
}

/// The instruction at a point.
fn code_at(flow: &Flow, point: PointId) -> Option<&Instr>
    ensures { option_copied result ≡ code_at flow.now point }
{
    match flow.points.as_slice().get(point.0 as usize) {
        Some(there) => Some(&there.code),
        None => None,
    }
}

/// The node that the instruction at a branch's point accesses, where it is known and the branch is no side branch.
pub fn accessed(flow: &Flow, branch: &Branch) -> Option<NodeId>
    ensures { result ≡ accessed flow.now (path branch.now) }
{
    match &branch.goal {
        Some(_) => None,
        None => match code_at(flow, branch.point) {
            Some(code) => accessed_by(&branch.state, code),
            None => None,
        },
    }
}
