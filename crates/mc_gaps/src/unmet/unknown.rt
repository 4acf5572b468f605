// Operands that are variables without a node.
ghost use Rattle.std.specs.Prelude.{◌≡◌, ◌∷◌, []};
ghost use Rattle.mc_rules_steps.specs.Unmet.{taken};
ghost use Rattle.mc_gaps.specs.Unmet.Gaps.{first_unknown};

use mc_base::VarId;
use mc_flow::{Instr, Operand};
use mc_symbolic::State;

/// A variable, if it has no node.
fn unknown_variable(s: &State, x: VarId) -> Option<VarId>
    ensures { result ≡ first_unknown s.now (Operand.Var x ∷ []) }
{
    match s.var(x) {
        Some(_) => None,
        None => Some(x),
    }
}

/// An operand, if it is a variable without a node.
fn unknown_operand(s: &State, operand: Operand) -> Option<VarId>
    ensures { result ≡ first_unknown s.now (operand ∷ []) }
{
    match operand {
        Operand::Var(x) => unknown_variable(s, x),
        Operand::Const(_) => None,
    }
}

/// The first of two operands that is one.
fn unknown_of_two(s: &State, first: Operand, second: Operand) -> Option<VarId>
    ensures { result ≡ first_unknown s.now (first ∷ second ∷ []) }
{
    match unknown_operand(s, first) {
        Some(x) => Some(x),
        None => unknown_operand(s, second),
    }
}

/// The first of a list that is one.
fn unknown_of(s: &State, operands: &[Operand]) -> Option<VarId>
    ensures { result ≡ first_unknown s.now operands.now }
{
    for operand in operands {
        if let Some(x) = unknown_operand(s, *operand) {
            return Some(x);
        }
    }
    None
}

/// The first of an operand and a list that is one.
fn unknown_of_more(s: &State, first: Operand, others: &[Operand]) -> Option<VarId>
    ensures { result ≡ first_unknown s.now (first ∷ others.now) }
{
    match unknown_operand(s, first) {
        Some(x) => Some(x),
        None => unknown_of(s, others),
    }
}

/// The first variable without a node of those that an instruction takes.
pub fn first_unknown(s: &State, code: &Instr) -> Option<VarId>
    ensures { result ≡ first_unknown s.now (taken code.now) }
{
    match code {
        Instr::Skip(_) => None,
        Instr::Copy(_, from, _) => unknown_operand(s, *from),
        Instr::Undef(_, _) => None,
        Instr::Input(_, _) => None,
        Instr::Add(_, left, right, _) => unknown_of_two(s, *left, *right),
        Instr::Sub(_, left, right, _) => unknown_of_two(s, *left, *right),
        Instr::Mul(_, left, right, _) => unknown_of_two(s, *left, *right),
        Instr::Load(_, base, _, _, _) => unknown_variable(s, *base),
        Instr::Store(base, _, _, from, _) => unknown_of_two(s, *from, Operand::Var(*base)),
        Instr::Malloc(_, _, _) => None,
        Instr::Free(freed, _) => unknown_operand(s, *freed),
        Instr::TestEq(left, right, _, _) => unknown_of_two(s, *left, *right),
        Instr::TestLe(left, right, _, _) => unknown_of_two(s, *left, *right),
        Instr::AssumeShape(_, _, args, _) => unknown_of(s, args.as_slice()),
        Instr::AssertShape(_, at, args, _) => unknown_of_more(s, *at, args.as_slice()),
        Instr::AssertEmpty(_) => None,
        Instr::End => None,
        Instr::Fail => None,
    }
}
