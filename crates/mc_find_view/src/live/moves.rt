// What instructions read and write.
use mc_base::VarId;
use mc_flow::{Instr, Operand};

/// The variable that an instruction sets, but for an Undef.
pub fn set_variable(code: &Instr) -> Option<VarId> {
    match code {
        Instr::Copy(x, _, _) => Some(*x),
        Instr::Input(x, _) => Some(*x),
        Instr::Add(x, _, _, _) => Some(*x),
        Instr::Sub(x, _, _, _) => Some(*x),
        Instr::Mul(x, _, _, _) => Some(*x),
        Instr::Load(x, _, _, _, _) => Some(*x),
        Instr::Malloc(x, _, _) => Some(*x),
        Instr::AssumeShape(_, x, _, _) => Some(*x),
        _ => None,
    }
}

/// The two operands of an instruction that has two.
pub fn two_operands(code: &Instr) -> Option<(Operand, Operand)> {
    match code {
        Instr::Add(_, a, b, _) => Some((*a, *b)),
        Instr::Sub(_, a, b, _) => Some((*a, *b)),
        Instr::Mul(_, a, b, _) => Some((*a, *b)),
        Instr::TestEq(a, b, _, _) => Some((*a, *b)),
        Instr::TestLe(a, b, _, _) => Some((*a, *b)),
        Instr::Store(base, _, _, from, _) => Some((*from, Operand::Var(*base))),
        _ => None,
    }
}
