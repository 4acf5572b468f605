// Instructions, each with the points that may follow it.
ghost use Rattle.std.specs.Prelude.{◌≡◌, ◌++◌, None, option_to_list};
ghost use Rattle.mc_flow.specs.Valid.{targets};

use mc_base::{Items, PointId, PredId, StructId, VarId};

/// What an instruction works on: a variable's value or a constant. Null is the constant 0.
#[derive(Clone, Copy, Debug, PartialEq, Eq)]
pub enum Operand {
    Var(VarId),
    Const(i64),
}

/// An instruction. The last points of a form are those that it goes on to.
#[derive(Drop)]
pub enum Instr {
    /// Does nothing.
    Skip(PointId),
    /// Sets a variable to an operand.
    Copy(VarId, Operand, PointId),
    /// Makes variables undefined.
    Undef(Items<VarId>, PointId),
    /// Sets a variable to the next input.
    Input(VarId, PointId),
    /// Sets a variable to a sum, which wraps.
    Add(VarId, Operand, Operand, PointId),
    /// Sets a variable to a difference, which wraps.
    Sub(VarId, Operand, Operand, PointId),
    /// Sets a variable to a product, which wraps.
    Mul(VarId, Operand, Operand, PointId),
    /// Sets a variable to a field of the block to which another points.
    Load(VarId, VarId, StructId, u64, PointId),
    /// Sets a field of the block to which a variable points.
    Store(VarId, StructId, u64, Operand, PointId),
    /// Sets a variable to null, or to a new block whose fields are undefined.
    Malloc(VarId, StructId, PointId),
    /// Frees a block; null is let alone.
    Free(Operand, PointId),
    /// Goes to the first point where the operands are equal, else to the second.
    TestEq(Operand, Operand, PointId, PointId),
    /// Goes to the first point where the left operand is at most the right one, else to the second.
    TestLe(Operand, Operand, PointId, PointId),
    /// Gives a variable any value, with new blocks that meet the predicate there.
    AssumeShape(PredId, VarId, Items<Operand>, PointId),
    /// Faults where no part of the heap meets the predicate at the operand.
    AssertShape(PredId, Operand, Items<Operand>, PointId),
    /// Faults where something is allocated.
    AssertEmpty(PointId),
    /// Ends the run.
    End,
    /// Faults.
    Fail,
}

impl Instr {
    /// The points that may follow: none, one, or the two of a test.
    pub fn targets(&self) -> (Option<PointId>, Option<PointId>)
        ensures listed { option_to_list result.0 ++ option_to_list result.1 ≡ targets self.now }
        ensures one_first { result.0 ≡ None → result.1 ≡ None }
    {
        match self {
            Instr::End | Instr::Fail => (None, None),
            Instr::TestEq(_, _, yes, no) | Instr::TestLe(_, _, yes, no) => (Some(*yes), Some(*no)),
            Instr::Skip(next)
            | Instr::Copy(_, _, next)
            | Instr::Undef(_, next)
            | Instr::Input(_, next)
            | Instr::Add(_, _, _, next)
            | Instr::Sub(_, _, _, next)
            | Instr::Mul(_, _, _, next)
            | Instr::Load(_, _, _, _, next)
            | Instr::Store(_, _, _, _, next)
            | Instr::Malloc(_, _, next)
            | Instr::Free(_, next)
            | Instr::AssumeShape(_, _, _, next)
            | Instr::AssertShape(_, _, _, next)
            | Instr::AssertEmpty(next) => (Some(*next), None),
        }
    }
}
