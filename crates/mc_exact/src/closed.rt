// What flow graphs ask for.
ghost use Rattle.std.specs.Prelude.{◌↔◌, IsTrue};
ghost use Rattle.mc_exact.specs.Tracks.{IsClosed, AsksMallocAlone};

use mc_flow::{Flow, Instr};

/// Whether a run is given nothing at the instruction but an answer of malloc, and no shape is asserted.
fn is_closed(code: &Instr) -> bool
    ensures { IsTrue result ↔ IsClosed code.now }
{
    match code {
        Instr::Input(_, _) | Instr::AssumeShape(_, _, _, _) | Instr::AssertShape(_, _, _, _) => {
            false
        }
        Instr::Skip(_) | Instr::Copy(_, _, _) | Instr::Undef(_, _) => true,
        Instr::Add(_, _, _, _) | Instr::Sub(_, _, _, _) | Instr::Mul(_, _, _, _) => true,
        Instr::Load(_, _, _, _, _) | Instr::Store(_, _, _, _, _) => true,
        Instr::Malloc(_, _, _) | Instr::Free(_, _) => true,
        Instr::TestEq(_, _, _, _) | Instr::TestLe(_, _, _, _) => true,
        Instr::AssertEmpty(_) | Instr::End | Instr::Fail => true,
    }
}

/// Whether runs of a flow graph are given nothing but answers of malloc, and no shape is asserted.
pub fn asks_malloc_alone(flow: &Flow) -> bool
    ensures { IsTrue result ↔ AsksMallocAlone flow.now }
{
    flow.points
        .as_slice()
        .iter()
        .all(|point| is_closed(&point.code))
}
