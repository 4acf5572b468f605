// Laws of the flow graphs of closed programs.
ghost use Rattle.std.specs.Prelude.{ℕ};
ghost use Rattle.mc_lower_spec.specs.Graphs.{Graph};
ghost use Rattle.mc_lower_spec.specs.Lowering.{IsLowering};
ghost use Rattle.mc_semantics.specs.Resolved.Programs.{Function};
ghost use Rattle.mc_lower_laws.specs.Closed.{IsClosed, IsClosedFlow};

/// A flow graph of a program without loops, inputs and shape commands has no loop heads, gives runs nothing but answers
/// of malloc, and asserts no shape.
pub fn closed_programs_ask_for_malloc_alone()
    ensures { (g : Graph) (entry : Function) (out count : ℕ) → IsClosed g.program → IsLowering g entry out count → IsClosedFlow g.flow }
{}
