// Laws of the flow graphs of resolved programs.
ghost use Rattle.mc_flow.specs.Valid.{IsValid};
ghost use Rattle.mc_lower_spec.specs.Graphs.{Graph};
ghost use Rattle.mc_lower_spec.specs.Lowering.{IsLowering};
ghost use Rattle.mc_semantics.specs.Resolved.Programs.{Function};
ghost use Rattle.mc_lower_laws.specs.Valid.Kinds.{IsWellMade};
ghost use Rattle.std.specs.Prelude.{ℕ};

/// A flow graph of a program whose values are of the kinds that are wanted, and whose definitions fit its structs, is valid.
pub fn lowerings_are_valid()
    ensures { (g : Graph) (entry : Function) (out count : ℕ) → IsWellMade g.flow.structs g.program
        → IsLowering g entry out count → IsValid g.flow g.program.defs }
{}
