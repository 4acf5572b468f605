// Laws of the flow graphs of one program.
ghost use Rattle.mc_lower_spec.specs.Graphs.{Graph};
ghost use Rattle.mc_lower_spec.specs.Lowering.{IsLowering};
ghost use Rattle.mc_semantics.specs.Resolved.Programs.{Function};
ghost use Rattle.std.specs.Prelude.{◌≡◌, ℕ};

/// A resolved program with its structs has one flow graph at most, and the stops in it are the same.
pub fn flow_graphs_are_one()
    ensures { (g h : Graph) (entry start : Function) (out count left more : ℕ) → g.program ≡ h.program → g.flow.structs ≡ h.flow.structs
        → IsLowering g entry out count → IsLowering h start left more
        → (g.flow ≡ h.flow) × (g.stops ≡ h.stops) }
{}
