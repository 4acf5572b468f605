// Laws of the lengths of flow graphs.
ghost use Rattle.mc_lower_spec.specs.Length.Lengths.{IsFalling, IsSoMany, IsTable, stretch_all};
ghost use Rattle.mc_lower_spec.specs.Graphs.{Graph};
ghost use Rattle.mc_lower_spec.specs.Lowering.{IsLowering};
ghost use Rattle.mc_semantics.specs.Resolved.Programs.{Function};
ghost use Rattle.std.specs.Prelude.{◌+◌, ℕ, suc, [], List, length};

/// Each flow graph of a program has as many points as are counted.
pub fn flow_graphs_are_so_long()
    ensures { (g : Graph) (table : List ℕ) (entry : Function) (out count n : ℕ) → IsTable table g.program.functions
        → IsLowering g entry out count → IsFalling entry n
        → IsSoMany (suc (suc (stretch_all table [] [] entry.body + n))) (length g.flow.points) }
{}
