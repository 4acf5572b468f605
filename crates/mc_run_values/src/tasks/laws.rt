// Laws of the moves before a step.
ghost use Rattle.mc_semantics.specs.Resolved.Configs.{Tasks, Values};
ghost use Rattle.mc_semantics.specs.Resolved.Moves.{Arrives};
ghost use Rattle.std.specs.Prelude.{◌≡◌};

/// A run of moves ends, whatever is left to do, and comes to one state alone.
pub fn moves_end()
    ensures ends { (values : Values) (tasks : Tasks)
        → (later : Values) × (ready : Tasks) × Arrives values tasks later ready }
    ensures once { (values later other : Values) (tasks ready same : Tasks)
        → Arrives values tasks later ready → Arrives values tasks other same → (later ≡ other) × (ready ≡ same) }
{}
