// What the parts of a body give together. Each law is what a function with no body ensures.
ghost use Rattle.mc_c_syntax.specs.Ast.Trees.{FunctionTree};
ghost use Rattle.mc_c_types.specs.Tables.{Tables};
ghost use Rattle.mc_c_walk.specs.Gives.{GivesCalls, GivesFaults, GivesUses};

/// The faults of a body are those of its parts, in their order.
pub fn visits_give_faults()
    ensures { (t : Tables) (f : FunctionTree) → GivesFaults t f }
{}

/// The calls of a body are those of its parts, in their order.
pub fn visits_give_calls()
    ensures { (t : Tables) (f : FunctionTree) → GivesCalls t f }
{}

/// The shape commands of a body are those of its parts, in their order.
pub fn visits_give_uses()
    ensures { (t : Tables) (f : FunctionTree) → GivesUses t f }
{}
