// Jumps to the states of a cut: one that ends its branch, and for each premise jumps of which it is the first unmet
// one.
ghost use Rattle.std.specs.Prelude.{[], ◌∷◌};
ghost use Rattle.mc_base.specs.Nodes.{null};
ghost use Rattle.mc_pure.specs.Examples.{node};
ghost use Rattle.mc_state.specs.Examples.{two_names, no_number};
ghost use Rattle.mc_kernel.specs.Examples.{edge};
ghost use Rattle.mc_kernel.specs.Shown.Jumps.{arrived, before_step, on_side, elsewhere, not_whole, half_known, FailsAt};
ghost use Rattle.mc_kernel.specs.Shown.Jumps.{EndsBy};

/// A cell with two names is one with one name.
pub fn example_of_jump()
    ensures { EndsBy (arrived two_names) 0 (null ∷ node 1 ∷ []) (edge 0 ∷ []) }
{
    mc_pure::derived_is_true();
}

/// Before an instruction's line stands on the branch, on a side branch, and at a point that is no cut; from a false
/// state; and to a state that the cut has not.
pub fn jumps_out_of_place()
    ensures before { FailsAt before_step 0 (null ∷ node 1 ∷ []) (edge 0 ∷ []) 1 }
    ensures side { FailsAt on_side 0 (null ∷ node 1 ∷ []) (edge 0 ∷ []) 1 }
    ensures no_cut { FailsAt elsewhere 0 (null ∷ node 1 ∷ []) (edge 0 ∷ []) 1 }
    ensures wrong { FailsAt (arrived no_number) 0 (null ∷ node 1 ∷ []) (edge 0 ∷ []) 2 }
    ensures no_state { FailsAt (arrived two_names) 5 (null ∷ node 1 ∷ []) (edge 0 ∷ []) 3 }
{
    mc_pure::derived_is_true();
}

/// An image too few and too many, null moved, a number for a pointer and the other way round, and no such node; a
/// variable whose nodes differ, and one that is not known here.
pub fn jumps_of_images()
    ensures few { FailsAt (arrived two_names) 0 (null ∷ []) (edge 0 ∷ []) 4 }
    ensures many { FailsAt (arrived two_names) 0 (null ∷ node 1 ∷ node 1 ∷ []) (edge 0 ∷ []) 4 }
    ensures moved { FailsAt (arrived two_names) 0 (node 1 ∷ node 1 ∷ []) (edge 0 ∷ []) 4 }
    ensures number { FailsAt (arrived two_names) 0 (null ∷ node 3 ∷ []) (edge 0 ∷ []) 4 }
    ensures pointer { FailsAt (arrived two_names) 4 (null ∷ node 1 ∷ []) [] 4 }
    ensures absent { FailsAt (arrived two_names) 0 (null ∷ node 9 ∷ []) (edge 0 ∷ []) 4 }
    ensures other { FailsAt (arrived two_names) 0 (null ∷ null ∷ []) (edge 0 ∷ []) 5 }
    ensures unknown { FailsAt (arrived half_known) 0 (null ∷ node 1 ∷ []) (edge 0 ∷ []) 5 }
{
    mc_pure::derived_is_true();
}

/// No edge, and one twice; an edge that is not there, and a cell for a list; an atom that is not entailed; from a
/// state that is not whole to one that is, and with an edge left.
pub fn jumps_of_parts()
    ensures few { FailsAt (arrived two_names) 0 (null ∷ node 1 ∷ []) [] 6 }
    ensures twice { FailsAt (arrived two_names) 0 (null ∷ node 1 ∷ []) (edge 0 ∷ edge 0 ∷ []) 6 }
    ensures absent { FailsAt (arrived two_names) 0 (null ∷ node 1 ∷ []) (edge 1 ∷ []) 7 }
    ensures form { FailsAt (arrived two_names) 1 (null ∷ node 1 ∷ []) (edge 0 ∷ []) 7 }
    ensures atom { FailsAt (arrived two_names) 2 (null ∷ node 1 ∷ []) (edge 0 ∷ []) 8 }
    ensures whole { FailsAt (arrived not_whole) 0 (null ∷ node 1 ∷ []) (edge 0 ∷ []) 9 }
    ensures left { FailsAt (arrived two_names) 3 (null ∷ node 1 ∷ []) [] 9 }
{
    mc_pure::derived_is_true();
}
