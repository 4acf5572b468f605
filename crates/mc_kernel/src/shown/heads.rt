// Lines of heads: one that is read, and lines whose states are not well formed, a line for each way.
ghost use Rattle.std.specs.Prelude.{pos, None, Some, [], ◌∷◌};
ghost use Rattle.mc_base.specs.declared.plain.Atom.TheVariants.{Eq, Ne, In};
ghost use Rattle.mc_base.specs.Nodes.{null};
ghost use Rattle.mc_flow.specs.Defs.Examples.{cell_id, list_id, lenlist_id};
ghost use Rattle.mc_state.specs.declared.graph.edge.Edge.TheVariants.{Block, Ind, Seg};
ghost use Rattle.mc_pure.specs.Examples.{node};
ghost use Rattle.mc_state.specs.declared.raw_state.NodeKind.TheVariants.{Zero, Ptr};
ghost use Rattle.mc_kernel.specs.Shown.Heads.{good, good_read, IsRead, IsMalformed, with_vars, with_edge, with_written};
ghost use Rattle.mc_kernel.specs.Shown.Heads.{with_kinds, no_struct, no_pred};

/// A cell, a list of a length, a segment and three atoms.
pub fn example_of_head()
    ensures { IsRead good good_read }
{}

/// An entry too few, one too many, a pointer for a number, and no such node.
pub fn malformed_variables()
    ensures few { IsMalformed (with_vars (Some (node 2) ∷ [])) }
    ensures many { IsMalformed (with_vars (Some (node 2) ∷ Some (node 1) ∷ None ∷ [])) }
    ensures kind { IsMalformed (with_vars (Some (node 1) ∷ None ∷ [])) }
    ensures absent { IsMalformed (with_vars (Some (node 4) ∷ None ∷ [])) }
{}

/// A field too few, one too many, a pointer for a number, no such struct, and a cell at a number.
pub fn malformed_blocks()
    ensures few { IsMalformed (with_edge (Block (node 1) cell_id (Some (node 2) ∷ []))) }
    ensures many { IsMalformed (with_edge (Block (node 1) cell_id (Some (node 2) ∷ None ∷ None ∷ []))) }
    ensures kind { IsMalformed (with_edge (Block (node 1) cell_id (Some (node 3) ∷ None ∷ []))) }
    ensures absent { IsMalformed (with_edge (Block (node 1) no_struct (None ∷ None ∷ []))) }
    ensures start { IsMalformed (with_edge (Block (node 2) cell_id (None ∷ None ∷ []))) }
{}

/// An argument too few, one too many, a pointer for a number, no such predicate, and a list at a number.
pub fn malformed_lists()
    ensures few { IsMalformed (with_edge (Ind (node 3) lenlist_id [])) }
    ensures many { IsMalformed (with_edge (Ind (node 3) list_id (node 2 ∷ []))) }
    ensures kind { IsMalformed (with_edge (Ind (node 3) lenlist_id (node 1 ∷ []))) }
    ensures absent { IsMalformed (with_edge (Ind (node 3) no_pred [])) }
    ensures start { IsMalformed (with_edge (Ind (node 2) list_id [])) }
{}

/// An argument too few, an end argument too few, a pointer for a number there, and a segment from and to a number.
pub fn malformed_segments()
    ensures few { IsMalformed (with_edge (Seg (node 3) [] lenlist_id null (null ∷ []))) }
    ensures few_ends { IsMalformed (with_edge (Seg (node 3) (node 2 ∷ []) lenlist_id null [])) }
    ensures kind { IsMalformed (with_edge (Seg (node 3) (node 2 ∷ []) lenlist_id null (node 1 ∷ []))) }
    ensures start { IsMalformed (with_edge (Seg (node 2) [] list_id null [])) }
    ensures stop { IsMalformed (with_edge (Seg (node 3) [] list_id (node 2) [])) }
{}

/// No kind at all, a first kind that is not that of node 0, and a second one that is.
pub fn malformed_kinds()
    ensures none { IsMalformed (with_kinds []) }
    ensures no_zero { IsMalformed (with_kinds (Ptr ∷ [])) }
    ensures two_zeros { IsMalformed (with_kinds (Zero ∷ Zero ∷ [])) }
{}

/// An atom of no node, one of nodes of two kinds, and numbers out of their bounds.
pub fn malformed_atoms()
    ensures absent { IsMalformed (with_written (In (node 4) (pos 0) (pos 9))) }
    ensures kinds { IsMalformed (with_written (Eq (node 1) (node 2) (pos 0))) }
    ensures offset { IsMalformed (with_written (Ne (node 1) (node 3) (pos 4611686022722355201))) }
    ensures range { IsMalformed (with_written (In (node 2) (pos 0) (pos 4611686018427387905))) }
{}
