// Worked states and heaps: they meet the premises of the laws, and heaps that do not stand for a state.
ghost use Rattle.std.specs.Prelude.{◌≡◌, pos, false, Some, [], ◌∷◌};
ghost use Rattle.std.specs.List.{AllByRecursion};
ghost use Rattle.mc_base.specs.declared.ids.NodeId.{NodeId as Node};
ghost use Rattle.mc_base.specs.declared.plain.Kind.TheVariants.{Int, Ptr};
ghost use Rattle.mc_base.specs.declared.plain.Atom.TheVariants.{In};
ghost use Rattle.mc_base.specs.Atoms.{IsTrueAtom, nodes_of_atom};
ghost use Rattle.mc_base.specs.Kinds.{InKind};
ghost use Rattle.mc_base.specs.Nodes.{moved};
ghost use Rattle.mc_flow.specs.Heap.Heap.{IsAtAddresses};
ghost use Rattle.mc_flow.specs.Heap.Parts.{Star};
ghost use Rattle.mc_flow.specs.Defs.Examples.{defs, blocks, two_cells, first_cell, second_cell};
ghost use Rattle.mc_flow.specs.Defs.Values.{InKinds};
ghost use Rattle.mc_state.specs.Graph.Edges.{nodes_of};
ghost use Rattle.mc_state.specs.Graph.Graph.{Picks, edge_with};
ghost use Rattle.mc_pure.specs.Derived.{LiesIn};
ghost use Rattle.mc_pure.specs.Examples.{node};
ghost use Rattle.mc_pure.specs.Pure.{IsNode};
ghost use Rattle.mc_state.specs.Examples.{edge, front, back, list_in_parts, at_seven, seven_and_nine, back_cell};
ghost use Rattle.mc_state.specs.Examples.{raised, raised_kinds, raised_list, two_and_three, two_names, one_name};
ghost use Rattle.mc_state.specs.Examples.{both_at_seven, sevens, no_number};
ghost use Rattle.mc_state.specs.Facts.{IsFalse, AreEqual, CanMerge, IsUnnamed, merged};
ghost use Rattle.mc_pure.specs.Whole.{kinds_without};
ghost use Rattle.mc_state.specs.Fits.{NodesAscend, AreNodes, IsBounded};
ghost use Rattle.mc_state.specs.Laws.{IsInjective};
ghost use Rattle.mc_state.specs.Stands.{EdgeMeets, StandsBy, Stands};
ghost use Rattle.mc_state.specs.State.{pure_of, var_node, with_only_edges};

/// Two cells are a list in two parts; the first cell alone is none, since it points to nothing.
pub fn example_list()
    ensures bounded { IsBounded list_in_parts }
    ensures addresses { IsAtAddresses (blocks two_cells) }
    ensures stands { StandsBy defs seven_and_nine at_seven (blocks two_cells) list_in_parts }
    ensures cut { ¬ Stands defs at_seven (blocks first_cell) list_in_parts }
{
    mc_flow::heap::parts_regroup();
    mc_flow::heap::heaps_change_one_address();
    mc_flow::defs::example_premises();
    mc_flow::defs::example_segments();
    mc_flow::defs::predicates_are_bodies();
    mc_flow::defs::segments_join();
}

/// The parts of the list, taken out, put in and replaced, and what else may be added to it.
pub fn example_parts()
    ensures known { var_node list_in_parts (record { 0 = 0 }) ≡ Some (node 1) }
    ensures picks { Picks (edge 0 ∷ edge 1 ∷ []) list_in_parts.graph.edges (front ∷ back ∷ []) [] }
    ensures named { edge_with list_in_parts.graph.edges (edge 1) ≡ Some back }
    ensures part { Star (EdgeMeets defs seven_and_nine) (front ∷ []) (blocks first_cell) }
    ensures others { StandsBy defs seven_and_nine at_seven (blocks second_cell) (with_only_edges list_in_parts ((edge 1, back) ∷ [])) }
    ensures other { EdgeMeets defs seven_and_nine back_cell (blocks second_cell) }
    ensures there { AreNodes list_in_parts.kinds (nodes_of back_cell) }
    ensures numbers { InKinds (Int ∷ []) (pos 5 ∷ []) }
    ensures atoms { AllByRecursion (IsTrueAtom seven_and_nine) (In (node 1) (pos 7) (pos 7) ∷ []) }
{
    mc_flow::heap::parts_regroup();
    mc_flow::heap::heaps_change_one_address();
    mc_flow::defs::example_premises();
    mc_flow::defs::example_segments();
}

/// The same list with other nodes.
pub fn example_renaming()
    ensures fixed { raised 0 ≡ 0 }
    ensures injective { IsInjective raised list_in_parts.kinds }
    ensures kinds { AllByRecursion (λ k. InKind k.1 (two_and_three (raised k.0.0))) list_in_parts.kinds }
    ensures ascend { NodesAscend 1 raised_kinds 4 }
    ensures there { (n : Node) → IsNode list_in_parts.kinds n → IsNode raised_kinds (moved raised n) }
    ensures stands { StandsBy defs two_and_three at_seven (blocks two_cells) raised_list }
{
    mc_flow::heap::parts_regroup();
    mc_flow::defs::example_premises();
    mc_flow::defs::example_segments();
}

/// A cell with two names. Since nothing else is allocated, a heap of two cells does not stand for it.
pub fn example_merging()
    ensures bounded { IsBounded two_names }
    ensures addresses { IsAtAddresses (blocks first_cell) }
    ensures stands { StandsBy defs sevens both_at_seven (blocks first_cell) two_names }
    ensures whole { ¬ Stands defs both_at_seven (blocks two_cells) two_names }
    ensures not_whole { Stands defs both_at_seven (blocks two_cells) (record two_names { whole = false }) }
    ensures equal { AreEqual two_names (node 1) (node 2) }
    ensures can_merge { CanMerge two_names.kinds (node 1) (node 2) }
    ensures merged { merged (node 1) (node 2) two_names ≡ one_name }
    ensures unnamed { IsUnnamed (node 3) two_names }
    ensures others_there { AllByRecursion (λ a. AreNodes (kinds_without two_names.kinds (node 3)) (nodes_of_atom a)) two_names.atoms }
    ensures lies { LiesIn (pure_of two_names) Ptr (node 1) (pos 0) }
    ensures wrong { IsFalse no_number }
{
    mc_flow::heap::parts_regroup();
    mc_flow::heap::heaps_change_one_address();
    mc_flow::defs::example_premises();
}
