// Small heaps on which predicates hold or do not, and which meet the premises of the laws.
ghost use Rattle.std.specs.Prelude.{ℤ, pos, [], ◌∷◌};
ghost use Rattle.mc_flow.specs.Heap.Heap.{IsAtAddresses};
ghost use Rattle.mc_flow.specs.Heap.Parts.{Split};
ghost use Rattle.mc_flow.specs.Defs.Conditions.{DefsFit};
ghost use Rattle.mc_flow.specs.Defs.Meaning.{BodyMeets, SatAt, Sat, SegAt, Seg};
ghost use Rattle.mc_flow.specs.Defs.Examples.{structs, defs, list_id, lenlist_id, tree_id, blocks, two_cells, first_cell, second_cell, two_forks, shared_fork};

/// The examples' definitions fit their structs.
pub fn examples_fit()
    ensures { DefsFit structs defs }
{}

/// The empty list, a list of two cells, its length, a tree, and a shared fork, which is none.
pub fn example_predicates()
    ensures empty_list { Sat defs list_id (pos 0) [] (blocks []) }
    ensures two_cells { Sat defs list_id (pos 7) [] (blocks two_cells) }
    ensures length_two { Sat defs lenlist_id (pos 7) (pos 2 ∷ []) (blocks two_cells) }
    ensures no_length_three { ¬ Sat defs lenlist_id (pos 7) (pos 3 ∷ []) (blocks two_cells) }
    ensures tree { Sat defs tree_id (pos 7) [] (blocks two_forks) }
    ensures no_tree { ¬ Sat defs tree_id (pos 7) [] (blocks shared_fork) }
{}

/// A segment of one cell, with a whole number as argument and without, and from a value to itself.
pub fn example_segments()
    ensures one_cell { Seg defs list_id (pos 7) [] (pos 9) [] (blocks first_cell) }
    ensures one_less { Seg defs lenlist_id (pos 7) (pos 2 ∷ []) (pos 9) (pos 1 ∷ []) (blocks first_cell) }
    ensures itself { (value : ℤ) → Seg defs list_id value [] value [] (blocks []) }
{}

/// The premises of the laws, where they are not among the other examples.
pub fn example_premises()
    ensures split { Split (blocks two_cells) (blocks first_cell) (blocks second_cell) }
    ensures at_end { Sat defs list_id (pos 9) [] (blocks second_cell) }
    ensures to_null { Seg defs list_id (pos 9) [] (pos 0) [] (blocks second_cell) }
    ensures body { BodyMeets (Sat defs) defs list_id (pos 7) [] (blocks two_cells) }
    ensures height { SatAt defs 1 list_id (pos 0) [] (blocks []) }
    ensures segment_height { SegAt defs list_id (pos 9) [] 1 (pos 7) [] (blocks first_cell) }
    ensures addresses { IsAtAddresses (blocks []) }
{}
