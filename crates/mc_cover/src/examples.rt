// The first covers and guesses of small states, worked out by hand.
ghost use Rattle.std.specs.Prelude.{◌≡◌, true, false, pos, Some, None, [], ◌∷◌};
ghost use Rattle.mc_flow.specs.Defs.Examples.{defs, list_id, lenlist_id, tree_id};
ghost use Rattle.mc_state.specs.declared.graph.edge.Edge.TheVariants.{Ind, Seg};
ghost use Rattle.mc_pure.specs.Examples.{node};
ghost use Rattle.mc_state.specs.CoverExamples.{at, entry, other_list, rest_list, lone_pointer};
ghost use Rattle.mc_state.specs.CoverExamples.{cell_and_list, cell_and_length, fork_and_tree, shared_tree};
ghost use Rattle.mc_state.specs.Terms.{plus, zero_term};
ghost use Rattle.mc_cover.specs.Alike.{are_alike};
ghost use Rattle.mc_cover.specs.Examples.{knowing, taking, of_length, of_fork, two_ways, long_way, behind};
ghost use Rattle.mc_cover.specs.First.{first_cover, first_seg_cover};
ghost use Rattle.mc_cover.specs.Guessed.{guess};

/// An Ind is taken before a Seg; a list of a length is made with a number that no node is; and a
/// tree is made of a fork, an Ind and null, where an edge is left.
pub fn example_firsts()
    ensures ind_first { first_cover (knowing two_ways []) defs list_id (at 1) [] two_ways.graph.edges
        ≡ taking (1 ∷ []) (entry 0 long_way ∷ entry 2 behind ∷ []) }
    ensures with_length { first_cover of_length defs lenlist_id (at 1) (at 5 ∷ []) cell_and_length.graph.edges ≡ taking (0 ∷ 1 ∷ []) [] }
    ensures two_calls { first_cover of_fork defs tree_id (at 1) [] fork_and_tree.graph.edges
        ≡ taking (1 ∷ 2 ∷ []) (entry 0 other_list ∷ []) }
{}

/// There is no cover at a pointer without edges, nor of a tree at a fork both of whose pointers
/// point to one tree.
pub fn no_firsts()
    ensures pointer { first_cover (knowing lone_pointer []) defs list_id (at 1) [] lone_pointer.graph.edges ≡ None }
    ensures shared { first_cover (knowing shared_tree []) defs tree_id (at 1) [] shared_tree.graph.edges ≡ None }
{}

/// A segment from a node to itself, one of a cell, and one through the first call of a fork.
pub fn example_segments()
    ensures itself { first_seg_cover (knowing lone_pointer []) defs list_id (at 1) [] (at 1) [] lone_pointer.graph.edges ≡ taking [] [] }
    ensures one_cell { first_seg_cover (knowing cell_and_list []) defs list_id (at 1) [] (at 3)
        [] cell_and_list.graph.edges ≡ taking (0 ∷ []) (entry 1 rest_list ∷ []) }
    ensures through_left { first_seg_cover of_fork defs tree_id (at 1) [] (at 2) [] fork_and_tree.graph.edges
        ≡ taking (1 ∷ []) (entry 0 other_list ∷ entry 2 (Ind (node 2) tree_id []) ∷ []) }
{}

/// Segments from one node to one other are alike; one with another end is not, and neither is an Ind.
pub fn example_alike()
    ensures alike { are_alike (knowing two_ways []) long_way long_way ≡ true }
    ensures other_end { are_alike (knowing two_ways []) long_way (Seg (node 1) [] list_id (node 1) []) ≡ false }
    ensures ind { are_alike (knowing two_ways []) (Ind (node 1) list_id []) long_way ≡ false }
{}

/// The length of a list is one more than that of the list after its first cell, that of an edge
/// that is there, that of the stop where it is reached, and zero where nothing lies.
pub fn example_guesses()
    ensures behind { guess of_length defs lenlist_id (at 1) None cell_and_length.graph.edges ≡ plus (at 4) (pos 1) ∷ [] }
    ensures there { guess of_length defs lenlist_id (at 3) None cell_and_length.graph.edges ≡ at 4 ∷ [] }
    ensures stopped { guess of_length defs lenlist_id (at 3) (Some (at 3, at 2 ∷ [])) cell_and_length.graph.edges ≡ at 2 ∷ [] }
    ensures nothing { guess of_length defs lenlist_id (at 1) None [] ≡ zero_term ∷ [] }
{}
