// What holds of bodies of rules as edges, and of covers. Each law is what a function with no body ensures.
ghost use Rattle.std.specs.Prelude.{pos, [], ◌∷◌};
ghost use Rattle.mc_flow.specs.Heap.Heap.{IsAtAddresses};
ghost use Rattle.mc_flow.specs.Defs.Conditions.{IsDefs};
ghost use Rattle.mc_flow.specs.Defs.Examples.{defs, list_id, lenlist_id, tree_id, list_rule, blocks, two_cells, first_cell};
ghost use Rattle.mc_state.specs.declared.graph.edge.Edge.TheVariants.{Ind};
ghost use Rattle.mc_state.specs.Graph.Graph.{Edges};
ghost use Rattle.mc_pure.specs.Examples.{node};
ghost use Rattle.mc_state.specs.BodyLaws.{IsBody, IsBodyTo, BodiesAreEdges, SegBodiesAreEdges, CoverMakesPredicate, SegCoverMakesSegment};
ghost use Rattle.mc_state.specs.CoverExamples.{lone_pointer, cell_and_list, rest_list, segment_and_list, cell_and_length, fork_and_tree, other_list, shared_tree, at, entry, at_seven};
ghost use Rattle.mc_state.specs.Covers.{Cover, SegCover};
ghost use Rattle.mc_state.specs.Stands.{EdgesMeet, StandsBy};

use crate::laws::derived_is_true;
use mc_flow::defs::{example_premises, examples_fit, predicates_are_bodies, segments_join};
use mc_flow::heap::{heaps_change_one_address, parts_regroup};

/// A block and calls are the edges of a body, also where one of the calls is a segment.
pub fn bodies_are_edges()
    ensures bodies { BodiesAreEdges }
    ensures segments { SegBodiesAreEdges }
{
    parts_regroup();
}

/// The edges of a cover make the predicate, and those of a segment cover the segment.
pub fn covers_are_sound()
    ensures predicate { CoverMakesPredicate }
    ensures segment { SegCoverMakesSegment }
{
    parts_regroup();
    predicates_are_bodies();
    segments_join();
    derived_is_true();
}

/// Covers of a list by a rule and by a segment, of a list of a length, and of a tree with two
/// calls, which leaves an edge; and no cover of a list at a pointer that is not null, without edges,
/// nor of a tree at a fork both of whose pointers point to one tree.
pub fn example_covers()
    ensures by_rule { Cover defs cell_and_list list_id (at 1) [] cell_and_list.graph.edges [] }
    ensures by_segment { Cover defs segment_and_list list_id (at 1) [] segment_and_list.graph.edges [] }
    ensures with_length { Cover defs cell_and_length lenlist_id (at 1) (at 5 ∷ []) cell_and_length.graph.edges [] }
    ensures two_calls { Cover defs fork_and_tree tree_id (at 1) [] fork_and_tree.graph.edges (entry 0 other_list ∷ []) }
    ensures none { (left : Edges) → ¬ Cover defs lone_pointer list_id (at 1) [] lone_pointer.graph.edges left }
    ensures shared { (left : Edges) → ¬ Cover defs shared_tree tree_id (at 1) [] shared_tree.graph.edges left }
{
    mc_pure::derived_is_true();
}

/// Segment covers from a node to itself, of one cell, and of a segment.
pub fn example_segment_covers()
    ensures itself { SegCover defs lone_pointer list_id (at 1) [] (at 1) [] lone_pointer.graph.edges [] }
    ensures one_cell { SegCover defs cell_and_list list_id (at 1) [] (at 3) [] cell_and_list.graph.edges (entry 1 rest_list ∷ []) }
    ensures by_segment { SegCover defs segment_and_list list_id (at 1) [] (at 2) [] segment_and_list.graph.edges
        (entry 1 (Ind (node 2) list_id []) ∷ []) }
{}

/// A heap of two cells meets the premises of the laws on bodies and covers.
pub fn body_premises()
    ensures definitions { IsDefs defs }
    ensures stands { StandsBy defs at_seven [] (blocks two_cells) cell_and_list }
    ensures edges { EdgesMeet defs at_seven cell_and_list.graph.edges (blocks two_cells) }
    ensures addresses { IsAtAddresses (blocks two_cells) }
    ensures body { IsBody defs at_seven
        (node 1 ∷ node 2 ∷ node 3 ∷ []) list_rule.block list_rule.contents list_rule.calls (blocks two_cells) }
    ensures body_to { IsBodyTo defs at_seven (node 1 ∷ node 2 ∷ node 3 ∷ []) list_id (node 3)
        [] 0 list_rule.block list_rule.contents list_rule.calls (blocks first_cell) }
{
    examples_fit();
    example_premises();
    parts_regroup();
    heaps_change_one_address();
}
