// The line of an instruction.
ghost use Rattle.std.specs.Prelude.{◌≡◌, option_and_then};
ghost use Rattle.std.specs.List.{list_any};
ghost use Rattle.mc_state.specs.Known.{Test, Tells};
ghost use Rattle.mc_kernel.specs.Progress.Asked.{at_block, freed_node, freeing, instance};
ghost use Rattle.mc_rules_steps.specs.Judges.{is_block, is_block_at, is_shaped_at};
ghost use Rattle.mc_state.specs.State.{var_node};

use mc_base::{EdgeId, NULL, NodeId, StructId, VarId};
use mc_flow::{Instr, Operand};
use mc_lines::cert::Line;
use mc_state::InstrRule;
use mc_state::graph::Edge;
use mc_symbolic::State;

/// Whether an edge is a block of the struct at a node that is equal.
fn is_shaped_at(state: &State, node: NodeId, shape: StructId, edge: &(EdgeId, Edge)) -> bool
    ensures { (know : Test) → Tells know state.now → result ≡ is_shaped_at know node shape edge.now }
{
    edge.1.has_shape(shape) && state.are_equal(node, edge.1.start())
}

/// Whether a block of the struct lies at a node that is equal.
fn has_shaped(state: &State, node: NodeId, shape: StructId) -> bool
    ensures { (know : Test) → Tells know state.now → result ≡ list_any (is_shaped_at know node shape) state.now.graph.edges }
{
    for edge in state.edges() {
        if is_shaped_at(state, node, shape, edge) {
            return true;
        }
    }
    false
}

/// Whether an edge is a block.
fn is_block(edge: &Edge) -> bool
    ensures { result ≡ is_block edge.now }
{
    match edge {
        Edge::Block { .. } => true,
        Edge::Ind { .. } => false,
        Edge::Seg { .. } => false,
    }
}

/// Whether an edge is a block at a node that is equal.
fn is_block_at(state: &State, node: NodeId, edge: &(EdgeId, Edge)) -> bool
    ensures { (know : Test) → Tells know state.now → result ≡ is_block_at know node edge.now }
{
    is_block(&edge.1) && state.are_equal(node, edge.1.start())
}

/// Whether a block lies at a node that is equal.
fn has_block(state: &State, node: NodeId) -> bool
    ensures { (know : Test) → Tells know state.now → result ≡ list_any (is_block_at know node) state.now.graph.edges }
{
    for edge in state.edges() {
        if is_block_at(state, node, edge) {
            return true;
        }
    }
    false
}

/// The line, where the block is there.
fn at_block(state: &State, base: VarId, shape: StructId, line: Line) -> Option<Line>
    ensures { (know : Test) → Tells know state.now
        → result ≡ option_and_then (at_block know shape line state.now.graph.edges) (var_node state.now base) }
{
    match state.var(base) {
        Some(node) => {
            if has_shaped(state, node, shape) {
                Some(line)
            } else {
                None
            }
        }
        None => None,
    }
}

/// The node of what is freed, where it is known: of constants, 0 alone is a pointer.
fn freed_node(state: &State, freed: Operand) -> Option<NodeId>
    ensures { result ≡ freed_node state.now freed }
{
    match freed {
        Operand::Var(x) => state.var(x),
        Operand::Const(0) => Some(NULL),
        Operand::Const(_) => None,
    }
}

/// The line that frees null, or a block that is there.
fn freeing(state: &State, node: NodeId) -> Option<Line>
    ensures { (know : Test) → Tells know state.now → result ≡ freeing know state.now.graph.edges node }
{
    if state.are_equal(node, NULL) {
        return Some(Line::Step(InstrRule::S11));
    }
    if has_block(state, node) {
        Some(Line::Step(InstrRule::S12))
    } else {
        None
    }
}

/// The same of an operand, where its node is known.
fn freeing_at(state: &State, freed: Operand) -> Option<Line>
    ensures { (know : Test) → Tells know state.now
        → result ≡ option_and_then (freeing know state.now.graph.edges) (freed_node state.now freed) }
{
    match freed_node(state, freed) {
        Some(node) => freeing(state, node),
        None => None,
    }
}

/// The line of an instruction that lacks nothing at a state, where it is an instance: at an access, where the block is
/// there.
pub fn instance(state: &State, code: &Instr) -> Option<Line>
    ensures { (know : Test) → Tells know state.now → result ≡ instance know state.now code.now }
{
    match code {
        Instr::Skip(_) => Some(Line::Step(InstrRule::S1)),
        Instr::Copy(_, _, _) => Some(Line::Step(InstrRule::S2)),
        Instr::Undef(_, _) => Some(Line::Step(InstrRule::S3)),
        Instr::Input(_, _) => Some(Line::Step(InstrRule::S4)),
        Instr::Add(_, _, _, _) => Some(Line::Step(InstrRule::S5)),
        Instr::Sub(_, _, _, _) => Some(Line::Step(InstrRule::S6)),
        Instr::Mul(_, _, _, _) => Some(Line::Step(InstrRule::S7)),
        Instr::Load(_, base, shape, _, _) => at_block(
            state,
            *base,
            *shape,
            Line::Step(InstrRule::S8),
        ),
        Instr::Store(base, shape, _, _, _) => at_block(
            state,
            *base,
            *shape,
            Line::Step(InstrRule::S9),
        ),
        Instr::Malloc(_, _, _) => Some(Line::Step(InstrRule::S10)),
        Instr::Free(freed, _) => freeing_at(state, *freed),
        Instr::TestEq(_, _, _, _) => Some(Line::Step(InstrRule::S13)),
        Instr::TestLe(_, _, _, _) => Some(Line::Step(InstrRule::S14)),
        Instr::AssumeShape(_, _, _, _) => Some(Line::Step(InstrRule::S15)),
        Instr::AssertShape(_, _, _, _) => Some(Line::Step(InstrRule::S16)),
        Instr::AssertEmpty(_) => Some(Line::Step(InstrRule::S18)),
        Instr::End => Some(Line::Step(InstrRule::S17)),
        Instr::Fail => None,
    }
}
