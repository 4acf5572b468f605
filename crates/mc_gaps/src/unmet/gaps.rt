// What an instruction lacks.
ghost use Rattle.std.specs.Prelude.{◌≡◌, option_and_then};
ghost use Rattle.mc_state.specs.Known.{Test, Tells};
ghost use Rattle.mc_state.specs.State.{var_node};
ghost use Rattle.mc_gaps.specs.Unmet.Gaps.{block_gap, field_gap, free_gap, freed_gap, empty_gap, lacking, gap_of, gap_at};

use crate::unmet::searches::{all_at_null, any_block, any_lacks_field, any_shaped, any_unfolds};
use crate::unmet::unknown::first_unknown;
use mc_base::{NULL, NodeId, PointId, StructId, VarId};
use mc_flow::defs::Def;
use mc_flow::{Flow, Instr, Operand};
use mc_rules_steps::Gap;
use mc_symbolic::State;

/// Where no block of the struct lies at the node, nor may be unfolded there.
fn block_gap(s: &State, defs: &[Def], shape: StructId, node: NodeId) -> Option<Gap>
    ensures { (know : Test) → Tells know s.now → result ≡ block_gap know defs.now shape s.now.graph.edges node }
{
    if any_shaped(s, node, shape) {
        return None;
    }
    if any_unfolds(s, defs, node) {
        return None;
    }
    Some(Gap::NoBlock(node))
}

/// And where a field of it is not known.
fn field_gap(s: &State, defs: &[Def], shape: StructId, field: u64, node: NodeId) -> Option<Gap>
    ensures { (know : Test) → Tells know s.now
        → result ≡ field_gap know defs.now shape field s.now.graph.edges node }
{
    if let Some(gap) = block_gap(s, defs, shape, node) {
        return Some(gap);
    }
    if any_lacks_field(s, node, shape, field) {
        return Some(Gap::UninitField(node, field));
    }
    None
}

/// Where the node is not null, and no block lies there, nor may be unfolded.
fn free_gap(s: &State, defs: &[Def], node: NodeId) -> Option<Gap>
    ensures { (know : Test) → Tells know s.now → result ≡ free_gap know defs.now s.now.graph.edges node }
{
    if s.are_equal(node, NULL) {
        return None;
    }
    if any_block(s, node) {
        return None;
    }
    if any_unfolds(s, defs, node) {
        return None;
    }
    Some(Gap::NoBlock(node))
}

/// The same of what is freed, where it is known.
fn freed_gap(s: &State, defs: &[Def], freed: Operand) -> Option<Gap>
    ensures { (know : Test) → Tells know s.now → result ≡ freed_gap know defs.now s.now freed }
{
    match freed {
        Operand::Var(x) => match s.var(x) {
            Some(node) => free_gap(s, defs, node),
            None => None,
        },
        Operand::Const(_) => None,
    }
}

/// What a load lacks, where its base is known.
fn load_gap(s: &State, defs: &[Def], base: VarId, shape: StructId, field: u64) -> Option<Gap>
    ensures { (know : Test) → Tells know s.now
        → result ≡ option_and_then (field_gap know defs.now shape field s.now.graph.edges) (var_node s.now base) }
{
    match s.var(base) {
        Some(node) => field_gap(s, defs, shape, field, node),
        None => None,
    }
}

/// What a store lacks, where its base is known.
fn store_gap(s: &State, defs: &[Def], base: VarId, shape: StructId) -> Option<Gap>
    ensures { (know : Test) → Tells know s.now
        → result ≡ option_and_then (block_gap know defs.now shape s.now.graph.edges) (var_node s.now base) }
{
    match s.var(base) {
        Some(node) => block_gap(s, defs, shape, node),
        None => None,
    }
}

/// Where something may be allocated.
fn empty_gap(s: &State) -> Option<Gap>
    ensures { (know : Test) → Tells know s.now → result ≡ empty_gap know s.now }
{
    if s.is_whole() && all_at_null(s) {
        None
    } else {
        Some(Gap::NotEmpty(s.is_whole()))
    }
}

/// What an instruction lacks where all that it takes is known.
fn lacking(s: &State, defs: &[Def], code: &Instr) -> Option<Gap>
    ensures { (know : Test) → Tells know s.now → result ≡ lacking know defs.now code.now s.now }
{
    match code {
        Instr::Skip(_) => None,
        Instr::Copy(_, _, _) => None,
        Instr::Undef(_, _) => None,
        Instr::Input(_, _) => None,
        Instr::Add(_, _, _, _) => None,
        Instr::Sub(_, _, _, _) => None,
        Instr::Mul(_, _, _, _) => None,
        Instr::Load(_, base, shape, field, _) => load_gap(s, defs, *base, *shape, *field),
        Instr::Store(base, shape, _, _, _) => store_gap(s, defs, *base, *shape),
        Instr::Malloc(_, _, _) => None,
        Instr::Free(freed, _) => freed_gap(s, defs, *freed),
        Instr::TestEq(_, _, _, _) => None,
        Instr::TestLe(_, _, _, _) => None,
        Instr::AssumeShape(_, _, _, _) => None,
        Instr::AssertShape(_, _, _, _) => None,
        Instr::AssertEmpty(_) => empty_gap(s),
        Instr::End => None,
        Instr::Fail => Some(Gap::Reached),
    }
}

/// What an instruction lacks.
fn gap_of(s: &State, defs: &[Def], code: &Instr) -> Option<Gap>
    ensures { (know : Test) → Tells know s.now → result ≡ gap_of know defs.now s.now code.now }
{
    match first_unknown(s, code) {
        Some(x) => Some(Gap::Uninit(x)),
        None => lacking(s, defs, code),
    }
}

/// What the instruction at a point lacks at a state: a variable that is not known, a block, a field that is not known, or
/// that nothing is allocated; or that it is reached at all. None where it lacks nothing, or a shape alone, and where the
/// state is false or there is no such point.
pub fn gap_at(flow: &Flow, defs: &[Def], p: PointId, s: &State) -> Option<Gap>
    ensures { (know : Test) → Tells know s.now → result ≡ gap_at know defs.now flow.now p s.now }
{
    if s.is_false() {
        return None;
    }
    match flow.points.as_slice().get(p.0 as usize) {
        Some(point) => gap_of(s, defs, &point.code),
        None => None,
    }
}
