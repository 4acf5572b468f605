// Joins that have come some way.
ghost use Rattle.std.specs.Prelude.{◌≡◌, ◌++◌, ◌∷◌, [], IfOk, OnOk, Some, None, is_some, find};
ghost use Rattle.std.specs.Option.{option_copied};
ghost use Rattle.mc_cover.specs.Search.Setting.{free_edges as edges_left};
ghost use Rattle.mc_joins.specs.Joinings.{begun, half, is_closed, edge_at, has_edge, next_pair, free_edges, same_side, same_pair};
ghost use Rattle.mc_replay.specs.Good.{AreGood};
ghost use Rattle.mc_replay.specs.Named.{IsGood};
ghost use Rattle.mc_replay.specs.Joined.{seen, seen_half, is_this};

use crate::edges::{edge_from, not_foldable};
use crate::made::put_known;
use crate::pairs::{Pair, is_same_pair, is_same_side, of_side};
use mc_base::{EdgeId, NULL, NoMemory};
use mc_state::Side;
use mc_state::graph::Edge;
use mc_symbolic::State;
use std::alloc::Global;

/// One of the two states, with the nodes that were named in it, and the edges that steps have used.
#[derive(Drop)]
pub struct Half {
    pub state: State,
    pub used: Vec<EdgeId>,
}

/// A join that has come some way: its pairs, of which each is the node of the result with its place as number; the edges
/// of the result; and the pairs at which a side's edges do not count any more, the last one first.
#[derive(Drop)]
pub struct Joining {
    pub left: Half,
    pub right: Half,
    pub pairs: Vec<Pair>,
    pub edges: Vec<Edge>,
    pub closed: Vec<(Side, Pair)>,
}

/// A state of which no edge is used.
fn unused(alloc: Global, state: &State) -> Result<Half, NoMemory>
    ensures state { IfOk result (λ h. h.state ≡ state.now) }
    ensures used { IfOk result (λ h. h.used.items ≡ []) }
{
    Ok(Half {
        state: state.copy(alloc)?,
        used: Vec::new(alloc),
    })
}

/// The pairs with which a join begins: node 0 of both sides, and the nodes of variables that both know.
fn first_pairs(alloc: Global, left: &State, right: &State) -> Result<Vec<Pair>, NoMemory>
    ensures { IfOk result (λ pairs. pairs.items ≡ (begun left.now right.now).pairs) }
{
    let mut pairs = vec![in alloc; (NULL, NULL)]?;
    put_known(&mut pairs, left.env(), right.env())?;
    Ok(pairs)
}

/// A join of two states that begins. Each of the states is copied.
pub fn begin(alloc: Global, left: &State, right: &State) -> Result<Joining, NoMemory>
    ensures seen { IfOk result (λ j. seen j ≡ begun left.now right.now) }
    ensures left { IfOk result (λ j. j.left.state ≡ left.now) }
    ensures right { IfOk result (λ j. j.right.state ≡ right.now) }
{
    let pairs = first_pairs(alloc, left, right)?;
    Ok(Joining {
        left: unused(alloc, left)?,
        right: unused(alloc, right)?,
        pairs,
        edges: Vec::new(alloc),
        closed: Vec::new(alloc),
    })
}

/// Whether an entry is of a side and a pair.
fn is_this(entry: &(Side, Pair), side: Side, pair: &Pair) -> bool
    ensures { result ≡ is_this side pair.now entry.now }
{
    is_same_side(entry.0, side) && is_same_pair(&entry.1, pair)
}

impl Joining {
    /// What a side has.
    pub fn half(&self, side: Side) -> &Half
        ensures is { seen_half result.now ≡ half (seen self.now) side }
        ensures good { AreGood self.now → IsGood result.now.state }
    {
        match side {
            Side::Left => &self.left,
            Side::Right => &self.right,
        }
    }

    /// Whether a side's edges do not count at a pair any more.
    fn is_closed(&self, side: Side, pair: &Pair) -> bool
        ensures { result ≡ is_closed (seen self.now) side pair.now }
    {
        for entry in self.closed.as_slice() {
            if is_this(entry, side, pair) {
                return true;
            }
        }
        false
    }

    /// The edge of a side at a pair: the least unused one that starts at the pair's node there, where they count.
    pub fn edge_at(&self, side: Side, pair: &Pair) -> Option<&(EdgeId, Edge)>
        ensures { option_copied result ≡ edge_at (seen self.now) side pair.now }
    {
        if self.is_closed(side, pair) {
            return None;
        }
        let half = self.half(side);
        edge_from(&half.state, half.used.as_slice(), of_side(side, pair))
    }

    /// Whether an unused edge of either side counts at a pair.
    fn has_edge(&self, pair: &Pair) -> bool
        ensures { result ≡ has_edge (seen self.now) pair.now }
    {
        self.edge_at(Side::Left, pair).is_some() || self.edge_at(Side::Right, pair).is_some()
    }

    /// The first pair at which an unused edge of either side counts.
    pub fn next_pair(&self) -> Option<Pair>
        ensures { result ≡ next_pair (seen self.now) }
    {
        for pair in self.pairs.as_slice() {
            if self.has_edge(pair) {
                return Some(*pair);
            }
        }
        None
    }

    /// The edges of a side that a fold at a pair may not use.
    pub fn blocked(&self, alloc: Global, side: Side, pair: &Pair) -> Result<Vec<EdgeId>, NoMemory>
        ensures { IfOk result (λ ids. edges_left (half (seen self.now) side).state ids.items
            ≡ free_edges (seen self.now) side pair.now) }
    {
        let half = self.half(side);
        let ids = not_foldable(
            alloc,
            &half.state,
            half.used.as_slice(),
            self.pairs.as_slice(),
            side,
            pair,
        )?;
        Ok(ids)
    }
}
