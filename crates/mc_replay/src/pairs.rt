// Pairs of nodes, one of the left state and one of the right.
ghost use Rattle.std.specs.Prelude.{◌≡◌, ◌==◌, ◌&&◌, ◌||◌, not, ◌++◌, ◌∷◌, [], Some, None, OnOk, IfOk, position, option_map, unwrap_or};
ghost use Rattle.std.specs.List.{list_any};
ghost use Rattle.mc_base.specs.declared.ids.NodeId.{NodeId as Node};
ghost use Rattle.mc_joins.specs.Joinings.{across, same_side, of_side, same_pair, with_pair, is_alone, partner};
ghost use Rattle.mc_joins.specs.Steps.{may_end, node_for};

use mc_base::{NoMemory, NodeId};
use mc_state::Side;

/// A node of the left state, and one of the right.
pub type Pair = (NodeId, NodeId);

/// The other side.
pub fn across(side: Side) -> Side
    ensures { result ≡ across side }
{
    match side {
        Side::Left => Side::Right,
        Side::Right => Side::Left,
    }
}

/// Whether two sides are one.
pub fn is_same_side(a: Side, b: Side) -> bool
    ensures { result ≡ same_side a b }
{
    match (a, b) {
        (Side::Left, Side::Left) => true,
        (Side::Left, Side::Right) => false,
        (Side::Right, Side::Left) => false,
        (Side::Right, Side::Right) => true,
    }
}

/// A pair's node of a side.
pub fn of_side(side: Side, pair: &Pair) -> NodeId
    ensures { result ≡ of_side side pair.now }
{
    match side {
        Side::Left => pair.0,
        Side::Right => pair.1,
    }
}

/// Whether two pairs are one.
pub fn is_same_pair(a: &Pair, b: &Pair) -> bool
    ensures { result ≡ same_pair a.now b.now }
{
    a.0.0 == b.0.0 && a.1.0 == b.1.0
}

/// Whether a pair is listed.
fn is_listed(pairs: &[Pair], pair: &Pair) -> bool
    ensures { result ≡ list_any (same_pair pair.now) pairs.now }
{
    for other in pairs {
        if is_same_pair(pair, other) {
            return true;
        }
    }
    false
}

/// Lists a pair that is not listed yet.
pub fn put_pair(pairs: &mut Vec<Pair>, pair: &Pair) -> Result<(), NoMemory>
    ensures { OnOk result (pairs.new.items ≡ with_pair pairs.old.items pair.now) }
{
    if is_listed(pairs.as_slice(), pair) {
        return Ok(());
    }
    pairs.push(*pair)?;
    Ok(())
}

/// Whether a pair is this one, or has another node on the side.
fn is_apart(pair: &Pair, side: Side, node: NodeId, other: &Pair) -> bool
    ensures { result ≡ (same_pair pair.now other.now || not ((of_side side other.now).0 == node.0)) }
{
    is_same_pair(pair, other) || of_side(side, other).0 != node.0
}

/// Whether a node of a side is in no other pair than this one.
pub fn is_alone(pairs: &[Pair], side: Side, pair: &Pair, node: NodeId) -> bool
    ensures { result ≡ is_alone pairs.now side pair.now node }
{
    for other in pairs {
        if !is_apart(pair, side, node, other) {
            return false;
        }
    }
    true
}

/// The other node of the first pair in which a node of a side is.
pub fn partner(pairs: &[Pair], side: Side, node: NodeId) -> Option<NodeId>
    ensures { result ≡ partner pairs.now side node }
{
    for pair in pairs {
        if of_side(side, pair).0 == node.0 {
            return Some(of_side(across(side), pair));
        }
    }
    None
}

/// The node of the result that stands for two nodes: the place of their pair.
pub fn node_for(pairs: &[Pair], left: NodeId, right: NodeId) -> NodeId
    ensures { result ≡ node_for pairs.now left right }
{
    let pair = (left, right);
    for (place, other) in pairs.iter().enumerate() {
        if is_same_pair(&pair, other) {
            return NodeId(place as u64);
        }
    }
    NodeId(0)
}

/// Whether a segment may end at a pair: it has the same other node as the step's, and another node than that on the
/// folded side; none of these is node 0.
pub fn may_end(side: Side, pair: &Pair, end: &Pair) -> bool
    ensures { result ≡ may_end side pair.now end.now }
{
    let other = across(side);
    pair.0.0 != 0
        && pair.1.0 != 0
        && of_side(other, end).0 == of_side(other, pair).0
        && of_side(side, end).0 != of_side(side, pair).0
        && of_side(side, end).0 != 0
}
