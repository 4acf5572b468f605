// Whether two sides may be joined.
ghost use Rattle.std.specs.Prelude.{◌≡◌, true, false};
ghost use Rattle.mc_base.specs.Nodes.{null};
ghost use Rattle.mc_pure_ops.specs.Join.Joint.{StandsFor, HaveOneKind, AreJoinable};

use mc_base::NodeId;
use mc_pure::Pure;

/// Whether the first pair is node 0 on both sides.
fn begin_with_null(pairs: &[(NodeId, NodeId)]) -> bool
    ensures yes { result ≡ true → StandsFor pairs.now null null null }
    ensures no { result ≡ false → StandsFor pairs.now null null null → ⊥ }
{
    match pairs.get(0) {
        Some(pair) => {
            if pair.0.0 != 0 {
                return false;
            }
            pair.1.0 == 0
        }
        None => false,
    }
}

/// Whether the nodes of a pair are there and of one kind. Node 0 is of every kind.
fn have_one_kind(left: &Pure, right: &Pure, pair: &(NodeId, NodeId)) -> bool
    ensures yes { result ≡ true → HaveOneKind left.now right.now pair.now.0 pair.now.1 }
    ensures no { result ≡ false → HaveOneKind left.now right.now pair.now.0 pair.now.1 → ⊥ }
{
    if pair.0.0 == 0 {
        return right.has(pair.1);
    }
    if pair.1.0 == 0 {
        return left.has(pair.0);
    }
    match left.kind(pair.0) {
        Some(first) => match right.kind(pair.1) {
            Some(second) => first == second,
            None => false,
        },
        None => false,
    }
}

/// Whether the two sides may be joined by these pairs: the first is node 0 on both sides, and the nodes of each are there
/// and of one kind, node 0 being of every kind.
pub fn are_joinable(left: &Pure, right: &Pure, pairs: &[(NodeId, NodeId)]) -> bool
    ensures yes { result ≡ true → AreJoinable left.now right.now pairs.now }
    ensures no { result ≡ false → AreJoinable left.now right.now pairs.now → ⊥ }
{
    if !begin_with_null(pairs) {
        return false;
    }
    for i in 0..pairs.len() {
        if !have_one_kind(left, right, &pairs[i]) {
            return false;
        }
    }
    true
}
