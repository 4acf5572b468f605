// Facts about nodes: what no list of atoms asks.
use Atom::{Eq, In, Ne};
use mc_base::{Atom, Kind, NoMemory, NodeId};
use mc_pure::{Pure, Term};
use std::alloc::Global;
use std::test::Fail;

const NULL: NodeId = NodeId(0);

const A: NodeId = NodeId(1);

const B: NodeId = NodeId(2);

const C: NodeId = NodeId(3);

const D: NodeId = NodeId(4);

const P: NodeId = NodeId(5);

const Q: NodeId = NodeId(6);

static KINDS: [(NodeId, Kind); 6] = [
    (P, Kind::Ptr),
    (A, Kind::Int),
    (B, Kind::Int),
    (C, Kind::Int),
    (D, Kind::Int),
    (Q, Kind::Ptr),
];

// Four numbers and two pointers, of which atoms are assumed.
fn state(alloc: Global, atoms: &[Atom]) -> Result<Pure, NoMemory> {
    let mut pure = Pure::new(alloc)?;
    for (node, kind) in &KINDS {
        if !pure.has(*node) {
            pure.node(*node, *kind)?;
        }
    }
    assume_all(&mut pure, atoms)?;
    Ok(pure)
}

fn assume_all(pure: &mut Pure, atoms: &[Atom]) -> Result<(), NoMemory> {
    for atom in atoms {
        if pure.allows(atom) {
            pure.assume(atom)?;
        }
    }
    Ok(())
}

#[test]
fn nodes_stand_in_order(rt: HostRuntime) -> Result<(), Fail> {
    let pure = state(rt.alloc(), &[])?;
    assert_eq!(rt; pure.nodes(), [NULL, A, B, C, D, P, Q].as_slice());
    assert_eq!(rt; pure.kind(P), Some(Kind::Ptr));
    assert_eq!(rt; pure.kind(NULL), None);
    assert_eq!(rt; pure.kind(NodeId(7)), None);
    Ok(())
}

#[test]
fn a_copy_goes_its_own_way(rt: HostRuntime) -> Result<(), Fail> {
    let mut before = state(rt.alloc(), &[Eq(A, B, 3)])?;
    if before.has(P) {
        before.block(P)?;
    }
    let mut after = before.copy()?;
    assume_all(&mut after, &[In(B, 1, 1)])?;
    for atom in [Eq(A, B, 3), In(A, 4, 4), Ne(P, NULL, 0)] {
        assert!(rt; after.entails(&atom), "{atom:?}");
    }
    assert!(rt; !before.entails(&In(A, 4, 4)));
    assert_eq!(rt; before.written(), [Eq(A, B, 3)].as_slice());
    Ok(())
}

#[test]
fn terms_reach_farther_than_offsets(rt: HostRuntime) -> Result<(), Fail> {
    let pure = state(rt.alloc(), &[Eq(A, B, 3), In(B, 0, 5)])?;
    let low = Term {
        node: A,
        add: -i64::MAX,
    };
    let high = Term {
        node: B,
        add: i64::MAX,
    };
    assert!(rt; pure.are_different(&low, &high), "far apart");
    assert!(rt;
        pure.are_equal(&Term { node: A, add: 2 }, &Term { node: B, add: 5 }),
        "a + 2 = b + 5"
    );
    assert!(rt; pure.lies_in(&Term { node: A, add: 10 }, 13, 18), "a + 10");
    Ok(())
}
