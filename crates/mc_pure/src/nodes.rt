// Nodes with their kinds.
ghost use Rattle.std.specs.Prelude.{◌≡◌, ◌≢◌, ◌≤◌, [], true, false, IfOk, OnOk, OnErr, MatchOption, IfSome, Some, None, slice_get, length};
ghost use Rattle.std.specs.List.{insert};
ghost use Rattle.mc_pure.specs.Pure.{IsNode, AreOfOneKind, kind_of};
ghost use Rattle.mc_pure.specs.Rows.{nodes_of};
ghost use Rattle.mc_pure.specs.Nodes.{RiseFrom, DoRise, IsPlace, with_kind};

use mc_base::{Kind, NULL, NoMemory, NodeId};
use std::alloc::Global;
use std::marker::Model;

/// Node 0, and other nodes with their kinds, ascending.
#[derive(Drop)]
pub struct Nodes {
    nodes: Vec<NodeId>,
    kinds: Vec<(NodeId, Kind)>,
}

impl Model for Nodes {
    ghost use Rattle.mc_pure.specs.Pure.{Kinds};

    ghost Value = { Kinds };

    ghost use Rattle.std.specs.Prelude.{◌≡◌};
    ghost use Rattle.mc_pure.specs.Rows.{nodes_of};
    ghost use Rattle.mc_pure.specs.Nodes.{RiseFrom};

    ghost view = { λ n. n.kinds.items };

    ghost invariant = { λ n. (n.nodes.items ≡ nodes_of n.kinds.items) × RiseFrom 1 n.kinds.items };
}

/// The place of the node, or where it belongs.
#[inline(never)]
fn place_in(nodes: &[NodeId], node: NodeId) -> usize
    requires { DoRise nodes.now }
    ensures place { IsPlace nodes.now node result }
    ensures bound { result ≤ length nodes.now }
{
    let mut low = 0;
    let mut high = nodes.len();
    while low < high {
        let middle = low + (high - low) / 2;
        if nodes[middle].0 < node.0 {
            low = middle + 1;
        } else {
            high = middle;
        }
    }
    low
}

/// Whether the node stands at the place.
fn stands_at(nodes: &[NodeId], node: NodeId, place: usize) -> bool
    ensures yes { result ≡ true → slice_get nodes.now place ≡ Some node }
    ensures no { result ≡ false → slice_get nodes.now place ≡ Some node → ⊥ }
{
    match nodes.get(place) {
        Some(other) => other.0 == node.0,
        None => false,
    }
}

/// The kind of the node at a place among all.
fn kind_in(kinds: &[(NodeId, Kind)], place: usize) -> Option<Kind>
    requires { place ≤ length kinds.now }
    ensures { (n : _) → RiseFrom 1 kinds.now → slice_get (nodes_of kinds.now) place ≡ Some n → result ≡ kind_of kinds.now n }
{
    if place == 0 {
        return None;
    }
    Some(kinds[place - 1].1)
}

impl Nodes {
    /// Node 0 alone.
    pub fn new(alloc: Global) -> Result<Nodes, NoMemory>
        ensures { IfOk result (λ nodes. nodes ≡ []) }
    {
        let mut nodes = Vec::new(alloc);
        nodes.push(NULL)?;
        Ok(Nodes {
            nodes,
            kinds: Vec::new(alloc),
        })
    }

    /// The same nodes again.
    pub fn copy(&self) -> Result<Nodes, NoMemory>
        ensures { IfOk result (λ nodes. nodes ≡ self.now) }
    {
        let alloc = *self.nodes.allocator();
        Ok(Nodes {
            nodes: Vec::from_slice(alloc, self.nodes.as_slice())?,
            kinds: Vec::from_slice(alloc, self.kinds.as_slice())?,
        })
    }

    /// Adds a node that is not there yet, and answers its place. Without memory nothing changes.
    pub fn add(&mut self, node: NodeId, kind: Kind) -> Result<usize, NoMemory>
        requires fresh { IsNode self.old node → ⊥ }
        ensures kinds { OnOk result (self.new ≡ with_kind self.old node kind) }
        ensures place { IfOk result (λ i. nodes_of self.new ≡ insert (nodes_of self.old) i node) }
        ensures bound { IfOk result (λ i. i ≤ length (nodes_of self.old)) }
        ensures rise { OnOk result (RiseFrom 1 self.new) }
        ensures err { OnErr result (self.new ≡ self.old) }
    {
        let place = place_in(self.nodes.as_slice(), node);
        self.nodes.reserve(1)?;
        self.kinds.insert(place - 1, (node, kind))?;
        self.nodes.insert(place, node)?;
        Ok(place)
    }

    /// All nodes, ascending.
    pub fn all(&self) -> &[NodeId]
        ensures { result.now ≡ nodes_of self.now }
    {
        self.nodes.as_slice()
    }

    /// The nodes other than 0 with their kinds, ascending.
    pub fn kinds(&self) -> &[(NodeId, Kind)]
        ensures is { result.now ≡ self.now }
        ensures rise { RiseFrom 1 self.now }
    {
        self.kinds.as_slice()
    }

    /// The place of a node among all.
    #[inline(always)]
    pub fn place(&self, node: NodeId) -> Option<usize>
        ensures at { MatchOption result (IsNode self.now node → ⊥) (λ i. slice_get (nodes_of self.now) i ≡ Some node) }
        ensures there { IfSome result (λ _. IsNode self.now node) }
        ensures rise { DoRise (nodes_of self.now) }
    {
        let nodes = self.nodes.as_slice();
        let near = node.0 as usize;
        if stands_at(nodes, node, near) {
            return Some(near);
        }
        let place = place_in(nodes, node);
        if stands_at(nodes, node, place) {
            Some(place)
        } else {
            None
        }
    }

    /// The kind of a node other than 0, where it is there.
    pub fn kind(&self, node: NodeId) -> Option<Kind>
        ensures { result ≡ kind_of self.now node }
    {
        match self.place(node) {
            Some(place) => kind_in(self.kinds.as_slice(), place),
            None => None,
        }
    }

    /// Whether the node is there.
    pub fn has(&self, node: NodeId) -> bool
        ensures yes { result ≡ true → IsNode self.now node }
        ensures no { result ≡ false → IsNode self.now node → ⊥ }
    {
        match self.place(node) {
            Some(_place) => true,
            None => false,
        }
    }

    /// Whether the nodes are there and of one kind; node 0 is of every kind.
    pub fn are_of_one_kind(&self, a: NodeId, b: NodeId) -> bool
        ensures yes { result ≡ true → AreOfOneKind self.now a b }
        ensures no { result ≡ false → AreOfOneKind self.now a b → ⊥ }
    {
        if a.0 == 0 {
            return self.has(b);
        }
        if b.0 == 0 {
            return self.has(a);
        }
        match self.kind(a) {
            Some(first) => match self.kind(b) {
                Some(second) => same_kind(first, second),
                None => false,
            },
            None => false,
        }
    }
}

/// Whether the kinds are one.
fn same_kind(a: Kind, b: Kind) -> bool
    ensures yes { result ≡ true → a ≡ b }
    ensures no { result ≡ false → a ≢ b }
{
    match a {
        Kind::Int => match b {
            Kind::Int => true,
            Kind::Ptr => false,
        },
        Kind::Ptr => match b {
            Kind::Int => false,
            Kind::Ptr => true,
        },
    }
}
