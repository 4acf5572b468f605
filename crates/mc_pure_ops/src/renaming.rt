//! Renamings: finite maps from nodes to nodes.

ghost use Rattle.std.specs.Prelude.{◌≡◌, ◌↔◌, ◌≤◌, [], length, slice_get, true, false, Some, IfOk, IfSome, IsTrue, OnErr, MatchOption};
ghost use Rattle.mc_base.specs.Nodes.{moved};
ghost use Rattle.mc_pure_ops.specs.Renaming.Images.{image_of, image, RiseFrom, DoRise, IsPlace, HasOther, IsWith, IsComposed, IsRestricted, IsInjective, IsInverse};

use mc_base::{NoMemory, NodeId};
use std::alloc::Global;
use std::marker::Model;

/// Nodes with their images, ascending.
#[derive(Drop)]
pub struct Renaming {
    pairs: Vec<(NodeId, NodeId)>,
}

impl Model for Renaming {
    ghost use Rattle.mc_pure_ops.specs.Renaming.Images.{Images};

    ghost Value = { Images };

    ghost use Rattle.mc_pure_ops.specs.Renaming.Images.{RiseFrom};

    ghost view = { λ r. r.pairs.items };

    ghost invariant = { λ r. RiseFrom 0 r.pairs.items };
}

/// The place of the node's pair, or where it belongs.
fn place_in(pairs: &[(NodeId, NodeId)], node: NodeId) -> usize
    requires { DoRise pairs.now }
    ensures place { IsPlace pairs.now node result }
    ensures bound { result ≤ length pairs.now }
{
    let mut low = 0;
    let mut high = pairs.len();
    while low < high {
        let middle = low + (high - low) / 2;
        if pairs[middle].0.0 < node.0 {
            low = middle + 1;
        } else {
            high = middle;
        }
    }
    low
}

/// The image of the node, where its pair stands at the place.
fn image_at(pairs: &[(NodeId, NodeId)], node: NodeId, place: usize) -> Option<NodeId>
    ensures { MatchOption result ((to : _) → slice_get pairs.now place ≡ Some (node, to) → ⊥)
        (λ to. slice_get pairs.now place ≡ Some (node, to)) }
{
    match pairs.get(place) {
        Some(pair) => {
            if pair.0.0 == node.0 {
                Some(pair.1)
            } else {
                None
            }
        }
        None => None,
    }
}

/// The image of the node.
fn image_in(pairs: &[(NodeId, NodeId)], node: NodeId) -> Option<NodeId>
    requires { RiseFrom 0 pairs.now }
    ensures { result ≡ image_of pairs.now node }
{
    let near = image_at(pairs, node, node.0 as usize);
    if near.is_some() {
        return near;
    }
    image_at(pairs, node, place_in(pairs, node))
}

impl Renaming {
    /// No node has an image.
    pub fn new(alloc: Global) -> Renaming
        ensures { result ≡ [] }
    {
        Renaming {
            pairs: Vec::new(alloc),
        }
    }

    /// The same images again.
    pub fn copy(&self) -> Result<Renaming, NoMemory>
        ensures { IfOk result (λ renaming. renaming ≡ self.now) }
    {
        let alloc = *self.pairs.allocator();
        Ok(Renaming {
            pairs: Vec::from_slice(alloc, self.pairs.as_slice())?,
        })
    }

    /// The nodes that have images, ascending, each with its image.
    pub fn pairs(&self) -> &[(NodeId, NodeId)]
        ensures is { result.now ≡ self.now }
        ensures rise { RiseFrom 0 self.now }
    {
        self.pairs.as_slice()
    }

    /// The image of a node, where it has one.
    pub fn get(&self, from: NodeId) -> Option<NodeId>
        ensures { result ≡ image_of self.now from }
    {
        image_in(self.pairs.as_slice(), from)
    }

    /// The image of a node. One that has none stays.
    pub fn image(&self, node: NodeId) -> NodeId
        ensures { result ≡ moved (image self.now) node }
    {
        match self.get(node) {
            Some(to) => to,
            None => node,
        }
    }

    /// Gives a node an image. False, and nothing changes, where it has another one. Without memory nothing changes.
    pub fn add(&mut self, from: NodeId, to: NodeId) -> Result<bool, NoMemory>
        ensures yes { IfOk result (λ added. added ≡ true → IsWith self.old from to self.new) }
        ensures no { IfOk result (λ added. added ≡ false → self.new ≡ self.old) }
        ensures other { IfOk result (λ added. (added ≡ false) ↔ HasOther self.old from to) }
        ensures err { OnErr result (self.new ≡ self.old) }
    {
        match self.get(from) {
            Some(other) => Ok(other.0 == to.0),
            None => {
                let place = place_in(self.pairs.as_slice(), from);
                self.pairs.insert(place, (from, to))?;
                Ok(true)
            }
        }
    }

    /// Each node goes where this renaming and then the other one lead it, where both do.
    pub fn compose(&self, after: &Renaming) -> Result<Renaming, NoMemory>
        ensures { IfOk result (λ both. IsComposed self.now after.now both) }
    {
        let mut both = Renaming::new(*self.pairs.allocator());
        for pair in self.pairs() {
            let Some(end) = after.get(pair.1) else {
                continue;
            };
            both.add(pair.0, end)?;
        }
        Ok(both)
    }

    /// The images of some nodes alone.
    pub fn restrict(&self, keep: &[NodeId]) -> Result<Renaming, NoMemory>
        ensures { IfOk result (λ some. IsRestricted self.now keep.now some) }
    {
        let mut some = Renaming::new(*self.pairs.allocator());
        for node in keep {
            let Some(to) = self.get(*node) else {
                continue;
            };
            some.add(*node, to)?;
        }
        Ok(some)
    }

    /// The way back, where no two nodes have one image.
    pub fn inverse(&self) -> Result<Option<Renaming>, NoMemory>
        ensures back { IfOk result (λ found. IfSome found (λ back. IsInverse self.now back)) }
        ensures none { IfOk result (λ found. found ≡ None → IsInjective self.now → ⊥) }
    {
        let mut back = Renaming::new(*self.pairs.allocator());
        for pair in self.pairs() {
            if !back.add(pair.1, pair.0)? {
                return Ok(None);
            }
        }
        Ok(Some(back))
    }

    /// Whether no two nodes have one image.
    pub fn is_injective(&self) -> Result<bool, NoMemory>
        ensures { IfOk result (λ injective. IsTrue injective ↔ IsInjective self.now) }
    {
        match self.inverse()? {
            Some(_back) => Ok(true),
            None => Ok(false),
        }
    }
}
