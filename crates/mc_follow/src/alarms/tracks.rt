// The tracks of open branches.
ghost use Rattle.std.specs.Prelude.{◌≡◌, ◌∷◌, ◌++◌, [], List, Option as Maybe, None, Some, IfOk, OnOk, option_map, replicate};
ghost use Rattle.mc_exact.specs.Exact.{Picks};
ghost use Rattle.mc_follow.specs.Alarms.Tracks.{held, tracks_after};

use crate::alarms::lines::{is_allocation, keeps_exact};
use mc_base::{NoMemory, NodeId};
use mc_lines::cert::Line;
use std::alloc::Global;
use std::marker::Model;

/// What malloc answered on an exact branch: null, or a new block at a node.
#[derive(Drop)]
pub struct Picked {
    pub picks: Vec<Option<NodeId>>,
}

/// The tracks of open branches on a stack, that of the first branch at the top: what malloc answered on it, where it is exact.
pub struct Tracks {
    alloc: Global,
    // The first last.
    items: Vec<Option<Picked>>,
}

/// Drops its parts. What holds one calls this.
impl Drop for Tracks {
    fn drop(self) {
        let Tracks { alloc: _, items } = self;
        drop(items);
    }
}

impl Model for Tracks {
    ghost use Rattle.std.specs.Prelude.{List, Option};
    ghost use Rattle.mc_exact.specs.Exact.{Picks};

    ghost Value = { List (Option Picks) };

    ghost use Rattle.mc_follow.specs.Alarms.Tracks.{in_order};

    ghost view = { λ tracks. in_order tracks.items.items };
}

// The same picks again.
fn copied(alloc: Global, picks: &[Option<NodeId>]) -> Result<Picked, NoMemory>
    ensures { IfOk result (λ copy. copy.picks.items ≡ picks.now) }
{
    let picks = picks.to_vec(alloc)?;
    Ok(Picked { picks })
}

impl Tracks {
    /// The track of the entry.
    pub fn entry(alloc: Global) -> Result<Tracks, NoMemory>
        ensures { IfOk result (λ tracks. tracks ≡ Some [] ∷ []) }
    {
        let mut items = Vec::new(alloc);
        items.push(Some(Picked {
            picks: Vec::new(alloc),
        }))?;
        Ok(Tracks { alloc, items })
    }

    /// What malloc answered on the first branch, where it is exact.
    pub fn first(&self) -> Option<&[Option<NodeId>]>
        ensures { (track : Maybe Picks) (others : List (Maybe Picks)) → self.now ≡ track ∷ others
            → option_map (λ picks. picks.now) result ≡ track }
    {
        match self.items.as_slice().last() {
            Some(Some(track)) => Some(track.picks.as_slice()),
            Some(None) => None,
            None => None,
        }
    }

    /// Takes the track of the first branch.
    pub fn pop(&mut self) -> Option<Picked>
        ensures { (track : Maybe Picks) (others : List (Maybe Picks)) → self.old ≡ track ∷ others
            → (held result ≡ track) × (self.new ≡ others) }
    {
        match self.items.pop() {
            Some(track) => track,
            None => None,
        }
    }

    /// Puts the tracks of so many branches that are not exact at the top.
    fn lose(&mut self, count: u64) -> Result<(), NoMemory>
        ensures { OnOk result (self.new ≡ replicate count None ++ self.old) }
    {
        for _ in 0..count {
            self.items.push(None)?;
        }
        Ok(())
    }

    /// Puts the same track for so many branches at the top.
    fn repeat(&mut self, picks: &[Option<NodeId>], count: u64) -> Result<(), NoMemory>
        ensures { OnOk result (self.new ≡ replicate count (Some picks.now) ++ self.old) }
    {
        for _ in 0..count {
            let copy = copied(self.alloc, picks)?;
            self.items.push(Some(copy))?;
        }
        Ok(())
    }

    /// Puts a track for so many branches at the top.
    fn keep(&mut self, track: Picked, count: u64) -> Result<(), NoMemory>
        ensures { OnOk result (self.new ≡ replicate count (Some track.picks.items) ++ self.old) }
    {
        match count.checked_sub(1) {
            Some(others) => {
                self.repeat(track.picks.as_slice(), others)?;
                self.items.push(Some(track))?;
                Ok(())
            }
            None => Ok(()),
        }
    }

    /// Puts the tracks of an allocation's branches at the top: where malloc answered null, and where it made the block at a node.
    fn fork(&mut self, picks: &[Option<NodeId>], node: NodeId) -> Result<(), NoMemory>
        ensures { OnOk result (self.new ≡ Some (picks.now ++ None ∷ []) ∷ Some (picks.now ++ Some node ∷ []) ∷ self.old) }
    {
        let mut made = copied(self.alloc, picks)?;
        made.picks.push(Some(node))?;
        self.items.push(Some(made))?;
        let mut failed = copied(self.alloc, picks)?;
        failed.picks.push(None)?;
        self.items.push(Some(failed))?;
        Ok(())
    }

    /// Goes on by a line at an exact branch.
    fn go_on(
        &mut self,
        line: &Line,
        node: NodeId,
        track: Picked,
        count: u64,
    ) -> Result<(), NoMemory>
        ensures { OnOk result (self.new ≡ tracks_after line.now node (Some track.picks.items) count ++ self.old) }
    {
        if is_allocation(line) {
            return self.fork(track.picks.as_slice(), node);
        }
        if keeps_exact(line) {
            return self.keep(track, count);
        }
        self.lose(count)
    }

    /// Goes on by a line at the first branch, of which so many branches come. An allocation makes a block at this node.
    pub fn turn(&mut self, line: &Line, node: NodeId, count: u64) -> Result<(), NoMemory>
        ensures { OnOk result ((track : Maybe Picks) (others : List (Maybe Picks)) → self.old ≡ track ∷ others
            → self.new ≡ tracks_after line.now node track count ++ others) }
    {
        match self.pop() {
            Some(track) => self.go_on(line, node, track, count),
            None => self.lose(count),
        }
    }
}
