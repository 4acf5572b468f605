// What is known of a state before it is folded.
use crate::keeping::kept_blocks;
use mc_base::{EdgeId, Kind, NoMemory, NodeId, PointId, PredId, VarId};
use mc_find_view::live::Asserted;
use mc_find_view::sight::{Nodes, Sight, class_at, reached_edges};
use mc_pure::ClassPlace;
use mc_symbolic::State;
use std::alloc::Global;

/// For how many nodes there is room at first.
const ROOM: usize = 8;

/// How far folding goes.
#[derive(Clone, Copy, Debug, PartialEq, Eq)]
pub enum Step {
    /// Blocks at live variables stay.
    Plain,
    /// They fold into an inductive edge that takes them whole.
    Whole,
    /// No block stays for a live variable alone.
    Coarse,
    /// As that, and states may fit heads of another shape.
    Match,
}

/// How a state is folded: what is looked at, the predicates in the order in which they are wanted, those that the
/// program asserts, how far folding goes, how many fields before a live variable's node a block stays too, and by how
/// much the numbers of a new segment are more than is guessed, which leaves room for a later change after it.
#[derive(Clone, Copy)]
pub struct Manner<'a> {
    pub sight: Sight<'a>,
    pub wanted: &'a [PredId],
    pub asserted: &'a [Asserted],
    pub step: Step,
    pub before: usize,
    pub room: i64,
}

/// The nodes of the live variables of a state, each once: where all stand in their classes, and those of the pointers.
#[derive(Drop)]
pub struct Live {
    places: Vec<ClassPlace>,
    pointers: Vec<NodeId>,
}

/// Which edges of a state are reached from its live variables, which of them stay, and which start at a live variable's node.
#[derive(Drop)]
pub struct Survey {
    pub used: Vec<bool>,
    pub kept: Vec<bool>,
    pub kept_ids: Vec<EdgeId>,
    pub live: Live,
    at_live: Vec<bool>,
}

impl Survey {
    /// A survey of a state at a cut.
    pub fn of(
        alloc: Global,
        manner: Manner<'_>,
        state: &State,
        point: PointId,
    ) -> Result<Survey, NoMemory> {
        let nodes = Nodes {
            sight: &manner.sight,
            state,
            point,
        };
        let live = Live::of(alloc, &nodes)?;
        let kept = kept_blocks(alloc, manner, &nodes, &live)?;
        let mut kept_ids = Vec::new(alloc);
        let mut at_live = Vec::with_capacity(alloc, state.edges().len())?;
        for (place, entry) in state.edges().iter().enumerate() {
            if kept.as_slice().get(place).copied().unwrap_or(false) {
                kept_ids.push(entry.0)?;
            }
            at_live.push(live.has(state, entry.1.start()))?;
        }
        Ok(Survey {
            used: reached_edges(alloc, manner.sight, state, point)?,
            kept,
            kept_ids,
            live,
            at_live,
        })
    }

    /// Whether the edge at a place is reached.
    pub fn is_used(&self, place: usize) -> bool {
        self.used.as_slice().get(place).copied().unwrap_or(false)
    }

    /// Whether the edge at a place stays.
    pub fn is_kept(&self, place: usize) -> bool {
        self.kept.as_slice().get(place).copied().unwrap_or(false)
    }

    /// Whether the edge at a place starts at a live variable's node.
    fn is_at_live(&self, place: usize) -> bool {
        self.at_live.as_slice().get(place).copied().unwrap_or(false)
    }

    /// The edges that a fold at a node may not take: those at other live variables' nodes, which it would hide, and, if asked
    /// for, those that stay.
    pub fn barred(
        &self,
        alloc: Global,
        state: &State,
        at: NodeId,
        with_kept: bool,
    ) -> Result<Vec<EdgeId>, NoMemory> {
        let mut list = Vec::with_capacity(alloc, state.edges().len())?;
        for (place, entry) in state.edges().iter().enumerate() {
            let stays = with_kept && self.is_kept(place);
            if stays || (self.is_at_live(place) && !state.are_equal(entry.1.start(), at)) {
                list.push(entry.0)?;
            }
        }
        Ok(list)
    }
}

/// Adds a place to a list, if it is not there; whether it was not.
fn push_place(list: &mut Vec<ClassPlace>, place: ClassPlace) -> Result<bool, NoMemory> {
    if list.as_slice().contains(&place) {
        return Ok(false);
    }
    list.push(place)?;
    Ok(true)
}

impl Live {
    /// The nodes of the live variables.
    pub fn of(alloc: Global, nodes: &Nodes<'_>) -> Result<Live, NoMemory> {
        let mut live = Live {
            places: Vec::with_capacity(alloc, ROOM)?,
            pointers: Vec::with_capacity(alloc, ROOM)?,
        };
        let mut pointers = Vec::with_capacity(alloc, ROOM)?;
        for place in 0..nodes.state.env().len() {
            let x = VarId(place as u64);
            let Some(node) = nodes.sight.live_node(nodes.state, nodes.point, x) else {
                continue;
            };
            let Some(place) = class_at(nodes.state, node) else {
                continue;
            };
            push_place(&mut live.places, place)?;
            if nodes.sight.var_kind(x) == Kind::Ptr && push_place(&mut pointers, place)? {
                live.pointers.push(node)?;
            }
        }
        Ok(live)
    }

    /// Whether a live variable stands at a node.
    pub fn has(&self, state: &State, node: NodeId) -> bool {
        match class_at(state, node) {
            Some(place) => self.places.as_slice().contains(&place),
            None => false,
        }
    }

    /// The nodes of live pointers, each once.
    pub fn pointers(&self) -> &[NodeId] {
        self.pointers.as_slice()
    }
}
