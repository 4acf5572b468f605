// Which edges of a state are reached.
use crate::sight::Sight;
use crate::sight::naming::is_dead_field;
use mc_apply_unfold::is_back;
use mc_base::{Kind, NULL, NoMemory, NodeId, PointId, PredId, StructId, VarId};
use mc_pure::ClassPlace;
use mc_state::graph::Edge;
use mc_symbolic::State;
use std::alloc::Global;

/// Where a node of a state that is not false stands in its class: equal nodes stand at one place.
pub fn class_at(state: &State, node: NodeId) -> Option<ClassPlace> {
    let pure = state.known();
    if pure.is_false() || !pure.has(node) {
        return None;
    }
    Some(pure.class_of(node))
}

/// Where a pointer's node stands in its class. None of null.
pub fn pointer_place(state: &State, node: NodeId) -> Option<ClassPlace> {
    let place = class_at(state, node)?;
    if place.least == NULL && place.offset == 0 {
        None
    } else {
        Some(place)
    }
}

/// Where the edges of a state start.
pub fn starts_of(alloc: Global, state: &State) -> Result<Vec<Option<ClassPlace>>, NoMemory> {
    let mut starts = Vec::with_capacity(alloc, state.edges().len())?;
    for entry in state.edges() {
        starts.push(pointer_place(state, entry.1.start()))?;
    }
    Ok(starts)
}

/// Whether the edge at a place of a list starts at a pointer.
pub fn starts_at(starts: &[Option<ClassPlace>], place: usize, at: ClassPlace) -> bool {
    match starts.get(place) {
        Some(Some(start)) => *start == at,
        _ => false,
    }
}

/// The pointers that were met, and the edges that were taken.
#[derive(Drop)]
struct Reach<'a> {
    sight: Sight<'a>,
    state: &'a State,
    point: PointId,
    starts: Vec<Option<ClassPlace>>,
    met: Vec<ClassPlace>,
    used: Vec<bool>,
}

impl Reach<'_> {
    /// A pointer's node is met.
    fn meet(&mut self, node: NodeId) -> Result<(), NoMemory> {
        if let Some(place) = pointer_place(self.state, node) {
            if !self.met.as_slice().contains(&place) {
                self.met.push(place)?;
            }
        }
        Ok(())
    }

    /// The variables that count are met.
    fn meet_variables(&mut self) -> Result<(), NoMemory> {
        for place in 0..self.state.env().len() {
            let x = VarId(place as u64);
            if self.sight.var_kind(x) == Kind::Ptr {
                if let Some(node) = self.sight.live_node(self.state, self.point, x) {
                    self.meet(node)?;
                }
            }
        }
        Ok(())
    }

    /// The fields of a block that count are met.
    fn meet_fields(
        &mut self,
        at: NodeId,
        shape: StructId,
        fields: &[Option<NodeId>],
    ) -> Result<(), NoMemory> {
        for (place, field) in fields.iter().enumerate() {
            if let Some(node) = field {
                if self.sight.field_kind(shape, place) == Kind::Ptr
                    && !is_dead_field(&self.sight, self.state, self.point, at, shape, place)
                {
                    self.meet(*node)?;
                }
            }
        }
        Ok(())
    }

    /// Arguments are met.
    fn meet_args(&mut self, pred: PredId, args: &[NodeId]) -> Result<(), NoMemory> {
        for (place, node) in args.iter().enumerate() {
            if self.sight.param_kind(pred, place) == Kind::Ptr {
                self.meet(*node)?;
            }
        }
        Ok(())
    }

    /// An edge is taken.
    fn take(&mut self, place: usize, edge: &Edge) -> Result<(), NoMemory> {
        if let Some(slot) = self.used.get_mut(place) {
            *slot = true;
        }
        self.meet(edge.start())?;
        match edge {
            Edge::Block { at, shape, fields } => self.meet_fields(*at, *shape, fields.as_slice()),
            Edge::Ind { pred, args, .. } => self.meet_args(*pred, args.as_slice()),
            Edge::Seg {
                args,
                pred,
                end,
                end_args,
                ..
            } => {
                self.meet_args(*pred, args.as_slice())?;
                self.meet(*end)?;
                self.meet_args(*pred, end_args.as_slice())
            }
        }
    }

    /// Whether the edge at a place was taken.
    fn is_used(&self, place: usize) -> bool {
        self.used.as_slice().get(place).copied().unwrap_or(true)
    }

    /// Takes all edges that start at nodes which were met, from a place in their list on. The place after.
    fn follow(&mut self, from: usize) -> Result<usize, NoMemory> {
        let state = self.state;
        let mut next = from;
        for _ in 0..state.nodes().len() {
            let Some(met) = self.met.as_slice().get(next).copied() else {
                return Ok(next);
            };
            next += 1;
            for (place, entry) in state.edges().iter().enumerate() {
                if !self.is_used(place) && starts_at(self.starts.as_slice(), place, met) {
                    self.take(place, &entry.1)?;
                }
            }
        }
        Ok(next)
    }

    /// Whether a pointer's node was met.
    fn has_met(&self, node: NodeId) -> bool {
        match pointer_place(self.state, node) {
            Some(place) => self.met.as_slice().contains(&place),
            None => false,
        }
    }

    /// Whether an edge is a segment that can be found from its end: an argument there at a back position was met.
    fn is_found_back(&self, edge: &Edge) -> bool {
        let Edge::Seg { pred, end_args, .. } = edge else {
            return false;
        };
        let ends = end_args.as_slice();
        ends.iter().enumerate().any(|(place, node)| {
            self.has_met(*node) && is_back(self.sight.defs.as_slice(), *pred, place)
        })
    }

    /// Takes a segment that is found from its end, if there is one.
    fn take_back(&mut self) -> Result<bool, NoMemory> {
        let state = self.state;
        for (place, entry) in state.edges().iter().enumerate() {
            if !self.is_used(place) && self.is_found_back(&entry.1) {
                self.take(place, &entry.1)?;
                return Ok(true);
            }
        }
        Ok(false)
    }

    /// Takes all edges that are reached.
    fn take_all(&mut self) -> Result<(), NoMemory> {
        let mut next = self.follow(0)?;
        for _ in 0..self.state.edges().len() {
            if !self.take_back()? {
                return Ok(());
            }
            next = self.follow(next)?;
        }
        Ok(())
    }
}

/// Which edges of a state, which must not be false, are reached from the variables that count at a point. Where all edges count,
/// all are.
pub fn reached_edges(
    alloc: Global,
    sight: Sight<'_>,
    state: &State,
    point: PointId,
) -> Result<Vec<bool>, NoMemory> {
    let count = state.edges().len();
    if sight.all {
        return Ok(vec![in alloc; true; count]?);
    }
    let mut reach = Reach {
        sight,
        state,
        point,
        starts: starts_of(alloc, state)?,
        met: Vec::with_capacity(alloc, count)?,
        used: vec![in alloc; false; count]?,
    };
    reach.meet_variables()?;
    reach.take_all()?;
    Ok(reach.used)
}
