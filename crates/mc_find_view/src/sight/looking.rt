// A look at a state.
use crate::sight::naming::is_dead_field;
use crate::sight::reaching::{pointer_place, starts_at, starts_of};
use crate::sight::{Seen, Sight};
use mc_apply_unfold::is_back;
use mc_base::{
    Args, EdgeId, Items, Kind, NULL, NoMemory, NodeId, PointId, PredId, StructId, VarId,
};
use mc_pure::ClassPlace;
use mc_state::graph::Edge;
use mc_state::{NodeKind, RawState};
use mc_symbolic::State;
use std::alloc::Global;

/// For how many nodes there is room at first.
const ROOM: usize = 16;

/// A node that was met: where it stands in its class, and its number in the head.
#[derive(Clone, Copy)]
struct Met {
    place: ClassPlace,
    number: NodeId,
}

/// The one value that a node can have.
fn value_at(state: &State, node: NodeId) -> Option<i64> {
    if state.is_false() || !state.is_there(node) {
        return None;
    }
    let range = state.range(node);
    if range.lo == range.hi {
        Some(range.lo)
    } else {
        None
    }
}

/// A look at a state that is on its way.
#[derive(Drop)]
struct Viewing<'a> {
    alloc: Global,
    sight: Sight<'a>,
    state: &'a State,
    point: PointId,
    starts: Vec<Option<ClassPlace>>,
    vars: Vec<Option<NodeId>>,
    met: Vec<Met>,
    kinds: Vec<NodeKind>,
    images: Vec<NodeId>,
    edges: Vec<Edge>,
    ids: Vec<EdgeId>,
    used: Vec<bool>,
}

impl Viewing<'_> {
    /// A new number for a node.
    fn add(&mut self, node: NodeId, kind: NodeKind) -> Result<NodeId, NoMemory> {
        let number = NodeId(self.kinds.len() as u64);
        self.kinds.push(kind)?;
        self.images.push(node)?;
        Ok(number)
    }

    /// The number of a pointer's node that was met.
    fn number_of(&self, place: &ClassPlace) -> Option<NodeId> {
        for each in self.met.as_slice() {
            if each.place == *place {
                return Some(each.number);
            }
        }
        None
    }

    /// The number of a pointer's node: 0 of null, one number for all equal nodes.
    fn pointer(&mut self, node: NodeId) -> Result<NodeId, NoMemory> {
        let Some(place) = pointer_place(self.state, node) else {
            return Ok(NULL);
        };
        if let Some(number) = self.number_of(&place) {
            return Ok(number);
        }
        let number = self.add(node, NodeKind::Ptr)?;
        self.met.push(Met { place, number })?;
        Ok(number)
    }

    /// The number of the node at a place of a kind. Each place of a number has one of its own.
    fn number(&mut self, kind: Kind, node: NodeId) -> Result<NodeId, NoMemory> {
        match kind {
            Kind::Int => self.add(node, NodeKind::Int),
            Kind::Ptr => self.pointer(node),
        }
    }

    /// Numbers the variables that count.
    fn number_variables(&mut self) -> Result<(), NoMemory> {
        for place in 0..self.state.env().len() {
            let x = VarId(place as u64);
            let kind = self.sight.var_kind(x);
            match self.sight.live_node(self.state, self.point, x) {
                Some(node) => {
                    let number = self.number(kind, node)?;
                    self.vars.push(Some(number))?;
                }
                None => self.vars.push(None)?,
            }
        }
        Ok(())
    }

    /// Whether an edge that was not taken starts at a node.
    fn has_edge_at(&self, node: NodeId) -> bool {
        for (place, entry) in self.state.edges().iter().enumerate() {
            if !self.is_used(place) && self.state.are_equal(entry.1.start(), node) {
                return true;
            }
        }
        false
    }

    /// The pointer of a variable that does not count otherwise, where an edge hangs on it that was not taken.
    fn holder(&self, x: VarId) -> Option<NodeId> {
        if self.sight.var_kind(x) != Kind::Ptr || self.sight.is_live(self.point, x) {
            return None;
        }
        let node = self.state.var(x)?;
        if self.state.are_equal(node, NULL) || !self.has_edge_at(node) {
            return None;
        }
        Some(node)
    }

    /// Numbers the variables that are read no more, but on which edges hang that no other variable before leads to. The place
    /// after in the list of nodes that were met.
    fn number_holders(&mut self, from: usize) -> Result<usize, NoMemory> {
        let mut next = from;
        for place in 0..self.state.env().len() {
            let Some(node) = self.holder(VarId(place as u64)) else {
                continue;
            };
            let number = self.pointer(node)?;
            if let Some(slot) = self.vars.get_mut(place) {
                *slot = Some(number);
            }
            next = self.follow(next)?;
        }
        Ok(next)
    }

    /// The numbers of the fields of a block; None for one that is not known or does not count.
    fn fields(
        &mut self,
        at: NodeId,
        shape: StructId,
        fields: &[Option<NodeId>],
    ) -> Result<Items<Option<NodeId>>, NoMemory> {
        let mut list = Vec::with_capacity(self.alloc, fields.len())?;
        for (place, field) in fields.iter().enumerate() {
            let number = match field {
                Some(node) => self.field(at, shape, place, *node)?,
                None => None,
            };
            list.push(number)?;
        }
        Ok(Items::of(list))
    }

    /// The number of a field that is known.
    fn field(
        &mut self,
        at: NodeId,
        shape: StructId,
        place: usize,
        node: NodeId,
    ) -> Result<Option<NodeId>, NoMemory> {
        if is_dead_field(&self.sight, self.state, self.point, at, shape, place) {
            return Ok(None);
        }
        let kind = self.sight.field_kind(shape, place);
        let number = self.number(kind, node)?;
        Ok(Some(number))
    }

    /// The numbers of arguments.
    fn args(&mut self, pred: PredId, args: &[NodeId]) -> Result<Args<NodeId>, NoMemory> {
        let mut list = Args::new(self.alloc);
        for (place, node) in args.iter().enumerate() {
            let kind = self.sight.param_kind(pred, place);
            let number = self.number(kind, *node)?;
            list.push(number)?;
        }
        Ok(list)
    }

    /// The edge with numbers for its nodes.
    fn numbered(&mut self, edge: &Edge) -> Result<Edge, NoMemory> {
        let start = self.pointer(edge.start())?;
        match edge {
            Edge::Block { at, shape, fields } => Ok(Edge::Block {
                at: start,
                shape: *shape,
                fields: self.fields(*at, *shape, fields.as_slice())?,
            }),
            Edge::Ind { pred, args, .. } => Ok(Edge::Ind {
                at: start,
                pred: *pred,
                args: self.args(*pred, args.as_slice())?,
            }),
            Edge::Seg {
                args,
                pred,
                end,
                end_args,
                ..
            } => {
                let args = self.args(*pred, args.as_slice())?;
                let end = self.pointer(*end)?;
                Ok(Edge::Seg {
                    at: start,
                    args,
                    pred: *pred,
                    end,
                    end_args: self.args(*pred, end_args.as_slice())?,
                })
            }
        }
    }

    /// Takes the edge at a place.
    fn take(&mut self, place: usize) -> Result<(), NoMemory> {
        let state = self.state;
        let Some(entry) = state.edges().get(place) else {
            return Ok(());
        };
        if let Some(slot) = self.used.get_mut(place) {
            *slot = true;
        }
        let edge = self.numbered(&entry.1)?;
        self.edges.push(edge)?;
        self.ids.push(entry.0)?;
        Ok(())
    }

    /// Whether the edge at a place was taken.
    fn is_used(&self, place: usize) -> bool {
        self.used.as_slice().get(place).copied().unwrap_or(true)
    }

    /// Takes the edges that start at a node that was met.
    fn take_at(&mut self, met: Met) -> Result<(), NoMemory> {
        for place in 0..self.state.edges().len() {
            if !self.is_used(place) && starts_at(self.starts.as_slice(), place, met.place) {
                self.take(place)?;
            }
        }
        Ok(())
    }

    /// Takes all edges that can be reached from the nodes that were met, from a place in their list on. The place after.
    fn follow(&mut self, from: usize) -> Result<usize, NoMemory> {
        let mut next = from;
        for _ in 0..self.state.nodes().len() {
            let Some(met) = self.met.as_slice().get(next).copied() else {
                return Ok(next);
            };
            next += 1;
            self.take_at(met)?;
        }
        Ok(next)
    }

    /// Whether a pointer's node was met.
    fn has_met(&self, node: NodeId) -> bool {
        match pointer_place(self.state, node) {
            Some(place) => self.number_of(&place).is_some(),
            None => false,
        }
    }

    /// Whether an edge is a segment that can be found from its end: an argument there at a back position was met.
    fn is_found_back(&self, edge: &Edge) -> bool {
        let Edge::Seg { pred, end_args, .. } = edge else {
            return false;
        };
        for (place, node) in end_args.as_slice().iter().enumerate() {
            if self.has_met(*node) && is_back(self.sight.defs.as_slice(), *pred, place) {
                return true;
            }
        }
        false
    }

    /// The place of an edge that was not taken, and is to be taken next.
    fn left_over(&self) -> Option<usize> {
        for (place, entry) in self.state.edges().iter().enumerate() {
            if !self.is_used(place) && (self.sight.all || self.is_found_back(&entry.1)) {
                return Some(place);
            }
        }
        None
    }

    /// Takes all edges that count.
    fn take_all(&mut self) -> Result<(), NoMemory> {
        let mut next = self.follow(0)?;
        if self.sight.all {
            next = self.number_holders(next)?;
        }
        for _ in 0..self.state.edges().len() {
            let Some(place) = self.left_over() else {
                return Ok(());
            };
            self.take(place)?;
            next = self.follow(next)?;
        }
        Ok(())
    }

    /// Whether all edges were taken.
    fn has_all(&self) -> bool {
        for used in self.used.as_slice() {
            if !*used {
                return false;
            }
        }
        true
    }

    /// What was seen.
    fn seen(self, flags: Vec<(VarId, i64)>, whole: bool) -> Seen {
        Seen {
            raw: RawState {
                vars: Items::of(self.vars),
                kinds: Items::of(self.kinds),
                edges: Items::of(self.edges),
                atoms: Items::new(self.alloc),
                whole,
            },
            images: self.images,
            edges: self.ids,
            flags,
            used: self.used,
        }
    }

    /// The values of the variables that hold constants alone.
    fn flags(&self) -> Result<Vec<(VarId, i64)>, NoMemory> {
        let mut flags = Vec::new(self.alloc);
        for place in 0..self.state.env().len() {
            let x = VarId(place as u64);
            if !self.sight.is_constant(x) {
                continue;
            }
            if let Some(node) = self.sight.live_node(self.state, self.point, x) {
                if let Some(value) = value_at(self.state, node) {
                    flags.push((x, value))?;
                }
            }
        }
        Ok(flags)
    }
}

/// Looks at a state, which must not be false, from the variables that count at a point. Where all edges count, variables that
/// are read no more count too, as far as edges hang on them that no other one leads to.
pub fn look(
    alloc: Global,
    sight: Sight<'_>,
    state: &State,
    point: PointId,
) -> Result<Seen, NoMemory> {
    let count = state.edges().len();
    let mut look = Viewing {
        alloc,
        sight,
        state,
        point,
        starts: starts_of(alloc, state)?,
        vars: Vec::with_capacity(alloc, state.env().len())?,
        met: Vec::with_capacity(alloc, ROOM)?,
        kinds: Vec::with_capacity(alloc, ROOM)?,
        images: Vec::with_capacity(alloc, ROOM)?,
        edges: Vec::with_capacity(alloc, count)?,
        ids: Vec::with_capacity(alloc, count)?,
        used: vec![in alloc; false; count]?,
    };
    look.add(NULL, NodeKind::Zero)?;
    look.number_variables()?;
    look.take_all()?;
    let whole = sight.all && state.is_whole() && look.has_all();
    let flags = look.flags()?;
    Ok(look.seen(flags, whole))
}
