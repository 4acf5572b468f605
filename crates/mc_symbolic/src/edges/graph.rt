// The edges of a state, each with its id.
ghost use Rattle.std.specs.Prelude.{◌≡◌, ◌≢◌, ◌∷◌, ◌++◌, [], ◌≤◌, ◌<◌, ◌+◌, IfOk, OnOk, OnErr, MatchOption, Some, None, true, false, slice_get, slice_set, length, map, option_map};
ghost use Rattle.std.specs.Option.{option_copied};
ghost use Rattle.mc_state.specs.Graph.Edges.{with_field_node, moved_edge};
ghost use Rattle.mc_base.specs.Nodes.{moved};
ghost use Rattle.mc_state.specs.Graph.Graph.{IdsAscend, no_edges, edge_with, without, replaced, with_new, with_only, moved_graph};
ghost use Rattle.mc_state.specs.Facts.{instead};
ghost use Rattle.mc_symbolic.specs.Edges.Places.{DoAscend, IsPlace, IsAbsent, StandsAt, ids_at};

use mc_base::{Args, EdgeId, Items, NoMemory, NodeId};
use mc_state::graph::Edge;
use std::alloc::{AllocError, Global};
use std::marker::Model;

/// The edges of a state in the order of their ids, and the least number that was the id of none yet.
pub struct Graph {
    edges: Vec<(EdgeId, Edge)>,
    next: u64,
}

/// Drops the edges. What holds a graph calls this.
impl Drop for Graph {
    fn drop(self) {
        let Graph { edges, next: _ } = self;
        drop(edges);
    }
}

impl Model for Graph {
    ghost use Rattle.mc_state.specs.Graph.Graph.{Graph as Numbered, IdsAscend};

    ghost Value = { Numbered };

    ghost view = { λ g. record { edges = g.edges.items; next = g.next } };

    ghost invariant = { λ g. IdsAscend 0 g.edges.items g.next };
}

/// The place of the edge with an id, or where it belongs.
fn place_in(edges: &[(EdgeId, Edge)], id: EdgeId) -> usize
    requires { DoAscend edges.now }
    ensures place { IsPlace edges.now id result }
    ensures bound { result ≤ length edges.now }
{
    let mut low = 0;
    let mut high = edges.len();
    while low < high {
        let middle = low + (high - low) / 2;
        if edges[middle].0.0 < id.0 {
            low = middle + 1;
        } else {
            high = middle;
        }
    }
    low
}

/// Whether the edge at a place has the id.
fn stands_at(edges: &[(EdgeId, Edge)], id: EdgeId, place: usize) -> bool
    ensures yes { result ≡ true → (place < length edges.now) × ((e : _) → slice_get edges.now place ≡ Some e → e.0 ≡ id) }
    ensures no { result ≡ false → (e : _) → slice_get edges.now place ≡ Some e → e.0 ≢ id }
{
    match edges.get(place) {
        Some(e) => e.0.0 == id.0,
        None => false,
    }
}

/// The place of the edge with an id. The ids are below a number.
fn find(edges: &[(EdgeId, Edge)], next: u64, id: EdgeId) -> Option<usize>
    requires { IdsAscend 0 edges.now next }
    ensures { MatchOption result (IsAbsent edges.now id) (λ i. StandsAt edges.now id i) }
{
    let place = place_in(edges, id);
    if stands_at(edges, id, place) {
        Some(place)
    } else {
        None
    }
}

/// Puts an edge in place of the one at a place.
fn put_at(edges: &mut Vec<(EdgeId, Edge)>, id: EdgeId, place: usize, edge: Edge)
    requires { place < length edges.old.items }
    ensures { edges.new.items ≡ slice_set edges.old.items place (id, edge) }
{
    edges[place] = (id, edge);
}

/// Gives a field of the block at a place a node.
fn set_field_at(edges: &mut Vec<(EdgeId, Edge)>, place: usize, f: u64, node: NodeId)
    requires { place < length edges.old.items }
    ensures { (e : _) → slice_get edges.old.items place ≡ Some e → edges.new.items
        ≡ slice_set edges.old.items place (e.0, with_field_node f node e.1) }
{
    let e = &mut edges[place];
    e.1.set_field(f, node);
}

/// Whether the last edge has the id before this number.
fn is_last(edges: &[(EdgeId, Edge)], next: u64) -> bool
    ensures yes { result ≡ true → (0 < length edges.now) × (0 < next) }
    ensures no { result ≡ false → (es : _) (e : _) → edges.now ≡ es ++ e ∷ [] → e.0.0 + 1 ≡ next → ⊥ }
{
    match edges.last() {
        Some(e) => next > 0 && e.0.0 == next - 1,
        None => false,
    }
}

/// One node in place of another.
fn moved(keep: NodeId, gone: NodeId, node: NodeId) -> NodeId
    ensures { result ≡ moved (instead keep.0 gone.0) node }
{
    if node.0 == gone.0 { keep } else { node }
}

/// The same nodes with one in place of another.
fn moved_nodes(
    alloc: Global,
    keep: NodeId,
    gone: NodeId,
    nodes: &[NodeId],
) -> Result<Args<NodeId>, NoMemory>
    ensures { IfOk result (λ list. list ≡ map (moved (instead keep.0 gone.0)) nodes.now) }
{
    let mut list = Args::new(alloc);
    for node in nodes {
        list.push(moved(keep, gone, *node))?;
    }
    Ok(list)
}

/// The same fields with one node in place of another.
fn moved_fields(
    alloc: Global,
    keep: NodeId,
    gone: NodeId,
    fields: &[Option<NodeId>],
) -> Result<Items<Option<NodeId>>, NoMemory>
    ensures { IfOk result (λ list. list ≡ map (option_map (moved (instead keep.0 gone.0))) fields.now) }
{
    let mut list = Vec::with_capacity(alloc, fields.len())?;
    for field in fields {
        list.push(field.map(|node| moved(keep, gone, node)))?;
    }
    Ok(Items::of(list))
}

/// The edge with one node in place of another.
fn moved_edge(alloc: Global, keep: NodeId, gone: NodeId, edge: &Edge) -> Result<Edge, NoMemory>
    ensures { IfOk result (λ e. e ≡ moved_edge (instead keep.0 gone.0) edge.now) }
{
    match edge {
        Edge::Block { at, shape, fields } => {
            let fields = moved_fields(alloc, keep, gone, fields.as_slice())?;
            Ok(Edge::Block {
                at: moved(keep, gone, *at),
                shape: *shape,
                fields,
            })
        }
        Edge::Ind { at, pred, args } => {
            let args = moved_nodes(alloc, keep, gone, args.as_slice())?;
            Ok(Edge::Ind {
                at: moved(keep, gone, *at),
                pred: *pred,
                args,
            })
        }
        Edge::Seg {
            at,
            args,
            pred,
            end,
            end_args,
        } => {
            let args = moved_nodes(alloc, keep, gone, args.as_slice())?;
            let end_args = moved_nodes(alloc, keep, gone, end_args.as_slice())?;
            Ok(Edge::Seg {
                at: moved(keep, gone, *at),
                args,
                pred: *pred,
                end: moved(keep, gone, *end),
                end_args,
            })
        }
    }
}

/// The edges with one node in place of another.
fn moved_edges(
    alloc: Global,
    keep: NodeId,
    gone: NodeId,
    edges: &[(EdgeId, Edge)],
) -> Result<Vec<(EdgeId, Edge)>, NoMemory>
    ensures { IfOk result (λ list. list.items ≡ map (λ e. (e.0, moved_edge (instead keep.0 gone.0) e.1)) edges.now) }
{
    let mut list = Vec::with_capacity(alloc, edges.len())?;
    for e in edges {
        list.push((e.0, moved_edge(alloc, keep, gone, &e.1)?))?;
    }
    Ok(list)
}

/// The same edges again.
fn copied(alloc: Global, edges: &[(EdgeId, Edge)]) -> Result<Vec<(EdgeId, Edge)>, NoMemory>
    ensures { IfOk result (λ list. list.items ≡ edges.now) }
{
    let mut list = Vec::with_capacity(alloc, edges.len())?;
    for e in edges {
        list.push((e.0, e.1.copy(alloc)?))?;
    }
    Ok(list)
}

/// Adds the ids of the edges that start at a node.
fn push_ids(ids: &mut Vec<EdgeId>, edges: &[(EdgeId, Edge)], node: NodeId) -> Result<(), NoMemory>
    ensures { OnOk result (ids.new.items ≡ ids.old.items ++ ids_at edges.now node) }
{
    for e in edges {
        if e.1.start().0 == node.0 {
            ids.push(e.0)?;
        }
    }
    Ok(())
}

impl Graph {
    /// No edges.
    pub fn new(alloc: Global) -> Graph
        ensures { result ≡ no_edges }
    {
        Graph {
            edges: Vec::new(alloc),
            next: 0,
        }
    }

    /// The same graph again.
    pub fn copy(&self) -> Result<Graph, NoMemory>
        ensures { IfOk result (λ graph. graph ≡ self.now) }
    {
        let alloc = *self.edges.allocator();
        Ok(Graph {
            edges: copied(alloc, self.edges.as_slice())?,
            next: self.next,
        })
    }

    /// How many edges there are.
    pub fn len(&self) -> usize
        ensures { result ≡ length self.now.edges }
    {
        self.edges.len()
    }

    /// The edges with their ids, which ascend.
    pub fn edges(&self) -> &[(EdgeId, Edge)]
        ensures edges { result.now ≡ self.now.edges }
        ensures ids { IdsAscend 0 self.now.edges self.now.next }
    {
        self.edges.as_slice()
    }

    /// The edge with an id.
    pub fn get(&self, id: EdgeId) -> Option<&Edge>
        ensures { option_copied result ≡ edge_with self.now.edges id }
    {
        match find(self.edges.as_slice(), self.next, id) {
            Some(place) => Some(&self.edges[place].1),
            None => None,
        }
    }

    /// Adds an edge and answers its id. Without memory, or where no number is left for an id, nothing changes.
    pub fn add(&mut self, edge: Edge) -> Result<EdgeId, NoMemory>
        ensures id { IfOk result (λ id. id.0 ≡ self.old.next) }
        ensures ok { OnOk result (self.new ≡ with_new self.old (edge ∷ [])) }
        ensures err { OnErr result (self.new ≡ self.old) }
    {
        if self.next == u64::MAX {
            return Err(AllocError);
        }
        let id = EdgeId(self.next);
        self.edges.push((id, edge))?;
        self.next += 1;
        Ok(id)
    }

    /// Takes the edge back that was added last.
    pub fn take_back(&mut self)
        ensures { (g : _) (e : _) → self.old ≡ with_new g (e ∷ []) → self.new ≡ g }
    {
        if is_last(self.edges.as_slice(), self.next) {
            let _ = self.edges.pop();
            self.next -= 1;
        }
    }

    /// Takes an edge out, where it is there.
    pub fn remove(&mut self, id: EdgeId) -> Option<Edge>
        ensures edge { result ≡ edge_with self.old.edges id }
        ensures left { self.new ≡ with_only self.old (without self.old.edges id) }
    {
        match find(self.edges.as_slice(), self.next, id) {
            Some(place) => Some(self.edges.remove(place).1),
            None => None,
        }
    }

    /// Puts another edge in place of one, where that is there.
    pub fn put(&mut self, id: EdgeId, edge: Edge)
        ensures { self.new ≡ with_only self.old (replaced self.old.edges id edge) }
    {
        match find(self.edges.as_slice(), self.next, id) {
            Some(place) => put_at(&mut self.edges, id, place, edge),
            None => {}
        }
    }

    /// Gives a field of a block a node, where the block and the field are there.
    pub fn set_field(&mut self, id: EdgeId, f: u64, node: NodeId)
        ensures there { (e : _) → edge_with self.old.edges id ≡ Some e → self.new
            ≡ with_only self.old (replaced self.old.edges id (with_field_node f node e)) }
        ensures absent { edge_with self.old.edges id ≡ None → self.new ≡ self.old }
    {
        match find(self.edges.as_slice(), self.next, id) {
            Some(place) => set_field_at(&mut self.edges, place, f, node),
            None => {}
        }
    }

    /// The ids of the edges that start at a node, in order.
    pub fn edges_at(&self, node: NodeId) -> Result<Vec<EdgeId>, NoMemory>
        ensures { IfOk result (λ ids. ids.items ≡ ids_at self.now.edges node) }
    {
        let mut ids = Vec::new(*self.edges.allocator());
        push_ids(&mut ids, self.edges.as_slice(), node)?;
        Ok(ids)
    }

    /// Puts one node in place of another in all edges. Without memory nothing changes.
    pub fn merge(&mut self, keep: NodeId, gone: NodeId) -> Result<(), NoMemory>
        ensures ok { OnOk result (self.new ≡ moved_graph (instead keep.0 gone.0) self.old) }
        ensures err { OnErr result (self.new ≡ self.old) }
    {
        let alloc = *self.edges.allocator();
        self.edges = moved_edges(alloc, keep, gone, self.edges.as_slice())?;
        Ok(())
    }
}
