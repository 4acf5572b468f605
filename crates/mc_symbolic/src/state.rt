// Symbolic states.
ghost use Rattle.std.specs.Prelude.{◌≡◌, ◌↔◌, ◌∷◌, [], IfOk, OnOk, OnErr, IsTrue, Some, None, false, option_and_then, option_map, map, replicate};
ghost use Rattle.std.specs.List.{AllByRecursion};
ghost use Rattle.std.specs.Option.{option_copied};
ghost use Rattle.mc_base.specs.declared.plain.Atom.{Atom as Fact};
ghost use Rattle.mc_base.specs.Nodes.{moved};
ghost use Rattle.mc_state.specs.Graph.Edges.{nodes_of, with_field_node};
ghost use Rattle.mc_state.specs.Graph.Graph.{edge_with, without, replaced, block_starts};
ghost use Rattle.mc_pure.specs.Pure.{IsNode, IsWellFormed, kind_of};
ghost use Rattle.mc_pure.specs.Derived.{Follows, HasRange, IsFalse as IsFalsePure};
ghost use Rattle.mc_pure.specs.Canonical.{IsCanonical};
ghost use Rattle.mc_pure.specs.Rows.{nodes_of as all_nodes};
ghost use Rattle.mc_state.specs.State.{unknown, pure_of, var_node, next_node, with_var, with_nodes, with_atom, with_edges, with_only_edges};
ghost use Rattle.mc_state.specs.Facts.{Derives, IsFalse, AreEqual, AreAllEqual, CanMerge, merged, instead};
ghost use Rattle.mc_state.specs.Fits.{IsBounded, AreNodes};
ghost use Rattle.mc_state.specs.Known.{Test, Tells, is_false, equal, all_equal, same_kind, has_kind};
ghost use Rattle.mc_symbolic.specs.Starts.{HaveSameNodes, block_start};

use crate::edges::Graph;
use mc_base::ranges::Range;
use mc_base::{Atom, EdgeId, Items, Kind, NoMemory, NodeId, VarId};
use mc_pure::Pure;
use mc_state::graph::Edge;
use std::alloc::{AllocError, Global};
use std::marker::Model;

/// What is known at a point of a run: the node of each variable, where it is known; the edges; the nodes with their
/// kinds and the atoms that were written, closed; the least number that was no node yet; and whether the edges are all
/// that is allocated. What is entailed is asked without a search.
pub struct State {
    env: Items<Option<NodeId>>,
    graph: Graph,
    pure: Pure,
    next: u64,
    whole: bool,
}

/// Drops the state. What holds one calls this.
impl Drop for State {
    fn drop(self) {
        let State {
            env,
            graph,
            pure,
            next: _,
            whole: _,
        } = self;
        drop(env);
        drop(graph);
        drop(pure);
    }
}

impl Model for State {
    ghost use Rattle.mc_state.specs.State.{State as Symbolic};

    ghost Value = { Symbolic };

    ghost use Rattle.mc_symbolic.specs.Kept.{seen, IsKept};

    ghost view = { seen };

    ghost invariant = { IsKept };
}

impl State {
    /// The state of a run that begins: no variable is known, and nothing is allocated.
    pub fn unknown(alloc: Global, vars: usize) -> Result<State, NoMemory>
        ensures { IfOk result (λ s. s ≡ unknown vars) }
    {
        mc_state::numbers_stay_bounded();
        let env = no_vars(alloc, vars)?;
        let pure = Pure::new(alloc)?;
        Ok(State {
            env: Items::of(env),
            graph: Graph::new(alloc),
            pure,
            next: 1,
            whole: true,
        })
    }

    /// The same state again.
    pub fn copy(&self, alloc: Global) -> Result<State, NoMemory>
        ensures { IfOk result (λ s. s ≡ self.now) }
    {
        Ok(State {
            env: self.env.copy(alloc)?,
            graph: self.graph.copy()?,
            pure: self.pure.copy()?,
            next: self.next,
            whole: self.whole,
        })
    }

    /// The numbers of a state are in their bounds, all nodes that it names are there, and its atoms are such as may be
    /// written.
    pub fn is_bounded(&self)
        ensures bounded { IsBounded self.now }
        ensures atoms { AllByRecursion (IsWellFormed self.now.kinds) self.now.atoms }
    {
        let _graph = &self.graph;
    }

    /// The node of a variable, where it is known.
    pub fn var(&self, x: VarId) -> Option<NodeId>
        ensures { result ≡ var_node self.now x }
    {
        self.env.as_slice().get(x.0 as usize).copied().flatten()
    }

    /// The node of each variable, where it is known.
    pub fn env(&self) -> &[Option<NodeId>]
        ensures { result.now ≡ self.now.env }
    {
        self.env.as_slice()
    }

    /// The kind of a node other than 0. None for node 0, and where the node is not there.
    pub fn kind(&self, node: NodeId) -> Option<Kind>
        ensures { result ≡ kind_of self.now.kinds node }
    {
        self.pure.kind(node)
    }

    /// Whether the node is of the kind. Node 0 is of every kind.
    #[tactic(auto, unfolding(mc_state::specs::Known::has_kind))]
    pub fn has_kind(&self, kind: Kind, node: NodeId) -> bool
        ensures { result ≡ has_kind self.now.kinds kind node }
    {
        if node.0 == 0 {
            return true;
        }
        match self.pure.kind(node) {
            Some(own) => same_kind(own, kind),
            None => false,
        }
    }

    /// Whether the node is there.
    pub fn is_there(&self, node: NodeId) -> bool
        ensures { IsTrue result ↔ IsNode self.now.kinds node }
    {
        self.pure.has(node)
    }

    /// All nodes, ascending.
    pub fn nodes(&self) -> &[NodeId]
        ensures { result.now ≡ all_nodes self.now.kinds }
    {
        self.pure.nodes()
    }

    /// Whether the edges are all that is allocated.
    pub fn is_whole(&self) -> bool
        ensures { result ≡ self.now.whole }
    {
        self.whole
    }

    /// The node that would be the next new one.
    pub fn next_node(&self) -> NodeId
        ensures { result ≡ next_node self.now }
    {
        NodeId(self.next)
    }

    /// The edges with their ids, which ascend.
    pub fn edges(&self) -> &[(EdgeId, Edge)]
        ensures { result.now ≡ self.now.graph.edges }
    {
        self.graph.edges()
    }

    /// The edge with an id.
    pub fn edge(&self, id: EdgeId) -> Option<&Edge>
        ensures { option_copied result ≡ edge_with self.now.graph.edges id }
    {
        self.graph.get(id)
    }

    /// The written atoms, in order.
    pub fn atoms(&self) -> &[Atom]
        ensures { result.now ≡ self.now.atoms }
    {
        self.pure.written()
    }

    /// Whether the atom may be assumed: its nodes are there, two of one kind, and its numbers within their bounds.
    pub fn allows(&self, atom: &Atom) -> bool
        ensures { IsTrue result ↔ IsWellFormed self.now.kinds atom.now }
    {
        self.pure.allows(atom)
    }

    /// Whether the atom is entailed.
    pub fn knows(&self, atom: &Atom) -> bool
        ensures told { (know : Test) → Tells know self.now → result ≡ know atom.now }
        ensures derived { IsTrue result ↔ Derives self.now atom.now }
    {
        mc_pure::derived_grows();
        self.pure.entails(atom)
    }

    /// Whether nothing stands for the state: what is known can't be true.
    pub fn is_false(&self) -> bool
        ensures told { (know : Test) → Tells know self.now → result ≡ is_false know }
        ensures derived { IsTrue result ↔ IsFalse self.now }
    {
        mc_pure::derived_grows();
        mc_state::tests_tell();
        self.pure.is_false()
    }

    /// Whether the nodes are entailed equal.
    pub fn are_equal(&self, a: NodeId, b: NodeId) -> bool
        ensures told { (know : Test) → Tells know self.now → result ≡ equal know a b }
        ensures derived { IsTrue result ↔ AreEqual self.now a b }
    {
        self.knows(&Atom::Eq(a, b, 0))
    }

    /// Whether the nodes of two lists are entailed equal one by one, and the lists are of one length.
    pub fn are_all_equal(&self, xs: &[NodeId], ys: &[NodeId]) -> bool
        ensures told { (know : Test) → Tells know self.now → result ≡ all_equal know xs.now ys.now }
        ensures derived { IsTrue result ↔ AreAllEqual self.now xs.now ys.now }
    {
        if xs.len() != ys.len() {
            return false;
        }
        for (i, x) in xs.iter().enumerate() {
            if !self.are_equal(*x, ys[i]) {
                return false;
            }
        }
        true
    }

    /// The least range that is entailed of a node, where what is known can be true.
    pub fn range(&self, node: NodeId) -> Range
        requires there { IsNode self.now.kinds node }
        requires not_false { IsFalse self.now → ⊥ }
        ensures { HasRange (pure_of self.now) node result.lo result.hi }
    {
        mc_pure::derived_grows();
        self.pure.range(node)
    }

    /// Gives a variable a node, or forgets its node. Past the last variable nothing changes.
    pub fn set_var(&mut self, x: VarId, node: Option<NodeId>)
        requires { (n : _) → node ≡ Some n → IsNode self.old.kinds n }
        ensures { self.new ≡ with_var self.old x node }
    {
        mc_state::numbers_stay_bounded();
        self.env.set(x.0 as usize, node);
    }

    /// Adds a new node of a kind, and answers it. Without memory, or where no number is left, nothing changes.
    pub fn add_node(&mut self, kind: Kind) -> Result<NodeId, NoMemory>
        ensures node { IfOk result (λ n. n ≡ next_node self.old) }
        ensures ok { OnOk result (self.new ≡ with_nodes self.old (kind ∷ [])) }
        ensures err { OnErr result (self.new ≡ self.old) }
    {
        mc_state::numbers_stay_bounded();
        mc_state::nodes_are_there();
        if self.next == u64::MAX {
            return Err(AllocError);
        }
        let node = NodeId(self.next);
        self.pure.node(node, kind)?;
        self.next += 1;
        Ok(node)
    }

    /// Adds an atom to the written ones. Without memory nothing changes.
    pub fn assume(&mut self, atom: &Atom) -> Result<(), NoMemory>
        requires { IsWellFormed self.old.kinds atom.now }
        ensures ok { OnOk result (self.new ≡ with_atom self.old atom.now) }
        ensures err { OnErr result (self.new ≡ self.old) }
    {
        mc_state::numbers_stay_bounded();
        self.pure.assume(atom)?;
        Ok(())
    }

    /// Adds an edge, and answers its id. Without memory, or where no number is left, nothing changes.
    pub fn add_edge(&mut self, edge: Edge) -> Result<EdgeId, NoMemory>
        requires { AreNodes self.old.kinds (nodes_of edge) }
        ensures id { IfOk result (λ id. id.0 ≡ self.old.graph.next) }
        ensures ok { OnOk result (self.new ≡ with_edges self.old (edge ∷ [])) }
        ensures err { OnErr result (self.new ≡ self.old) }
    {
        mc_state::numbers_stay_bounded();
        let start = block_start(&edge);
        let id = self.graph.add(edge)?;
        match start {
            Some(at) => match self.pure.block(at) {
                Ok(()) => Ok(id),
                Err(full) => {
                    self.graph.take_back();
                    Err(full)
                }
            },
            None => Ok(id),
        }
    }

    /// Takes an edge out, where it is there, and what followed from its block alone. Without memory nothing changes.
    pub fn take_edge(&mut self, id: EdgeId) -> Result<Option<Edge>, NoMemory>
        ensures edge { IfOk result (λ e. e ≡ edge_with self.old.graph.edges id) }
        ensures ok { OnOk result (self.new ≡ with_only_edges self.old (without self.old.graph.edges id)) }
        ensures err { OnErr result (self.new ≡ self.old) }
    {
        mc_state::numbers_stay_bounded();
        match start_with(&self.graph, id) {
            Some(at) => {
                self.pure.unblock(at)?;
                Ok(self.graph.remove(id))
            }
            None => Ok(self.graph.remove(id)),
        }
    }

    /// Gives a field of a block a node, where the block and the field are there.
    pub fn set_field(&mut self, id: EdgeId, f: u64, node: NodeId)
        requires { IsNode self.old.kinds node }
        ensures there { (e : _) → edge_with self.old.graph.edges id ≡ Some e → self.new
            ≡ with_only_edges self.old (replaced self.old.graph.edges id (with_field_node f node e)) }
        ensures absent { edge_with self.old.graph.edges id ≡ None → self.new ≡ self.old }
    {
        mc_state::numbers_stay_bounded();
        mc_state::nodes_are_there();
        self.graph.set_field(id, f, node);
    }

    /// Puts one node in place of another everywhere, as where they are equal. Without memory nothing changes.
    pub fn merge(&mut self, alloc: Global, keep: NodeId, gone: NodeId) -> Result<(), NoMemory>
        requires { CanMerge self.old.kinds keep gone }
        ensures ok { OnOk result (self.new ≡ merged keep gone self.old) }
        ensures err { OnErr result (self.new ≡ self.old) }
    {
        mc_state::numbers_stay_bounded();
        let env = moved_vars(alloc, self.env.as_slice(), keep, gone)?;
        let pure = mc_pure_ops::renamed::merge(alloc, &self.pure, keep, gone)?;
        self.graph.merge(keep, gone)?;
        self.env = Items::of(env);
        self.pure = pure;
        Ok(())
    }

    /// What is known of the nodes. What follows from it follows in the state, and nothing else does.
    pub fn known(&self) -> &Pure
        ensures kinds { result.now.kinds ≡ self.now.kinds }
        ensures atoms { result.now.written ≡ self.now.atoms }
        ensures starts { HaveSameNodes result.now.starts (block_starts self.now.graph.edges) }
        ensures follows { (f : Fact) → Follows result.now f ↔ Follows (pure_of self.now) f }
        ensures is_false { IsFalsePure result.now ↔ IsFalse self.now }
    {
        mc_pure::derived_grows();
        &self.pure
    }

    /// The canonical list of what is known of the nodes.
    pub fn canon(&self, alloc: Global) -> Result<Vec<Atom>, NoMemory>
        ensures { IfOk result (λ list. IsCanonical (pure_of self.now) list.items) }
    {
        mc_pure::derived_grows();
        mc_pure_ops::canon::canon(alloc, &self.pure)
    }

    /// Puts other nodes and atoms in place of those that are known, where blocks start as before.
    pub fn put_known(&mut self, pure: Pure)
        requires starts { HaveSameNodes pure.starts (block_starts self.old.graph.edges) }
        requires bounded { IsBounded (record self.old { kinds = pure.kinds; atoms = pure.written }) }
        requires atoms { AllByRecursion (IsWellFormed pure.kinds) pure.written }
        ensures { self.new ≡ record self.old { kinds = pure.kinds; atoms = pure.written } }
    {
        self.pure = pure;
    }

    /// From now on the edges need not be all that is allocated.
    pub fn clear_whole(&mut self)
        ensures { self.new ≡ record self.old { whole = false } }
    {
        self.whole = false;
    }
}

/// The nodes of variables with one node in place of another.
fn moved_vars(
    alloc: Global,
    env: &[Option<NodeId>],
    keep: NodeId,
    gone: NodeId,
) -> Result<Vec<Option<NodeId>>, NoMemory>
    ensures { IfOk result (λ list. list.items ≡ map (option_map (moved (instead keep.0 gone.0))) env.now) }
{
    let mut list = Vec::with_capacity(alloc, env.len())?;
    for var in env {
        list.push(var.map(|node| moved(keep, gone, node)))?;
    }
    Ok(list)
}

/// One node in place of another.
fn moved(keep: NodeId, gone: NodeId, node: NodeId) -> NodeId
    ensures { result ≡ moved (instead keep.0 gone.0) node }
{
    if node.0 == gone.0 { keep } else { node }
}

/// Variables of which none has a node.
fn no_vars(alloc: Global, vars: usize) -> Result<Vec<Option<NodeId>>, NoMemory>
    ensures { IfOk result (λ env. env.items ≡ replicate vars None) }
{
    vec![in alloc; None; vars]
}

/// The node at which a block starts; None for another edge.
fn block_start(edge: &Edge) -> Option<NodeId>
    ensures { result ≡ block_start edge.now }
{
    match edge {
        Edge::Block { at, .. } => Some(*at),
        Edge::Ind { .. } => None,
        Edge::Seg { .. } => None,
    }
}

/// The node at which the block with an id starts; None where there is none.
fn start_with(graph: &Graph, id: EdgeId) -> Option<NodeId>
    ensures { result ≡ option_and_then block_start (edge_with graph.now.edges id) }
{
    match graph.get(id) {
        Some(edge) => block_start(edge),
        None => None,
    }
}

/// Whether two kinds are one.
fn same_kind(a: Kind, b: Kind) -> bool
    ensures { result ≡ same_kind a b }
{
    match (a, b) {
        (Kind::Int, Kind::Int) => true,
        (Kind::Int, Kind::Ptr) => false,
        (Kind::Ptr, Kind::Int) => false,
        (Kind::Ptr, Kind::Ptr) => true,
    }
}
