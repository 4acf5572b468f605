// Whether variables, edges and atoms that are written fit the nodes of a state, definitions and structs.
ghost use Rattle.std.specs.Prelude.{◌≡◌, ◌↔◌, IsTrue, Some, length, map};
ghost use Rattle.mc_pure.specs.Pure.{HasKind};
ghost use Rattle.mc_state.specs.Fits.{HaveKinds, MayHaveKind, MayHaveKinds, ArgsFit, EdgeFitsDefs, EdgeFitsStructs};
ghost use Rattle.mc_state_io.specs.Raw.Raw.{ContentsFit, RulesFit, RuleFits, EdgeFits, AllEdgesFit, AllAtomsFit, PiecesFit};

use mc_base::{Atom, Kind, NodeId, PredId, StructId, VarInfo};
use mc_flow::defs::{Def, FieldInfo, Rule, StructInfo};
use mc_state::RawState;
use mc_state::graph::Edge;
use mc_symbolic::State;

/// Whether a node is of a kind.
fn has_kind(state: &State, kind: Kind, node: NodeId) -> bool
    ensures { IsTrue result ↔ HasKind state.now.kinds kind node }
{
    // for the proof alone
    mc_state::tests_tell();
    state.has_kind(kind, node)
}

/// Whether nodes are one for each kind, of that kind.
fn have_kinds(state: &State, kinds: &[Kind], nodes: &[NodeId]) -> bool
    ensures { IsTrue result ↔ HaveKinds state.now.kinds kinds.now nodes.now }
{
    if kinds.len() != nodes.len() {
        return false;
    }
    for i in 0..kinds.len() {
        if !has_kind(state, kinds[i], nodes[i]) {
            return false;
        }
    }
    true
}

/// Whether a node is of a kind, or unknown.
fn may_have_kind(state: &State, kind: Kind, node: Option<NodeId>) -> bool
    ensures { IsTrue result ↔ MayHaveKind state.now.kinds kind node }
{
    match node {
        Some(n) => has_kind(state, kind, n),
        None => true,
    }
}

/// Whether there is an entry for each variable, unknown or of its kind.
fn all_vars_fit(state: &State, vars: &[VarInfo], nodes: &[Option<NodeId>]) -> bool
    ensures { IsTrue result ↔ MayHaveKinds state.now.kinds (map (λ x. x.kind) vars.now) nodes.now }
{
    if vars.len() != nodes.len() {
        return false;
    }
    for i in 0..vars.len() {
        if !may_have_kind(state, vars[i].kind, nodes[i]) {
            return false;
        }
    }
    true
}

/// Whether there is an entry for each field, unknown or of its kind.
fn all_fields_fit(state: &State, fields: &[FieldInfo], nodes: &[Option<NodeId>]) -> bool
    ensures { IsTrue result ↔ MayHaveKinds state.now.kinds (map (λ f. f.kind) fields.now) nodes.now }
{
    if fields.len() != nodes.len() {
        return false;
    }
    for i in 0..fields.len() {
        if !may_have_kind(state, fields[i].kind, nodes[i]) {
            return false;
        }
    }
    true
}

/// Whether arguments fit a predicate of the list.
fn args_fit(state: &State, defs: &[Def], pred: PredId, args: &[NodeId]) -> bool
    ensures { IsTrue result ↔ ArgsFit defs.now state.now.kinds pred args.now }
{
    match defs.get(pred.0 as usize) {
        Some(def) => have_kinds(state, def.params.as_slice(), args),
        None => false,
    }
}

/// Whether a rule is not of the struct, or has as many contents as the block has fields.
fn rule_fits(rule: &Rule, shape: StructId, fields: usize) -> bool
    ensures { IsTrue result ↔ RuleFits rule.now shape fields }
{
    match rule.block {
        Some(own) => own.0 != shape.0 || rule.contents.len() == fields,
        None => true,
    }
}

/// Whether this holds of each rule of a predicate.
fn rules_fit(def: &Def, shape: StructId, fields: usize) -> bool
    ensures { IsTrue result ↔ RulesFit def.now shape fields }
{
    for rule in def.rules.as_slice() {
        if !rule_fits(rule, shape, fields) {
            return false;
        }
    }
    true
}

/// Whether this holds of each rule of each predicate.
fn contents_fit(defs: &[Def], shape: StructId, fields: usize) -> bool
    ensures { IsTrue result ↔ ContentsFit defs.now shape fields }
{
    for def in defs {
        if !rules_fit(def, shape, fields) {
            return false;
        }
    }
    true
}

/// Whether an edge fits the definitions.
fn edge_fits_defs(state: &State, defs: &[Def], edge: &Edge) -> bool
    ensures { IsTrue result ↔ EdgeFitsDefs defs.now state.now.kinds edge.now }
{
    match edge {
        Edge::Block { at, shape, fields } => {
            has_kind(state, Kind::Ptr, *at) && contents_fit(defs, *shape, fields.len())
        }
        Edge::Ind { at, pred, args } => {
            has_kind(state, Kind::Ptr, *at) && args_fit(state, defs, *pred, args.as_slice())
        }
        Edge::Seg {
            at,
            args,
            pred,
            end,
            end_args,
        } => {
            has_kind(state, Kind::Ptr, *at)
                && args_fit(state, defs, *pred, args.as_slice())
                && has_kind(state, Kind::Ptr, *end)
                && args_fit(state, defs, *pred, end_args.as_slice())
        }
    }
}

/// Whether an edge fits the structs.
fn edge_fits_structs(state: &State, structs: &[StructInfo], edge: &Edge) -> bool
    ensures { IsTrue result ↔ EdgeFitsStructs structs.now state.now.kinds edge.now }
{
    match edge {
        Edge::Block { shape, fields, .. } => match structs.get(shape.0 as usize) {
            Some(info) => all_fields_fit(state, info.fields.as_slice(), fields.as_slice()),
            None => false,
        },
        Edge::Ind { .. } => true,
        Edge::Seg { .. } => true,
    }
}

/// Whether an edge fits the definitions and the structs.
fn edge_fits(state: &State, defs: &[Def], structs: &[StructInfo], edge: &Edge) -> bool
    ensures { IsTrue result ↔ EdgeFits defs.now structs.now state.now.kinds edge.now }
{
    edge_fits_defs(state, defs, edge) && edge_fits_structs(state, structs, edge)
}

/// Whether each edge fits the definitions and the structs.
fn all_edges_fit(state: &State, defs: &[Def], structs: &[StructInfo], edges: &[Edge]) -> bool
    ensures { IsTrue result ↔ AllEdgesFit defs.now structs.now state.now.kinds edges.now }
{
    for edge in edges {
        if !edge_fits(state, defs, structs, edge) {
            return false;
        }
    }
    true
}

/// Whether each atom may be written.
fn all_atoms_fit(state: &State, atoms: &[Atom]) -> bool
    ensures { IsTrue result ↔ AllAtomsFit state.now.kinds atoms.now }
{
    for atom in atoms {
        if !state.allows(atom) {
            return false;
        }
    }
    true
}

/// Whether variables, edges and atoms fit.
pub fn pieces_fit(
    state: &State,
    defs: &[Def],
    vars: &[VarInfo],
    structs: &[StructInfo],
    raw: &RawState,
) -> bool
    ensures { IsTrue result ↔ PiecesFit defs.now vars.now structs.now state.now.kinds raw.now }
{
    if !all_vars_fit(state, vars, raw.vars.as_slice()) {
        return false;
    }
    if !all_edges_fit(state, defs, structs, raw.edges.as_slice()) {
        return false;
    }
    all_atoms_fit(state, raw.atoms.as_slice())
}
