// What stands in the entries of lines: steps of joins, and states with their edges and atoms.
ghost use Rattle.std.specs.Prelude.{◌≡◌, ◌≢◌, ◌↔◌, ◌∷◌, [], ℕ, List, IfOk, IsTrue, MatchOption, codes, map, true};
ghost use Rattle.serde_json.specs.Data.{Data, boolean};
ghost use Rattle.serde_json.specs.View.{view};
ghost use Rattle.mc_state.specs.declared.line.JoinStep.{JoinStep as Step};
ghost use Rattle.mc_state.specs.declared.graph.edge.Edge.{Edge as GraphEdge};
ghost use Rattle.mc_base.specs.declared.plain.Atom.{Atom as Fact};
ghost use Rattle.mc_lines.specs.Cert.Entries.{AtomFits, Fits, StateFits, atom_data, edge_data, named_data, node_kind_data, state_data, step_data, values_data, whole_entry};
ghost use Rattle.mc_lines.specs.Cert.Reads.{Reads};

use crate::cert::LineFault;
use crate::cert::entry::{Entry, begin, is_word, put, three, two, values_of};
use mc_base::{Atom, NodeId};
use mc_state::graph::Edge;
use mc_state::{JoinStep, NodeKind, RawState};
use serde_json::Value;
use std::alloc::{AllocError, Global};

/// The name that an array begins with, and the entries after it; None where the value is no such array.
pub fn named(value: &Value) -> Option<(&str, &[Value])>
    ensures { MatchOption result ((name : List ℕ) (entries : List Data) → view value.now ≢ named_data name entries)
        (λ n. view value.now ≡ named_data n.0.now (map view n.1.now)) }
{
    match values_of(value)? {
        [] => None,
        [name, entries @ ..] => Some((name.as_str()?, entries)),
    }
}

// ---- steps of joins

impl Entry for JoinStep {
    ghost spelled = { step_data };

    ghost fits = { Fits };

    fn read(alloc: Global, value: &Value) -> Result<JoinStep, LineFault> {
        match named(value) {
            None => Err(LineFault::Form),
            Some((name, entries)) => step_in(alloc, name, entries),
        }
    }

    fn write(&self, alloc: Global) -> Result<Value, AllocError> {
        match self {
            JoinStep::J1 => Ok(Value::Array(begin(alloc, "J1")?)),
            JoinStep::J2 => Ok(Value::Array(begin(alloc, "J2")?)),
            JoinStep::J3 => Ok(Value::Array(begin(alloc, "J3")?)),
            JoinStep::J4(pred) => array_of_one(alloc, "J4", pred),
            JoinStep::J5(pred) => array_of_one(alloc, "J5", pred),
            JoinStep::J6(pred, side, pair) => array_of_three(alloc, "J6", pred, side, pair),
            JoinStep::J7(pred, side, pair) => array_of_three(alloc, "J7", pred, side, pair),
        }
    }
}

fn step_in(alloc: Global, name: &str, entries: &[Value]) -> Result<JoinStep, LineFault>
    ensures { Reads step_data Fits (named_data name.now (map view entries.now)) result }
{
    match entries {
        [] => plain_step(name).ok_or(LineFault::Form),
        [pred] => match name {
            "J4" => Ok(JoinStep::J4(Entry::read(alloc, pred)?)),
            "J5" => Ok(JoinStep::J5(Entry::read(alloc, pred)?)),
            _ => Err(LineFault::Form),
        },
        [pred, side, pair] => segment_step(alloc, name, pred, side, pair),
        _ => Err(LineFault::Form),
    }
}

fn plain_step(name: &str) -> Option<JoinStep>
    ensures { MatchOption result ((step : Step) → named_data name.now [] ≢ step_data step)
        (λ step. named_data name.now [] ≡ step_data step) }
{
    match name {
        "J1" => Some(JoinStep::J1),
        "J2" => Some(JoinStep::J2),
        "J3" => Some(JoinStep::J3),
        _ => None,
    }
}

fn segment_step(
    alloc: Global,
    name: &str,
    pred: &Value,
    side: &Value,
    pair: &Value,
) -> Result<JoinStep, LineFault>
    ensures { Reads step_data Fits (named_data name.now (view pred.now ∷ view side.now ∷ view pair.now ∷ [])) result }
{
    match name {
        "J6" => {
            let (pred, side, pair) = three(alloc, pred, side, pair)?;
            Ok(JoinStep::J6(pred, side, pair))
        }
        "J7" => {
            let (pred, side, pair) = three(alloc, pred, side, pair)?;
            Ok(JoinStep::J7(pred, side, pair))
        }
        _ => Err(LineFault::Form),
    }
}

// ---- states

impl Entry for NodeKind {
    ghost spelled = { node_kind_data };

    ghost fits = { Fits };

    fn read(_alloc: Global, value: &Value) -> Result<NodeKind, LineFault> {
        if is_word(value, "0") {
            Ok(NodeKind::Zero)
        } else if is_word(value, "i") {
            Ok(NodeKind::Int)
        } else if is_word(value, "p") {
            Ok(NodeKind::Ptr)
        } else {
            Err(LineFault::Form)
        }
    }

    fn write(&self, alloc: Global) -> Result<Value, AllocError> {
        match self {
            NodeKind::Zero => Value::try_from_str(alloc, "0"),
            NodeKind::Int => Value::try_from_str(alloc, "i"),
            NodeKind::Ptr => Value::try_from_str(alloc, "p"),
        }
    }
}

impl Entry for Edge {
    ghost spelled = { edge_data };

    ghost fits = { Fits };

    fn read(alloc: Global, value: &Value) -> Result<Edge, LineFault> {
        match named(value) {
            None => Err(LineFault::Form),
            Some((name, entries)) => edge_in(alloc, name, entries),
        }
    }

    fn write(&self, alloc: Global) -> Result<Value, AllocError> {
        match self {
            Edge::Block { at, shape, fields } => array_of_three(alloc, "B", at, shape, fields),
            Edge::Ind { at, pred, args } => array_of_three(alloc, "I", at, pred, args),
            Edge::Seg {
                at,
                args,
                pred,
                end,
                end_args,
            } => {
                let mut values = begin(alloc, "S")?;
                put(alloc, &mut values, at)?;
                put(alloc, &mut values, args)?;
                put(alloc, &mut values, pred)?;
                put(alloc, &mut values, end)?;
                put(alloc, &mut values, end_args)?;
                Ok(Value::Array(values))
            }
        }
    }
}

fn edge_in(alloc: Global, name: &str, entries: &[Value]) -> Result<Edge, LineFault>
    ensures { Reads edge_data Fits (named_data name.now (map view entries.now)) result }
{
    match entries.len() {
        3 => short_edge(alloc, name, &entries[0], &entries[1], &entries[2]),
        5 => segment(
            alloc,
            name,
            &entries[0],
            &entries[1],
            &entries[2],
            &entries[3],
            &entries[4],
        ),
        _ => Err(LineFault::Form),
    }
}

// A Block or an Ind.
fn short_edge(alloc: Global, name: &str, a: &Value, b: &Value, c: &Value) -> Result<Edge, LineFault>
    ensures { Reads edge_data Fits (named_data name.now (view a.now ∷ view b.now ∷ view c.now ∷ [])) result }
{
    match name {
        "B" => {
            let (at, shape, fields) = three(alloc, a, b, c)?;
            Ok(Edge::Block { at, shape, fields })
        }
        "I" => {
            let (at, pred, args) = three(alloc, a, b, c)?;
            Ok(Edge::Ind { at, pred, args })
        }
        _ => Err(LineFault::Form),
    }
}

fn segment(
    alloc: Global,
    name: &str,
    at: &Value,
    args: &Value,
    pred: &Value,
    end: &Value,
    ends: &Value,
) -> Result<Edge, LineFault>
    ensures { Reads edge_data Fits (named_data name.now
        (view at.now ∷ view args.now ∷ view pred.now ∷ view «end».now ∷ view ends.now ∷ [])) result }
{
    if name != "S" {
        return Err(LineFault::Form);
    }
    let (at, args) = two(alloc, at, args)?;
    let (pred, end, end_args) = three(alloc, pred, end, ends)?;
    Ok(Edge::Seg {
        at,
        args,
        pred,
        end,
        end_args,
    })
}

impl Entry for Atom {
    ghost spelled = { atom_data };

    ghost fits = { AtomFits };

    fn read(alloc: Global, value: &Value) -> Result<Atom, LineFault> {
        match named(value) {
            None => Err(LineFault::Form),
            Some((name, entries)) => atom_of(alloc, name, entries),
        }
    }

    fn write(&self, alloc: Global) -> Result<Value, AllocError> {
        match self {
            Atom::Eq(a, b, c) => array_of_three(alloc, "=", a, b, c),
            Atom::Ne(a, b, c) => array_of_three(alloc, "!", a, b, c),
            Atom::In(a, lo, hi) => array_of_three(alloc, "r", a, lo, hi),
        }
    }
}

fn atom_of(alloc: Global, name: &str, entries: &[Value]) -> Result<Atom, LineFault>
    ensures { Reads atom_data AtomFits (named_data name.now (map view entries.now)) result }
{
    match entries {
        [a, b, c] => atom_in(alloc, name, a, b, c),
        _ => Err(LineFault::Form),
    }
}

fn atom_in(alloc: Global, name: &str, a: &Value, b: &Value, c: &Value) -> Result<Atom, LineFault>
    ensures { Reads atom_data AtomFits (named_data name.now (view a.now ∷ view b.now ∷ view c.now ∷ [])) result }
{
    match name {
        "=" => {
            let (a, b, c) = three(alloc, a, b, c)?;
            Ok(Atom::Eq(a, b, c))
        }
        "!" => {
            let (a, b, c) = three(alloc, a, b, c)?;
            Ok(Atom::Ne(a, b, c))
        }
        "r" => {
            let (a, lo, hi) = three(alloc, a, b, c)?;
            Ok(Atom::In(a, lo, hi))
        }
        _ => Err(LineFault::Form),
    }
}

impl Entry for RawState {
    ghost spelled = { state_data };

    ghost fits = { StateFits };

    fn read(alloc: Global, value: &Value) -> Result<RawState, LineFault> {
        match values_of(value) {
            None => Err(LineFault::Form),
            Some(entries) => state_of(alloc, entries),
        }
    }

    fn write(&self, alloc: Global) -> Result<Value, AllocError> {
        let mut values = Vec::with_capacity(alloc, 5)?;
        put(alloc, &mut values, &self.vars)?;
        put(alloc, &mut values, &self.kinds)?;
        put(alloc, &mut values, &self.edges)?;
        put(alloc, &mut values, &self.atoms)?;
        if self.whole {
            values.push(Value::Bool(true))?;
        }
        Ok(Value::Array(values))
    }
}

fn is_true(value: &Value) -> bool
    ensures { IsTrue result ↔ (view value.now ≡ boolean true) }
{
    value.as_bool() == Some(true)
}

fn state_of(alloc: Global, entries: &[Value]) -> Result<RawState, LineFault>
    ensures { Reads state_data StateFits (values_data (map view entries.now)) result }
{
    match entries.len() {
        4 => state_in(
            alloc,
            &entries[0],
            &entries[1],
            &entries[2],
            &entries[3],
            false,
        ),
        5 => whole_state(
            alloc,
            &entries[0],
            &entries[1],
            &entries[2],
            &entries[3],
            &entries[4],
        ),
        _ => Err(LineFault::Form),
    }
}

fn whole_state(
    alloc: Global,
    vars: &Value,
    kinds: &Value,
    edges: &Value,
    atoms: &Value,
    whole: &Value,
) -> Result<RawState, LineFault>
    ensures { Reads state_data StateFits
        (values_data (view vars.now ∷ view kinds.now ∷ view edges.now ∷ view atoms.now ∷ view whole.now
        ∷ [])) result }
{
    if is_true(whole) {
        state_in(alloc, vars, kinds, edges, atoms, true)
    } else {
        Err(LineFault::Form)
    }
}

fn state_in(
    alloc: Global,
    vars: &Value,
    kinds: &Value,
    edges: &Value,
    atoms: &Value,
    whole: bool,
) -> Result<RawState, LineFault>
    ensures { Reads state_data StateFits
        (values_data (view vars.now ∷ view kinds.now ∷ view edges.now ∷ view atoms.now ∷ whole_entry whole)) result }
{
    let (vars, kinds) = two(alloc, vars, kinds)?;
    let (edges, atoms) = two(alloc, edges, atoms)?;
    Ok(RawState {
        vars,
        kinds,
        edges,
        atoms,
        whole,
    })
}

// ---- arrays that begin with a name

/// The array of a name and an entry.
pub fn array_of_one<A: Entry>(alloc: Global, name: &str, a: &A) -> Result<Value, AllocError>
    ensures { IfOk result (λ v. (view v ≡ named_data name.now (A.spelled a.now ∷ [])) × A.fits a.now) }
{
    let mut values = begin(alloc, name)?;
    put(alloc, &mut values, a)?;
    Ok(Value::Array(values))
}

/// The array of a name and two entries.
pub fn array_of_two<A: Entry, B: Entry>(
    alloc: Global,
    name: &str,
    a: &A,
    b: &B,
) -> Result<Value, AllocError>
    ensures { IfOk result (λ v. (view v ≡ named_data name.now (A.spelled a.now ∷ B.spelled b.now ∷ [])) × A.fits a.now × B.fits b.now) }
{
    let mut values = begin(alloc, name)?;
    put(alloc, &mut values, a)?;
    put(alloc, &mut values, b)?;
    Ok(Value::Array(values))
}

/// The array of a name and three entries.
pub fn array_of_three<A: Entry, B: Entry, C: Entry>(
    alloc: Global,
    name: &str,
    a: &A,
    b: &B,
    c: &C,
) -> Result<Value, AllocError>
    ensures { IfOk result (λ v. (view v
        ≡ named_data name.now (A.spelled a.now ∷ B.spelled b.now ∷ C.spelled c.now ∷ [])) × A.fits a.now
        × B.fits b.now × C.fits c.now) }
{
    let mut values = begin(alloc, name)?;
    put(alloc, &mut values, a)?;
    put(alloc, &mut values, b)?;
    put(alloc, &mut values, c)?;
    Ok(Value::Array(values))
}
