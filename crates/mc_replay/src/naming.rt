// Nodes of terms: their own, or such as are named for them.
ghost use Rattle.std.specs.Prelude.{◌≡◌, ◌-ℤ◌, ◌∷◌, [], ◌&&◌, Some, None, IfOk, OnOk, find, option_map, is_some};
ghost use Rattle.mc_base.specs.declared.ids.NodeId.{NodeId as Node};
ghost use Rattle.mc_base.specs.declared.plain.Atom.TheVariants.{In};
ghost use Rattle.mc_state.specs.Known.{Test, Tells};
ghost use Rattle.mc_state.specs.Premises.{Changes};
ghost use Rattle.mc_rules_logic.specs.Fold.ChangeJudges.{naming_spare};
ghost use Rattle.mc_apply_fold.specs.Forget.Left.{IsMade};
ghost use Rattle.mc_joins.specs.Parts.{Basis, own_node, node_of_term, nodes_of_terms, nodes_of_args};
ghost use Rattle.mc_cover.specs.Terms.{equal_terms, lies_in, all_lie_in};
ghost use Rattle.mc_replay.specs.Named.{IsGood, TellsFrom, GoodIsTold, NamingKeepsGood, NamingKeepsTests, is_own, with_named};
ghost use Rattle.mc_replay.specs.Named.{NamableInRange, BothNamableInRange, of_kinds, on_params, nodes_of_both};

use mc_apply_fold::change::{SpareNode, name_spare};
use mc_base::{Kind, NoMemory, NodeId, PredId};
use mc_cover::search::plain;
use mc_flow::defs::Defs;
use mc_rules_logic::fold::{naming_is_judged, naming_makes_well};
use mc_state::{LogicFault, Term};
use mc_symbolic::State;
use std::alloc::{AllocError, Global};

/// Where a node is named in a good state, it stays good.
fn naming_keeps_good()
    ensures good { NamingKeepsGood }
    ensures tests { NamingKeepsTests }
    ensures told { GoodIsTold }
{
    mc_pure::normal_forms_say_all();
    mc_pure::derived_grows();
    mc_pure::each_is_decided();
    naming_makes_well();
    mc_state::nodes_are_there();
}

/// The term as `mc_pure` has it.
fn as_asked(term: &Term) -> mc_pure::Term
    ensures node { result.node ≡ term.now.node }
    ensures add { result.add ≡ term.now.add }
{
    mc_pure::Term {
        node: term.node,
        add: term.add,
    }
}

/// Whether the terms are entailed to be equal.
fn are_equal(state: &State, left: &Term, right: &Term) -> bool
    ensures { (know : Test) → Tells know state.now → result ≡ equal_terms know left.now right.now }
{
    let first = as_asked(left);
    let second = as_asked(right);
    let pure = state.known();
    pure.are_equal(&first, &second)
}

/// Whether a node is of a kind, and equal to a term.
fn is_own(state: &State, kind: Kind, term: &Term, node: NodeId) -> bool
    ensures { (know : Test) → Tells know state.now → result ≡ is_own know state.now.kinds kind term.now node }
{
    state.has_kind(kind, node) && are_equal(state, term, &plain(node))
}

/// The first of the nodes that is of a kind, and equal to a term.
fn first_own(state: &State, kind: Kind, term: &Term, nodes: &[NodeId]) -> Option<NodeId>
    ensures { (know : Test) → Tells know state.now → result ≡ find (is_own know state.now.kinds kind term.now) nodes.now }
{
    for node in nodes {
        if is_own(state, kind, term, *node) {
            return Some(*node);
        }
    }
    None
}

/// A term's own node in a kind.
fn own_node(state: &State, kind: Kind, term: &Term) -> Option<NodeId>
    ensures { (w : Basis) → TellsFrom w state.now → result ≡ own_node w state.now kind term.now }
{
    state.is_bounded();
    first_own(state, kind, term, state.nodes())
}

/// What L8 is to name: a term in a kind.
fn spare_of(kind: Kind, term: &Term) -> SpareNode
    ensures node { result.node ≡ term.now.node }
    ensures add { result.add ≡ term.now.add }
    ensures kind { result.kind ≡ kind }
{
    SpareNode {
        node: term.node,
        add: term.add,
        kind,
    }
}

/// Names a new node for a term in a kind, by L8.
fn name_new(state: &mut State, kind: Kind, term: &Term) -> Result<(), LogicFault>
    requires { IsMade state.old }
    ensures { (know : Test) → Tells know state.old → Changes
        (naming_spare know term.now.node term.now.add kind state.old) (state.old ∷ []) (state.new ∷ []) result }
{
    let spare = spare_of(kind, term);
    name_spare(state, &spare)
}

/// The node of a term in a kind: its own, or, where it has none, one that is named. None where none can be named; then
/// nothing changes.
fn name_term(state: &mut State, kind: Kind, term: &Term) -> Result<Option<NodeId>, NoMemory>
    requires { IsGood state.old }
    ensures named { IfOk result (λ found. (w : Basis) → TellsFrom w state.old
        → option_map (λ (n : Node). with_named state.new (n ∷ [])) found ≡ node_of_term w state.old kind term.now) }
    ensures good { OnOk result (IsGood state.new) }
    ensures tells { OnOk result ((w : Basis) → TellsFrom w state.old → TellsFrom w state.new) }
    ensures graph { OnOk result (state.new.graph ≡ state.old.graph) }
{
    naming_keeps_good();
    naming_is_judged();
    if let Some(node) = own_node(state, kind, term) {
        return Ok(Some(node));
    }
    let node = state.next_node();
    match name_new(state, kind, term) {
        Ok(()) => Ok(Some(node)),
        Err(LogicFault::Premise(_)) => Ok(None),
        Err(LogicFault::NoMemory) => Err(AllocError),
    }
}

/// The nodes of terms, one after the other, each in a kind.
fn name_terms(
    alloc: Global,
    state: &mut State,
    kinds: &[Kind],
    terms: &[Term],
) -> Result<Option<Vec<NodeId>>, NoMemory>
    requires { IsGood state.old }
    ensures named { IfOk result (λ found. (w : Basis) → TellsFrom w state.old
        → option_map (λ nodes. with_named state.new nodes.items) found ≡ nodes_of_terms w state.old kinds.now terms.now) }
    ensures good { OnOk result (IsGood state.new) }
    ensures tells { OnOk result ((w : Basis) → TellsFrom w state.old → TellsFrom w state.new) }
    ensures graph { OnOk result (state.new.graph ≡ state.old.graph) }
{
    let mut nodes = Vec::new(alloc);
    if kinds.len() != terms.len() {
        return Ok(None);
    }
    for (i, kind) in kinds.iter().enumerate() {
        match name_term(state, *kind, &terms[i])? {
            Some(node) => nodes.push(node)?,
            None => return Ok(None),
        }
    }
    Ok(Some(nodes))
}

/// The nodes of a predicate's arguments, in the kinds of its parameters. None where one can't be named; then the state is
/// lost.
pub fn name_args(
    alloc: Global,
    state: &mut State,
    defs: &Defs,
    pred: PredId,
    args: &[Term],
) -> Result<Option<Vec<NodeId>>, NoMemory>
    requires { IsGood state.old }
    ensures named { IfOk result (λ found. (w : Basis) → w.defs ≡ defs.now → TellsFrom w state.old
        → option_map (λ nodes. with_named state.new nodes.items) found ≡ nodes_of_args w pred state.old args.now) }
    ensures good { OnOk result (IsGood state.new) }
    ensures tells { OnOk result ((w : Basis) → TellsFrom w state.old → TellsFrom w state.new) }
    ensures graph { OnOk result (state.new.graph ≡ state.old.graph) }
{
    match defs.as_slice().get(pred.0 as usize) {
        Some(def) => {
            let nodes = name_terms(alloc, state, def.params.as_slice(), args)?;
            Ok(nodes)
        }
        None => Ok(None),
    }
}

/// Where terms are of nodes of their kinds, whether nodes can be named for them is read from the state as it is.
fn namable_in_range()
    ensures args { NamableInRange }
    ensures both { BothNamableInRange }
{
    mc_pure::normal_forms_say_all();
    mc_pure::derived_grows();
    mc_pure::each_is_decided();
    naming_is_judged();
    naming_makes_well();
    mc_state::nodes_are_there();
}

/// Whether there is one term for each kind, and it is of a node of that kind.
#[tactic(auto, using(mc_state::proofs::ListLemmas::all_both_steps))]
fn are_of_kinds(state: &State, kinds: &[Kind], terms: &[Term]) -> bool
    ensures { result ≡ of_kinds state.now.kinds kinds.now terms.now }
{
    if kinds.len() != terms.len() {
        return false;
    }
    for (i, kind) in kinds.iter().enumerate() {
        if !state.has_kind(*kind, terms[i].node) {
            return false;
        }
    }
    true
}

/// Whether a predicate's arguments are of nodes of its parameters' kinds.
fn args_are_of_kinds(state: &State, defs: &Defs, pred: PredId, args: &[Term]) -> bool
    ensures { result ≡ on_params (λ kinds. of_kinds state.now.kinds kinds args.now) defs.now pred }
{
    match defs.as_slice().get(pred.0 as usize) {
        Some(def) => are_of_kinds(state, def.params.as_slice(), args),
        None => false,
    }
}

/// Whether a term is entailed to lie from `lo` to `hi`.
fn lies_between(state: &State, term: &Term, lo: i64, hi: i64) -> bool
    ensures { (know : Test) → Tells know state.now → result ≡ know (In term.now.node (lo -ℤ term.now.add) (hi -ℤ term.now.add)) }
{
    let asked = as_asked(term);
    let pure = state.known();
    pure.lies_in(&asked, lo, hi)
}

/// Whether a term is entailed to lie in the range of a kind.
fn lies_in(state: &State, kind: Kind, term: &Term) -> bool
    ensures { (know : Test) → Tells know state.now → result ≡ lies_in know kind term.now }
{
    match kind {
        Kind::Int => lies_between(state, term, -2147483648, 2147483647),
        Kind::Ptr => lies_between(state, term, 0, 4611686018427387903),
    }
}

/// Whether there is one term for each kind, which lies in its range.
#[tactic(auto, using(mc_state::proofs::ListLemmas::all_both_steps))]
fn all_lie_in(state: &State, kinds: &[Kind], terms: &[Term]) -> bool
    ensures { (know : Test) → Tells know state.now → result ≡ all_lie_in know kinds.now terms.now }
{
    if kinds.len() != terms.len() {
        return false;
    }
    for (i, kind) in kinds.iter().enumerate() {
        if !lies_in(state, *kind, &terms[i]) {
            return false;
        }
    }
    true
}

/// Whether a predicate's arguments lie in the ranges of its parameters' kinds.
fn args_lie_in(state: &State, defs: &Defs, pred: PredId, args: &[Term]) -> bool
    ensures { (know : Test) → Tells know state.now → result ≡ on_params (λ kinds. all_lie_in know kinds args.now) defs.now pred }
{
    match defs.as_slice().get(pred.0 as usize) {
        Some(def) => all_lie_in(state, def.params.as_slice(), args),
        None => false,
    }
}

/// Whether a predicate's arguments have nodes, or such can be named. Where each is of a node of its kind, this is read from
/// the state as it is. A term of a node of another kind may be equal to one that is named before it: then it is tried in a
/// copy.
pub fn can_name(
    alloc: Global,
    state: &State,
    defs: &Defs,
    pred: PredId,
    args: &[Term],
) -> Result<bool, NoMemory>
    requires { IsGood state.now }
    ensures { IfOk result (λ can. (w : Basis) → w.defs ≡ defs.now → TellsFrom w state.now
        → can ≡ is_some (nodes_of_args w pred state.now args.now)) }
{
    namable_in_range();
    if args_are_of_kinds(state, defs, pred, args) {
        return Ok(args_lie_in(state, defs, pred, args));
    }
    let mut trial = state.copy(alloc)?;
    match name_args(alloc, &mut trial, defs, pred, args)? {
        Some(_) => Ok(true),
        None => Ok(false),
    }
}

/// The same for the arguments and the end arguments of a segment of a predicate, one after the other.
pub fn can_name_both(
    alloc: Global,
    state: &State,
    defs: &Defs,
    pred: PredId,
    args: &[Term],
    ends: &[Term],
) -> Result<bool, NoMemory>
    requires { IsGood state.now }
    ensures { IfOk result (λ can. (w : Basis) → w.defs ≡ defs.now → TellsFrom w state.now
        → can ≡ is_some (nodes_of_both w pred state.now args.now ends.now)) }
{
    namable_in_range();
    if args_are_of_kinds(state, defs, pred, args) && args_are_of_kinds(state, defs, pred, ends) {
        return Ok(args_lie_in(state, defs, pred, args) && args_lie_in(state, defs, pred, ends));
    }
    let mut trial = state.copy(alloc)?;
    match name_args(alloc, &mut trial, defs, pred, args)? {
        Some(_) => {}
        None => return Ok(false),
    }
    match name_args(alloc, &mut trial, defs, pred, ends)? {
        Some(_) => Ok(true),
        None => Ok(false),
    }
}
