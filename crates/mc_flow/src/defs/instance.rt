// Rules with nodes for their names.
ghost use Rattle.std.specs.Prelude.{◌≡◌, map, IfOk};
ghost use Rattle.mc_flow.specs.Defs.Instances.{node_of, base_node, atom_of, call_of, instance_of};

use crate::defs::{Call, DefAtom, Rule};
use mc_base::{Args, Atom, Items, NoMemory, NodeId, PredId};
use std::alloc::Global;

/// What a rule says of nodes: what the fields of its block hold, its calls, each with its predicate, the
/// node at which it stands and its arguments, and its atoms.
#[derive(Drop)]
pub struct Instance {
    pub fields: Args<NodeId>,
    pub calls: Items<(PredId, NodeId, Args<NodeId>)>,
    pub atoms: Items<Atom>,
}

/// The rule with nodes for its names, in the order of their numbers. A base of None becomes node 0.
pub fn instantiate(alloc: Global, rule: &Rule, names: &[NodeId]) -> Result<Instance, NoMemory>
    ensures { IfOk result (λ made. made ≡ instance_of names.now rule.now) }
{
    let fields = node_args(alloc, rule.contents.as_slice(), names)?;
    let calls = node_calls(alloc, rule.calls.as_slice(), names)?;
    let atoms = node_atoms(alloc, rule.atoms.as_slice(), names)?;
    Ok(Instance {
        fields,
        calls,
        atoms,
    })
}

fn node(names: &[NodeId], name: u64) -> NodeId
    ensures { result ≡ node_of names.now name }
{
    match names.get(name as usize) {
        Some(node) => *node,
        None => NodeId(0),
    }
}

fn node_args(alloc: Global, args: &[u64], names: &[NodeId]) -> Result<Args<NodeId>, NoMemory>
    ensures { IfOk result (λ made. made ≡ map (node_of names.now) args.now) }
{
    let mut made = Args::new(alloc);
    for name in args {
        made.push(node(names, *name))?;
    }
    Ok(made)
}

fn node_calls(
    alloc: Global,
    calls: &[Call],
    names: &[NodeId],
) -> Result<Items<(PredId, NodeId, Args<NodeId>)>, NoMemory>
    ensures { IfOk result (λ made. made ≡ map (call_of names.now) calls.now) }
{
    let mut made = Items::new(alloc);
    for call in calls {
        let args = node_args(alloc, call.args.as_slice(), names)?;
        made.push((call.pred, node(names, call.at), args))?;
    }
    Ok(made)
}

fn node_atom(atom: DefAtom, names: &[NodeId]) -> Atom
    ensures { result ≡ atom_of names.now atom }
{
    match atom {
        DefAtom::Eq {
            left,
            base,
            add,
            ..
        } => Atom::Eq(node(names, left), node_of_base(base, names), add),
        DefAtom::Ne { left, base, add } => Atom::Ne(
            node(names, left),
            node_of_base(base, names),
            add,
        ),
        DefAtom::In { left, lo, hi } => Atom::In(node(names, left), lo, hi),
    }
}

fn node_of_base(base: Option<u64>, names: &[NodeId]) -> NodeId
    ensures { result ≡ base_node names.now base }
{
    match base {
        Some(name) => node(names, name),
        None => NodeId(0),
    }
}

fn node_atoms(alloc: Global, atoms: &[DefAtom], names: &[NodeId]) -> Result<Items<Atom>, NoMemory>
    ensures { IfOk result (λ made. made ≡ map (atom_of names.now) atoms.now) }
{
    let mut made = Items::new(alloc);
    for atom in atoms {
        made.push(node_atom(*atom, names))?;
    }
    Ok(made)
}
