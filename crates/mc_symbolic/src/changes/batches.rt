// Several changes at once.
ghost use Rattle.std.specs.Prelude.{◌≡◌, ◌∷◌, ◌++◌, [], IfOk, OnOk, length};
ghost use Rattle.std.specs.List.{AllByRecursion};
ghost use Rattle.mc_base.specs.declared.plain.Atom.TheVariants.{In};
ghost use Rattle.mc_state.specs.Named.{others};
ghost use Rattle.mc_pure.specs.Pure.{IsWellFormed, IsBound};
ghost use Rattle.mc_state.specs.State.{next_node, numbered_nodes, with_atoms, with_nodes, with_number, with_only_edges, without_vars};

use crate::State;
use mc_base::{Atom, EdgeId, Kind, NoMemory, NodeId, VarId};

/// Adds a new node of each kind, and puts them after others. Without memory the state is lost.
pub fn add_nodes(s: &mut State, kinds: &[Kind], nodes: &mut Vec<NodeId>) -> Result<(), NoMemory>
    ensures nodes { OnOk result (nodes.new.items ≡ nodes.old.items ++ numbered_nodes s.old.next (length kinds.now)) }
    ensures state { OnOk result (s.new ≡ with_nodes s.old kinds.now) }
{
    for kind in kinds {
        nodes.push(s.add_node(*kind)?)?;
    }
    Ok(())
}

/// Adds atoms to the written ones. Without memory the state is lost.
pub fn assume_all(s: &mut State, atoms: &[Atom]) -> Result<(), NoMemory>
    requires { AllByRecursion (IsWellFormed s.old.kinds) atoms.now }
    ensures { OnOk result (s.new ≡ with_atoms s.old atoms.now) }
{
    for atom in atoms {
        s.assume(atom)?;
    }
    Ok(())
}

/// Takes the edges out that are named. Without memory the state is lost.
pub fn take_edges(s: &mut State, ids: &[EdgeId]) -> Result<(), NoMemory>
    ensures { OnOk result (s.new ≡ with_only_edges s.old (others s.old.graph.edges ids.now)) }
{
    for id in ids {
        s.take_edge(*id)?;
    }
    Ok(())
}

/// The atom that a node is a number.
fn single(node: NodeId, number: &i64) -> Atom
    ensures { result ≡ In node number.now number.now }
{
    Atom::In(node, *number, *number)
}

/// Adds a node that is a number, and answers it. Without memory the state is lost.
pub fn add_number(s: &mut State, number: &i64) -> Result<NodeId, NoMemory>
    requires { IsBound number.now }
    ensures node { IfOk result (λ n. n ≡ next_node s.old) }
    ensures state { OnOk result (s.new ≡ with_number s.old number.now) }
{
    mc_state::nodes_are_there();
    s.is_bounded();
    let node = s.add_node(Kind::Int)?;
    s.assume(&single(node, number))?;
    Ok(node)
}

/// Makes variables unknown.
pub fn forget_vars(s: &mut State, vars: &[VarId])
    ensures { s.new ≡ without_vars s.old vars.now }
{
    for x in vars {
        s.set_var(*x, None);
    }
}
