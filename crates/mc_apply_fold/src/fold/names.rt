// The nodes and atoms of a rule's names.
ghost use Rattle.std.specs.Prelude.{◌≡◌, ◌&&◌};
ghost use Rattle.std.specs.List.{list_all};
ghost use Rattle.mc_flow.specs.Defs.Instances.{atom_of, base_node, node_of};
ghost use Rattle.mc_rules_logic.specs.Fold.Judges.{is_named, is_named_too, knows_rule};
ghost use Rattle.mc_state.specs.Known.{Test, Tells};

use mc_base::{Atom, NodeId};
use mc_flow::defs::{DefAtom, Rule};
use mc_symbolic::State;

/// The node of a name.
pub fn node_of(names: &[NodeId], name: u64) -> NodeId
    ensures { result ≡ node_of names.now name }
{
    match names.get(name as usize) {
        Some(node) => *node,
        None => NodeId(0),
    }
}

/// The node of a base, of which None is node 0.
fn base_node(names: &[NodeId], base: Option<u64>) -> NodeId
    ensures { result ≡ base_node names.now base }
{
    match base {
        None => NodeId(0),
        Some(name) => node_of(names, name),
    }
}

/// The atom with nodes for the names.
fn atom_of(names: &[NodeId], atom: &DefAtom) -> Atom
    ensures { result ≡ atom_of names.now atom.now }
{
    match *atom {
        DefAtom::Eq {
            left,
            base,
            add,
            ..
        } => Atom::Eq(node_of(names, left), base_node(names, base), add),
        DefAtom::Ne { left, base, add } => Atom::Ne(
            node_of(names, left),
            base_node(names, base),
            add,
        ),
        DefAtom::In { left, lo, hi } => Atom::In(node_of(names, left), lo, hi),
    }
}

/// Whether the name's node is equal to a node.
pub fn is_named(s: &State, names: &[NodeId], name: u64, node: NodeId) -> bool
    ensures { (know : Test) → Tells know s.now → result ≡ is_named know names.now name node }
{
    s.are_equal(node_of(names, name), node)
}

/// Whether the name's node is equal to one that is known.
pub fn is_named_too(s: &State, names: &[NodeId], name: u64, field: Option<NodeId>) -> bool
    ensures { (know : Test) → Tells know s.now → result ≡ is_named_too know names.now name field }
{
    match field {
        None => false,
        Some(node) => is_named(s, names, name, node),
    }
}

/// Whether an atom of a rule is known.
fn knows_atom(s: &State, names: &[NodeId], atom: &DefAtom) -> bool
    ensures { (know : Test) → Tells know s.now → result ≡ know (atom_of names.now atom.now) }
{
    s.knows(&atom_of(names, atom))
}

/// Whether atoms of a rule are known.
fn know_atoms(s: &State, names: &[NodeId], atoms: &[DefAtom]) -> bool
    ensures { (know : Test) → Tells know s.now → result ≡ list_all (λ a. know (atom_of names.now a)) atoms.now }
{
    for atom in atoms {
        if !knows_atom(s, names, atom) {
            return false;
        }
    }
    true
}

/// Whether each atom of the rule is known.
pub fn knows_rule(s: &State, names: &[NodeId], by: &Rule) -> bool
    ensures { (know : Test) → Tells know s.now → result ≡ knows_rule know names.now by.now }
{
    know_atoms(s, names, by.atoms.as_slice())
}
