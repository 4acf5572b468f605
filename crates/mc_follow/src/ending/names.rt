// Terms for the names of a rule whose block is there.
ghost use Rattle.std.specs.Prelude.{◌≡◌, ◌++◌, ◌∷◌, List, Some, None, IfOk, OnOk, map, option_map, if◌then◌else◌};
ghost use Rattle.mc_base.specs.declared.ids.NodeId.{NodeId as Node};
ghost use Rattle.mc_cover.specs.Goals.{all_there, contents_by};
ghost use Rattle.mc_cover.specs.Marks.{names_at};
ghost use Rattle.mc_cover.specs.Terms.{with_fixed};
ghost use Rattle.mc_flow.specs.declared.defs.rules.DefAtom.{DefAtom as Statement};
ghost use Rattle.mc_follow.specs.Ending.Making.{fields_of_block};
ghost use Rattle.mc_state.specs.Known.{Test};
ghost use Rattle.mc_state.specs.Terms.{base_term, plain, plus, term_of};
ghost use Rattle.std.specs.Option.{option_copied};

use mc_base::{EdgeId, NoMemory, NodeId};
use mc_cover::Goal;
use mc_cover::search::{base_at, front_names, plain};
use mc_flow::defs::{DefAtom, Rule};
use mc_state::Term;
use mc_state::graph::Edge;
use mc_symbolic::State;
use std::alloc::{AllocError, Global};

// A term and a number more. No memory where the sum has more than 64 bits, which it has at no name that fits.
fn moved(base: &Term, add: i64) -> Result<Term, NoMemory>
    ensures { IfOk result (λ sum. sum ≡ plus base.now add) }
{
    match base.add.checked_add(add) {
        Some(sum) => Ok(Term {
            node: base.node,
            add: sum,
        }),
        None => Err(AllocError),
    }
}

// Adds the name that an atom introduces, if it does.
fn push_sum(names: &mut Vec<Term>, atom: DefAtom) -> Result<(), NoMemory>
    ensures { OnOk result ((rest : List Statement) → with_fixed names.new.items rest ≡ with_fixed names.old.items (atom ∷ rest)) }
{
    let DefAtom::Eq {
        base,
        add,
        fixes: true,
        ..
    } = atom
    else {
        return Ok(());
    };
    let from = base_at(names, base);
    let sum = moved(&from, add)?;
    names.push(sum)?;
    Ok(())
}

// Adds the names that atoms introduce.
fn push_fixed(names: &mut Vec<Term>, atoms: &[DefAtom]) -> Result<(), NoMemory>
    ensures { OnOk result (names.new.items ≡ with_fixed names.old.items atoms.now) }
{
    for atom in atoms {
        push_sum(names, *atom)?;
    }
    Ok(())
}

// Adds the nodes of fields, and answers whether all are known.
fn push_fields(names: &mut Vec<Term>, fields: &[Option<NodeId>]) -> Result<bool, NoMemory>
    ensures { IfOk result (λ all. (if all then Some names.new.items else None)
        ≡ option_map (λ nodes. names.old.items ++ map plain nodes) (all_there fields.now)) }
{
    for field in fields {
        match field {
            None => return Ok(false),
            Some(node) => names.push(plain(*node))?,
        }
    }
    Ok(true)
}

// Adds what a block holds, and answers whether it is one and all its fields are known.
fn push_block(names: &mut Vec<Term>, edge: Option<&Edge>) -> Result<bool, NoMemory>
    ensures { IfOk result (λ all. (if all then Some names.new.items else None)
        ≡ option_map (λ nodes. names.old.items ++ map plain nodes) (fields_of_block (option_copied edge.entry))) }
{
    match edge {
        Some(Edge::Block { fields, .. }) => push_fields(names, fields.as_slice()),
        Some(Edge::Ind { .. }) => Ok(false),
        Some(Edge::Seg { .. }) => Ok(false),
        None => Ok(false),
    }
}

/// The terms of a rule's names at a goal, with a block whose fields are known. None where it is not there.
pub fn rule_names(
    alloc: Global,
    state: &State,
    goal: &Goal,
    rule: &Rule,
    block: Option<EdgeId>,
) -> Result<Option<Vec<Term>>, NoMemory>
    ensures { IfOk result (λ made. (know : Test) (contents : List Node)
        → contents_by know state.now.graph.edges goal.now.at rule.now.block block ≡ Some contents
        → option_map (λ v. v.items) made ≡ Some (names_at goal.now rule.now contents)) }
{
    let mut names = front_names(alloc, goal)?;
    if let Some(id) = block {
        if !push_block(&mut names, state.edge(id))? {
            return Ok(None);
        }
    }
    push_fixed(&mut names, rule.atoms.as_slice())?;
    Ok(Some(names))
}
