// What is left of a symbolic state where a node is forgotten.
ghost use Rattle.std.specs.Prelude.{◌≡◌, ◌≢◌, List, IfOk, OnOk, OnErr};
ghost use Rattle.std.specs.List.{AllByRecursion};
ghost use Rattle.mc_base.specs.declared.plain.Atom.{Atom as Fact};
ghost use Rattle.mc_base.specs.Nodes.{null};
ghost use Rattle.mc_pure.specs.Pure.{IsNode, IsWellFormed};
ghost use Rattle.mc_pure.specs.Whole.{kinds_without};
ghost use Rattle.mc_state.specs.Facts.{IsFalse, IsUnnamed};
ghost use Rattle.mc_rules_logic.specs.Fold.Changed.{Forgets, IsListWithout, left_over};
ghost use Rattle.mc_apply_fold.specs.Forget.Left.{IsMade, only_kinds, with_atoms, with_starts, AreNodesOf};

use mc_base::{Atom, NoMemory, NodeId};
use mc_pure::Pure;
use mc_symbolic::State;
use std::alloc::Global;

/// The other nodes with their kinds, of which nothing more is known.
fn others(alloc: Global, pure: &Pure, lost: NodeId) -> Result<Pure, NoMemory>
    ensures { IfOk result (λ rest. rest ≡ only_kinds (kinds_without pure.now.kinds lost)) }
{
    pure.is_kept();
    let mut rest = Pure::new(alloc)?;
    for node in pure.nodes() {
        let Some(kind) = pure.kind(*node) else {
            continue;
        };
        if node.0 == lost.0 {
            continue;
        }
        rest.node(*node, kind)?;
    }
    Ok(rest)
}

/// Adds blocks that start at nodes.
fn put_starts(pure: &mut Pure, starts: &[NodeId]) -> Result<(), NoMemory>
    requires { AreNodesOf pure.old starts.now }
    ensures { OnOk result (pure.new ≡ with_starts pure.old starts.now) }
{
    for start in starts {
        pure.block(*start)?;
    }
    Ok(())
}

/// Assumes atoms.
fn put_atoms(pure: &mut Pure, atoms: &[Atom]) -> Result<(), NoMemory>
    requires { AllByRecursion (IsWellFormed pure.old.kinds) atoms.now }
    ensures { OnOk result (pure.new ≡ with_atoms pure.old atoms.now) }
{
    for atom in atoms {
        pure.assume(atom)?;
    }
    Ok(())
}

/// Forgets a node that no variable and no edge names: what was entailed of the others is written, and nothing else is.
/// The edges and the nodes of variables stay. Without memory nothing changes.
pub fn forget(alloc: Global, state: &mut State, node: NodeId) -> Result<(), NoMemory>
    requires made { IsMade state.old }
    requires there { IsNode state.old.kinds node }
    requires not_null { node ≢ null }
    requires not_false { IsFalse state.old → ⊥ }
    requires unnamed { IsUnnamed node state.old }
    ensures ok { OnOk result (Forgets node state.old state.new) }
    ensures told { OnOk result ((atoms : List Fact) → IsListWithout node state.old atoms → state.new ≡ left_over state.old node atoms) }
    ensures err { OnErr result (state.new ≡ state.old) }
{
    // These five say what the proof needs.
    mc_rules_logic::fold::naming_makes_well();
    mc_rules_logic::fold::naming_is_determined();
    mc_pure::normal_forms_say_all();
    let known = state.known();
    known.is_kept();
    known.has_normal_form();
    let atoms = mc_pure_ops::canon::forget(alloc, known, node)?;
    let mut rest = others(alloc, known, node)?;
    put_starts(&mut rest, known.starts())?;
    put_atoms(&mut rest, atoms.as_slice())?;
    state.put_known(rest);
    Ok(())
}
