// The nodes of several operands.
ghost use Rattle.std.specs.Prelude.{◌≡◌, List, true, Some, IfOk, OnOk, is_some};
ghost use Rattle.std.specs.List.{AllByRecursion};
ghost use Rattle.mc_base.specs.declared.plain.VarInfo.{VarInfo};
ghost use Rattle.mc_rules_steps.specs.Judges.{operand_nodes};
ghost use Rattle.mc_rules_steps.specs.Operands.{operand_node, with_operand, with_operands};
ghost use Rattle.mc_apply_steps.specs.Instructions.Arguments.{FitsVars, all_known};

use crate::step::{put, read};
use mc_base::{Args, NoMemory, NodeId};
use mc_flow::Operand;
use mc_symbolic::State;
use std::alloc::Global;

/// Whether an operand is known.
pub fn is_known(s: &State, o: Operand) -> bool
    ensures { result ≡ is_some (operand_node s.now o) }
{
    match read(s, o) {
        Some(_) => true,
        None => false,
    }
}

/// Whether all operands are known. So they are in each state with these variables.
pub fn are_known(s: &State, os: &[Operand]) -> bool
    ensures { result ≡ all_known s.now os.now }
{
    for o in os {
        if !is_known(s, *o) {
            return false;
        }
    }
    true
}

/// Puts the node of an operand that is known into a state, and answers it. Without memory the state is lost.
pub fn put_operand(s: &mut State, o: Operand) -> Result<NodeId, NoMemory>
    requires known { is_some (operand_node s.old o) ≡ true }
    requires fits { (vars : List VarInfo) × FitsVars vars o }
    ensures node { IfOk result (λ n. operand_node s.old o ≡ Some n) }
    ensures state { OnOk result (s.new ≡ with_operand s.old o) }
{
    let value = read(s, o).unwrap();
    put(s, &value)
}

/// Puts the nodes of operands that are known into a state, from left to right, and answers them. Without memory the state
/// is lost.
pub fn put_operands(alloc: Global, s: &mut State, os: &[Operand]) -> Result<Args<NodeId>, NoMemory>
    requires known { is_some (operand_nodes s.old os.now) ≡ true }
    requires fits { (vars : List VarInfo) × AllByRecursion (FitsVars vars) os.now }
    ensures nodes { IfOk result (λ args. operand_nodes s.old os.now ≡ Some args) }
    ensures state { OnOk result (s.new ≡ with_operands s.old os.now) }
{
    let mut args = Args::new(alloc);
    for o in os {
        let node = put_operand(s, *o)?;
        args.push(node)?;
    }
    Ok(args)
}
