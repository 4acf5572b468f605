// The names of variables.
ghost use Rattle.std.specs.Prelude.{◌≡◌, ◌++◌, OnOk, IfOk, codes};
ghost use Rattle.mc_state_io.specs.Text.Text.{is_name_of, node_text, var_name, var_text, var_texts};

use crate::text::nodes::push_node;
use mc_base::text::print_number;
use mc_base::{Items, NoMemory, NodeId, VarInfo};
use std::alloc::Global;

/// Whether a name is that of one of the variables.
fn is_name_of(vars: &[VarInfo], name: &[u8]) -> bool
    ensures { result ≡ is_name_of vars.now name.now }
{
    for var in vars {
        if var.name.as_slice() == name {
            return true;
        }
    }
    false
}

/// Adds the name of a variable with these before it.
fn push_name(
    alloc: Global,
    out: &mut Vec<u8>,
    before: &[VarInfo],
    x: u64,
    name: &[u8],
) -> Result<(), NoMemory>
    ensures { OnOk result (out.new.items ≡ out.old.items ++ var_name before.now x name.now) }
{
    if name.is_empty() {
        out.push(b'$')?;
        return print_number(alloc, out, x);
    }
    out.extend_from_slice(name)?;
    if is_name_of(before, name) {
        out.push(b'.')?;
        print_number(alloc, out, x)?;
    }
    Ok(())
}

/// Adds the name of a variable.
pub fn push_var(
    alloc: Global,
    out: &mut Vec<u8>,
    vars: &[VarInfo],
    x: usize,
) -> Result<(), NoMemory>
    ensures { OnOk result (out.new.items ≡ out.old.items ++ var_text vars.now x) }
{
    match vars.get(x) {
        Some(var) => push_name(alloc, out, &vars[..x], x as u64, var.name.as_slice()),
        None => push_name(alloc, out, vars, x as u64, b""),
    }
}

/// The text of a variable with its node.
fn var_with_node(
    alloc: Global,
    vars: &[VarInfo],
    x: usize,
    node: NodeId,
) -> Result<Items<u8>, NoMemory>
    ensures { IfOk result (λ text. text ≡ var_text vars.now x ++ codes "=" ++ node_text node) }
{
    let mut out = Vec::new(alloc);
    push_var(alloc, &mut out, vars, x)?;
    out.push(b'=')?;
    push_node(alloc, &mut out, node)?;
    Ok(Items::of(out))
}

/// The texts of the variables that are known, each with its node.
pub fn var_texts(
    alloc: Global,
    vars: &[VarInfo],
    env: &[Option<NodeId>],
) -> Result<Vec<Items<u8>>, NoMemory>
    ensures { IfOk result (λ texts. texts.items ≡ var_texts vars.now 0 env.now) }
{
    let mut texts = Vec::new(alloc);
    for (x, node) in env.iter().enumerate() {
        if let Some(n) = *node {
            texts.push(var_with_node(alloc, vars, x, n)?)?;
        }
    }
    Ok(texts)
}
