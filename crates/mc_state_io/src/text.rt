//! The text of a state in a report.

ghost use Rattle.std.specs.Prelude.{◌≡◌, IfOk};
ghost use Rattle.mc_state_io.specs.Text.Text.{IsTextOf, state_text};

mod edges;
mod joining;
mod names;
mod nodes;

use edges::edge_texts;
pub use edges::push_pred;
use joining::{push_next_part, push_part};
use mc_base::{Atom, Items, NoMemory, VarInfo};
use mc_flow::defs::{Def, StructInfo};
use mc_symbolic::State;
pub use names::push_var;
use names::var_texts;
use nodes::atom_texts;
pub use nodes::push_node;
use std::alloc::Global;

/// The text of a state, where these are its atoms.
fn text_with(
    alloc: Global,
    state: &State,
    vars: &[VarInfo],
    defs: &[Def],
    structs: &[StructInfo],
    atoms: &[Atom],
) -> Result<Items<u8>, NoMemory>
    ensures { IfOk result (λ text. text ≡ state_text vars.now defs.now structs.now state.now atoms.now) }
{
    let known = var_texts(alloc, vars, state.env())?;
    let edges = edge_texts(alloc, defs, structs, state.edges())?;
    let atoms = atom_texts(alloc, atoms)?;
    let mut text = Vec::new(alloc);
    push_part(&mut text, b" ", known.as_slice())?;
    push_next_part(&mut text, edges.as_slice())?;
    push_next_part(&mut text, atoms.as_slice())?;
    Ok(Items::of(text))
}

/// The text of a state: its known variables, its edges and its canonical list, each part as `-` where it is empty.
pub fn print(
    alloc: Global,
    state: &State,
    vars: &[VarInfo],
    defs: &[Def],
    structs: &[StructInfo],
) -> Result<Items<u8>, NoMemory>
    ensures { IfOk result (λ text. IsTextOf vars.now defs.now structs.now state.now text) }
{
    let atoms = state.canon(alloc)?;
    text_with(alloc, state, vars, defs, structs, atoms.as_slice())
}
