// The texts of nodes and atoms.
ghost use Rattle.std.specs.Prelude.{◌≡◌, ◌++◌, OnOk, IfOk, codes, map};
ghost use Rattle.std.specs.Fmt.{signed_decimal};
ghost use Rattle.mc_state_io.specs.Text.Text.{node_text, known_text, offset_text, range_text, atom_text};

use mc_base::text::print_number;
use mc_base::{Atom, Items, NoMemory, NodeId};
use std::alloc::Global;

/// Adds a number with its sign, where it is negative.
fn push_signed(alloc: Global, out: &mut Vec<u8>, number: i64) -> Result<(), NoMemory>
    ensures { OnOk result (out.new.items ≡ out.old.items ++ signed_decimal number) }
{
    let text = format!(in alloc; "{number}")?;
    out.extend_from_slice(text.as_bytes())
}

/// Adds a node.
pub fn push_node(alloc: Global, out: &mut Vec<u8>, node: NodeId) -> Result<(), NoMemory>
    ensures { OnOk result (out.new.items ≡ out.old.items ++ node_text node) }
{
    if node.0 == 0 {
        out.push(b'0')?;
        return Ok(());
    }
    out.push(b'n')?;
    print_number(alloc, out, node.0)
}

/// Adds a node, and `?` where it is not known.
pub fn push_known(alloc: Global, out: &mut Vec<u8>, node: Option<NodeId>) -> Result<(), NoMemory>
    ensures { OnOk result (out.new.items ≡ out.old.items ++ known_text node) }
{
    match node {
        Some(n) => push_node(alloc, out, n),
        None => {
            out.push(b'?')?;
            Ok(())
        }
    }
}

/// Adds a number that is added, with its sign, where it is not 0.
fn push_offset(alloc: Global, out: &mut Vec<u8>, by: i64) -> Result<(), NoMemory>
    ensures { OnOk result (out.new.items ≡ out.old.items ++ offset_text by) }
{
    if by == 0 {
        return Ok(());
    }
    if by > 0 {
        out.push(b'+')?;
    }
    push_signed(alloc, out, by)
}

/// Adds two nodes, a sign between them, and a number.
fn push_relation(
    alloc: Global,
    out: &mut Vec<u8>,
    a: NodeId,
    sign: &[u8],
    b: NodeId,
    by: i64,
) -> Result<(), NoMemory>
    ensures { OnOk result (out.new.items ≡ out.old.items ++ (node_text a ++ sign.now ++ node_text b ++ offset_text by)) }
{
    push_node(alloc, out, a)?;
    out.extend_from_slice(sign)?;
    push_node(alloc, out, b)?;
    push_offset(alloc, out, by)
}

/// Adds the ends of a range, parted by a comma.
fn push_bounds(alloc: Global, out: &mut Vec<u8>, lo: i64, hi: i64) -> Result<(), NoMemory>
    ensures { OnOk result (out.new.items ≡ out.old.items ++ (signed_decimal lo ++ codes "," ++ signed_decimal hi)) }
{
    push_signed(alloc, out, lo)?;
    out.push(b',')?;
    push_signed(alloc, out, hi)
}

/// Adds a node, and what its range begins with.
fn push_within(alloc: Global, out: &mut Vec<u8>, node: NodeId) -> Result<(), NoMemory>
    ensures { OnOk result (out.new.items ≡ out.old.items ++ (node_text node ++ codes " in [")) }
{
    push_node(alloc, out, node)?;
    out.extend_from_slice(b" in [")
}

/// Adds a node and its range.
fn push_range(
    alloc: Global,
    out: &mut Vec<u8>,
    node: NodeId,
    lo: i64,
    hi: i64,
) -> Result<(), NoMemory>
    ensures { OnOk result (out.new.items ≡ out.old.items ++ range_text node lo hi) }
{
    push_within(alloc, out, node)?;
    push_bounds(alloc, out, lo, hi)?;
    out.push(b']')?;
    Ok(())
}

/// Adds an atom.
fn push_atom(alloc: Global, out: &mut Vec<u8>, atom: &Atom) -> Result<(), NoMemory>
    ensures { OnOk result (out.new.items ≡ out.old.items ++ atom_text atom.now) }
{
    match atom {
        Atom::Eq(a, b, by) => push_relation(alloc, out, *a, b"=", *b, *by),
        Atom::Ne(a, b, by) => push_relation(alloc, out, *a, b"!=", *b, *by),
        Atom::In(n, lo, hi) => push_range(alloc, out, *n, *lo, *hi),
    }
}

/// The text of an atom.
fn atom_text(alloc: Global, atom: &Atom) -> Result<Items<u8>, NoMemory>
    ensures { IfOk result (λ text. text ≡ atom_text atom.now) }
{
    let mut out = Vec::new(alloc);
    push_atom(alloc, &mut out, atom)?;
    Ok(Items::of(out))
}

/// The texts of atoms.
pub fn atom_texts(alloc: Global, atoms: &[Atom]) -> Result<Vec<Items<u8>>, NoMemory>
    ensures { IfOk result (λ texts. texts.items ≡ map atom_text atoms.now) }
{
    let mut texts = Vec::new(alloc);
    for atom in atoms {
        texts.push(atom_text(alloc, atom)?)?;
    }
    Ok(texts)
}
