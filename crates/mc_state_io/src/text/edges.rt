// The texts of edges.
ghost use Rattle.std.specs.Prelude.{◌≡◌, ◌++◌, ◌∷◌, OnOk, IfOk, codes, map, slice_get};
ghost use Rattle.mc_state_io.specs.Text.Text.{block_text, joined, nodes_text, pred_text, field_text, field_texts, struct_text, edge_text};

use crate::text::joining::push_joined;
use crate::text::nodes::{push_known, push_node};
use mc_base::{EdgeId, Items, NoMemory, NodeId, PredId, StructId};
use mc_flow::defs::{Def, FieldInfo, StructInfo};
use mc_state::graph::Edge;
use std::alloc::Global;

/// Adds a node and others after it, parted by commas.
fn push_nodes(
    alloc: Global,
    out: &mut Vec<u8>,
    at: NodeId,
    others: &[NodeId],
) -> Result<(), NoMemory>
    ensures { OnOk result (out.new.items ≡ out.old.items ++ nodes_text (at ∷ others.now)) }
{
    push_node(alloc, out, at)?;
    for node in others {
        out.push(b',')?;
        push_node(alloc, out, *node)?;
    }
    Ok(())
}

/// Adds the name of a predicate.
pub fn push_pred(out: &mut Vec<u8>, defs: &[Def], pred: PredId) -> Result<(), NoMemory>
    ensures { OnOk result (out.new.items ≡ out.old.items ++ pred_text defs.now pred) }
{
    if let Some(def) = defs.get(pred.0 as usize) {
        out.extend_from_slice(def.name.as_slice())?;
    }
    Ok(())
}

/// Adds the name of a predicate, and a parenthesis.
fn push_open(out: &mut Vec<u8>, defs: &[Def], pred: PredId) -> Result<(), NoMemory>
    ensures { OnOk result (out.new.items ≡ out.old.items ++ (pred_text defs.now pred ++ codes "(")) }
{
    push_pred(out, defs, pred)?;
    out.push(b'(')?;
    Ok(())
}

/// The text of a field with its node.
fn field_text(alloc: Global, field: &FieldInfo, node: Option<NodeId>) -> Result<Items<u8>, NoMemory>
    ensures { IfOk result (λ text. text ≡ field_text field.now node) }
{
    let mut out = Vec::from_slice(alloc, field.name.as_slice())?;
    out.push(b':')?;
    push_known(alloc, &mut out, node)?;
    Ok(Items::of(out))
}

/// The texts of fields with their nodes, one by one.
fn field_texts(
    alloc: Global,
    fields: &[FieldInfo],
    nodes: &[Option<NodeId>],
) -> Result<Vec<Items<u8>>, NoMemory>
    ensures { IfOk result (λ texts. texts.items ≡ field_texts fields.now nodes.now) }
{
    let mut texts = Vec::new(alloc);
    for (i, field) in fields.iter().enumerate() {
        let Some(node) = nodes.get(i) else {
            return Ok(texts);
        };
        texts.push(field_text(alloc, field, *node)?)?;
    }
    Ok(texts)
}

/// Adds fields with their nodes, parted by commas.
fn push_fields(
    alloc: Global,
    out: &mut Vec<u8>,
    fields: &[FieldInfo],
    nodes: &[Option<NodeId>],
) -> Result<(), NoMemory>
    ensures { OnOk result (out.new.items ≡ out.old.items ++ joined (codes ",") (field_texts fields.now nodes.now)) }
{
    let texts = field_texts(alloc, fields, nodes)?;
    push_joined(out, b",", texts.as_slice())
}

/// Adds a struct's name with fields and their nodes.
fn push_block(
    alloc: Global,
    out: &mut Vec<u8>,
    info: &StructInfo,
    nodes: &[Option<NodeId>],
) -> Result<(), NoMemory>
    ensures { OnOk result (out.new.items ≡ out.old.items ++ block_text info.now nodes.now) }
{
    out.extend_from_slice(info.name.as_slice())?;
    out.push(b'{')?;
    push_fields(alloc, out, info.fields.as_slice(), nodes)?;
    out.push(b'}')?;
    Ok(())
}

/// Adds the same for a struct that is there.
fn push_struct(
    alloc: Global,
    out: &mut Vec<u8>,
    structs: &[StructInfo],
    shape: StructId,
    nodes: &[Option<NodeId>],
) -> Result<(), NoMemory>
    ensures { OnOk result (out.new.items ≡ out.old.items ++ struct_text (slice_get structs.now shape.0) nodes.now) }
{
    match structs.get(shape.0 as usize) {
        Some(info) => push_block(alloc, out, info, nodes),
        None => out.extend_from_slice(b"{}"),
    }
}

/// Adds an arrow, the node where a segment ends and others.
fn push_end(
    alloc: Global,
    out: &mut Vec<u8>,
    end: NodeId,
    others: &[NodeId],
) -> Result<(), NoMemory>
    ensures { OnOk result (out.new.items ≡ out.old.items ++ (codes " -> " ++ nodes_text (end ∷ others.now))) }
{
    out.extend_from_slice(b" -> ")?;
    push_nodes(alloc, out, end, others)
}

/// Adds an edge.
fn push_edge(
    alloc: Global,
    out: &mut Vec<u8>,
    defs: &[Def],
    structs: &[StructInfo],
    edge: &Edge,
) -> Result<(), NoMemory>
    ensures { OnOk result (out.new.items ≡ out.old.items ++ edge_text defs.now structs.now edge.now) }
{
    match edge {
        Edge::Block { at, shape, fields } => {
            push_node(alloc, out, *at)?;
            out.extend_from_slice(b" -> ")?;
            push_struct(alloc, out, structs, *shape, fields.as_slice())
        }
        Edge::Ind { at, pred, args } => {
            push_open(out, defs, *pred)?;
            push_nodes(alloc, out, *at, args.as_slice())?;
            out.push(b')')?;
            Ok(())
        }
        Edge::Seg {
            at,
            args,
            pred,
            end,
            end_args,
        } => {
            push_open(out, defs, *pred)?;
            push_nodes(alloc, out, *at, args.as_slice())?;
            push_end(alloc, out, *end, end_args.as_slice())?;
            out.push(b')')?;
            Ok(())
        }
    }
}

/// The text of an edge.
fn edge_text(
    alloc: Global,
    defs: &[Def],
    structs: &[StructInfo],
    edge: &Edge,
) -> Result<Items<u8>, NoMemory>
    ensures { IfOk result (λ text. text ≡ edge_text defs.now structs.now edge.now) }
{
    let mut out = Vec::new(alloc);
    push_edge(alloc, &mut out, defs, structs, edge)?;
    Ok(Items::of(out))
}

/// The texts of edges.
pub fn edge_texts(
    alloc: Global,
    defs: &[Def],
    structs: &[StructInfo],
    edges: &[(EdgeId, Edge)],
) -> Result<Vec<Items<u8>>, NoMemory>
    ensures { IfOk result (λ texts. texts.items ≡ map (λ e. edge_text defs.now structs.now e.1) edges.now) }
{
    let mut texts = Vec::new(alloc);
    for edge in edges {
        texts.push(edge_text(alloc, defs, structs, &edge.1)?)?;
    }
    Ok(texts)
}
