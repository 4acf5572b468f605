// Places of points, and what instructions lack there.
ghost use Rattle.std.specs.Prelude.{◌≡◌, ◌++◌, Some, OnOk, codes};
ghost use Rattle.mc_state_io.specs.Text.Text.{node_text};
ghost use Rattle.mc_follow.specs.Report.Report.{field_name, gap_text, point_text, read_struct};
ghost use Rattle.mc_rules_steps.specs.Operands.{code_at};

use mc_apply_steps::instructions::code_at;
use mc_base::text::print_place;
use mc_base::{NoMemory, NodeId, PointId, StructId};
use mc_flow::defs::{Defs, StructInfo};
use mc_flow::{Flow, Instr};
use mc_rules_steps::Gap;
use mc_state_io::text::{push_node, push_pred, push_var};
use std::alloc::Global;

/// Adds the place of a point's instruction.
pub fn push_point(
    alloc: Global,
    out: &mut Vec<u8>,
    flow: &Flow,
    point: PointId,
) -> Result<(), NoMemory>
    ensures { OnOk result (out.new.items ≡ out.old.items ++ point_text flow.now point) }
{
    match flow.points.as_slice().get(point.0 as usize) {
        Some(there) => print_place(alloc, out, there.place),
        None => Ok(()),
    }
}

/// The struct of which an instruction reads a field.
fn read_struct(code: &Instr) -> Option<StructId>
    ensures { result ≡ read_struct (Some code.now) }
{
    match code {
        Instr::Load(_, _, shape, _, _) => Some(*shape),
        _ => None,
    }
}

/// The same of the instruction at a point.
fn struct_at(flow: &Flow, point: PointId) -> Option<StructId>
    ensures { result ≡ read_struct (code_at flow.now point) }
{
    match code_at(flow, point) {
        Some(code) => read_struct(code),
        None => None,
    }
}

/// Adds the name of a field of a struct.
fn push_field(
    out: &mut Vec<u8>,
    structs: &[StructInfo],
    shape: Option<StructId>,
    field: u64,
) -> Result<(), NoMemory>
    ensures { OnOk result (out.new.items ≡ out.old.items ++ field_name structs.now shape field) }
{
    let Some(shape) = shape else {
        return Ok(());
    };
    let Some(info) = structs.get(shape.0 as usize) else {
        return Ok(());
    };
    match info.fields.as_slice().get(field as usize) {
        Some(there) => out.extend_from_slice(there.name.as_slice()),
        None => Ok(()),
    }
}

/// Adds a word and a node.
fn push_at(alloc: Global, out: &mut Vec<u8>, word: &[u8], node: NodeId) -> Result<(), NoMemory>
    ensures { OnOk result (out.new.items ≡ out.old.items ++ (word.now ++ node_text node)) }
{
    out.extend_from_slice(word)?;
    push_node(alloc, out, node)
}

/// Adds the field of the block at a node that the instruction at a point reads.
fn push_unset(
    alloc: Global,
    out: &mut Vec<u8>,
    flow: &Flow,
    point: PointId,
    node: NodeId,
    field: u64,
) -> Result<(), NoMemory>
    ensures { OnOk result (out.new.items ≡ out.old.items
        ++ (codes "UninitField " ++ node_text node ++ codes " " ++ field_name flow.now.structs.list (read_struct (code_at flow.now point)) field)) }
{
    push_at(alloc, out, b"UninitField ", node)?;
    out.push(b' ')?;
    let shape = struct_at(flow, point);
    push_field(out, flow.structs.list.as_slice(), shape, field)
}

/// Adds what the instruction at a point lacks.
pub fn push_gap(
    alloc: Global,
    out: &mut Vec<u8>,
    flow: &Flow,
    defs: &Defs,
    point: PointId,
    gap: Gap,
) -> Result<(), NoMemory>
    ensures { OnOk result (out.new.items ≡ out.old.items ++ gap_text flow.now defs.now point gap) }
{
    match gap {
        Gap::Uninit(x) => {
            out.extend_from_slice(b"Uninit ")?;
            push_var(alloc, out, flow.vars.as_slice(), x.0 as usize)
        }
        Gap::NoBlock(node) => push_at(alloc, out, b"NoBlock ", node),
        Gap::Reached => out.extend_from_slice(b"Reached"),
        Gap::NoShape(pred, node) => {
            out.extend_from_slice(b"NoShape ")?;
            push_pred(out, defs.as_slice(), pred)?;
            push_at(alloc, out, b" ", node)
        }
        Gap::UninitField(node, field) => push_unset(alloc, out, flow, point, node, field),
        Gap::NotEmpty(true) => out.extend_from_slice(b"NotEmpty"),
        Gap::NotEmpty(false) => out.extend_from_slice(b"NotEmpty lost"),
    }
}
