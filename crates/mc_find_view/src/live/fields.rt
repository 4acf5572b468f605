// Which fields are stored before they are read.
use crate::live::Rows;
use crate::live::moves::set_variable;
use mc_base::{NoMemory, StructId, VarId};
use mc_flow::{Flow, Instr};
use std::alloc::Global;

/// A field of the block to which a variable points.
#[derive(Clone, Copy, PartialEq, Eq)]
pub struct StoredField {
    pub base: VarId,
    pub shape: StructId,
    pub field: u64,
}

/// The fields that a flow graph stores, and for each point which of them are stored before they can be read.
#[derive(Drop)]
pub struct StoredFields {
    fields: Vec<StoredField>,
    dead: Rows,
}

/// The field that an instruction stores.
fn stored(code: &Instr) -> Option<StoredField> {
    match code {
        Instr::Store(base, shape, field, _, _) => Some(StoredField {
            base: *base,
            shape: *shape,
            field: *field,
        }),
        _ => None,
    }
}

/// The fields that are stored, each once.
fn all_stored(alloc: Global, flow: &Flow) -> Result<Vec<StoredField>, NoMemory> {
    let mut list: Vec<StoredField> = Vec::new(alloc);
    for point in flow.points.as_slice() {
        if let Some(field) = stored(&point.code) {
            if !list.as_slice().contains(&field) {
                list.push(field)?;
            }
        }
    }
    Ok(list)
}

/// What an instruction does to the row: what it stores is dead before it; what it may read, and what hangs on a variable
/// that it sets, is not.
fn change(row: &mut Rows, fields: &[StoredField], code: &Instr) {
    match code {
        Instr::Load(x, _, shape, field, _) => {
            for (place, each) in fields.iter().enumerate() {
                let is_read = each.shape == *shape && each.field == *field;
                if is_read || each.base == *x {
                    row.set(0, place, false);
                }
            }
        }
        Instr::Store(base, shape, field, _, _) => {
            for (place, each) in fields.iter().enumerate() {
                if each.base == *base && each.shape == *shape && each.field == *field {
                    row.set(0, place, true);
                }
            }
        }
        Instr::AssertShape(_, _, _, _) => row.fill_row(0, false),
        Instr::Undef(list, _) => {
            for x in list.as_slice() {
                unset(row, fields, *x);
            }
        }
        _ => {
            if let Some(x) = set_variable(code) {
                unset(row, fields, x);
            }
        }
    }
}

/// What hangs on a variable is not dead.
fn unset(row: &mut Rows, fields: &[StoredField], x: VarId) {
    for (place, each) in fields.iter().enumerate() {
        if each.base == x {
            row.set(0, place, false);
        }
    }
}

/// Puts what is dead at a point into its row; whether that changed.
fn update(
    dead: &mut Rows,
    row: &mut Rows,
    fields: &[StoredField],
    point: usize,
    code: &Instr,
) -> bool {
    let (one, other) = code.targets();
    row.fill_row(0, one.is_some());
    if let Some(q) = one {
        row.keep_row(dead, q.0 as usize, 0);
    }
    if let Some(q) = other {
        row.keep_row(dead, q.0 as usize, 0);
    }
    change(row, fields, code);
    dead.take_row(row, 0, point)
}

/// Goes over all points once, from the last to the first; whether a row changed.
fn pass(flow: &Flow, dead: &mut Rows, row: &mut Rows, fields: &[StoredField]) -> bool {
    let mut changed = false;
    let points = flow.points.as_slice();
    for behind in 0..points.len() {
        let at = points.len() - 1 - behind;
        if let Some(point) = points.get(at) {
            if update(dead, row, fields, at, &point.code) {
                changed = true;
            }
        }
    }
    changed
}

impl StoredFields {
    /// The stored fields of a flow graph.
    pub fn of(alloc: Global, flow: &Flow) -> Result<StoredFields, NoMemory> {
        let fields = all_stored(alloc, flow)?;
        let mut dead = Rows::new(alloc, flow.points.len(), fields.len(), true)?;
        let mut row = Rows::new(alloc, 1, fields.len(), true)?;
        for _ in 0..flow.points.len() {
            if !pass(flow, &mut dead, &mut row, fields.as_slice()) {
                break;
            }
        }
        Ok(StoredFields { fields, dead })
    }

    /// The fields that are stored, each once.
    pub fn fields(&self) -> &[StoredField] {
        self.fields.as_slice()
    }

    /// Whether from a point on the field at a place of the list is stored through its variable before it can be read.
    pub fn is_dead(&self, point: usize, place: usize) -> bool {
        self.dead.has(point, place)
    }
}
