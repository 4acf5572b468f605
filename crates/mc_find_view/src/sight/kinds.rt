// The kinds of places.
use crate::sight::Sight;
use mc_base::{Kind, PredId, StructId, VarId};

impl Sight<'_> {
    /// The kind of a variable.
    pub fn var_kind(&self, x: VarId) -> Kind {
        match self.flow.vars.as_slice().get(x.0 as usize) {
            Some(info) => info.kind,
            None => Kind::Int,
        }
    }

    /// The kind of a field.
    pub fn field_kind(&self, shape: StructId, field: usize) -> Kind {
        match self.flow.structs.list.as_slice().get(shape.0 as usize) {
            Some(info) => match info.fields.as_slice().get(field) {
                Some(own) => own.kind,
                None => Kind::Int,
            },
            None => Kind::Int,
        }
    }

    /// The kind of a parameter.
    pub fn param_kind(&self, pred: PredId, place: usize) -> Kind {
        match self.defs.as_slice().get(pred.0 as usize) {
            Some(def) => def
                .params
                .as_slice()
                .get(place)
                .copied()
                .unwrap_or(Kind::Int),
            None => Kind::Int,
        }
    }
}
