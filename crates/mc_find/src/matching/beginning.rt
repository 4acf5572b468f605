// The images of variables.
use crate::matching::Fit;
use mc_base::{Kind, NULL, NoMemory, NodeId, VarId};
use mc_find_shrink::Manner;
use mc_state::{RawState, Term};
use mc_symbolic::State;
use std::alloc::Global;

/// Whether a pointer is null in the head exactly where it is in the state.
fn are_null_alike(state: &State, kind: Kind, node: NodeId, own: NodeId) -> bool {
    match kind {
        Kind::Int => true,
        Kind::Ptr => (node == NULL) == state.are_equal(own, NULL),
    }
}

/// What variables say of the images of a head's nodes. None where they do not fit. A pointer must be null on both sides or on
/// neither, unless null fits where the head has a structure that may be empty.
pub fn begin(
    alloc: Global,
    manner: Manner<'_>,
    state: &State,
    head: &RawState,
    nulls: bool,
) -> Result<Option<Fit>, NoMemory> {
    let mut parts = Vec::with_capacity(alloc, head.edges.len())?;
    for _ in head.edges.as_slice() {
        parts.push(None)?;
    }
    let mut fit = Fit {
        images: vec![in alloc; None; head.kinds.len()]?,
        parts,
        used: Vec::new(alloc),
    };
    if !fit.bind(state, NULL, Term { node: NULL, add: 0 }) {
        return Ok(None);
    }
    for (place, var) in head.vars.as_slice().iter().enumerate() {
        let Some(node) = var else {
            continue;
        };
        let x = VarId(place as u64);
        let Some(own) = state.var(x) else {
            return Ok(None);
        };
        let term = Term { node: own, add: 0 };
        let is_alike = nulls || are_null_alike(state, manner.sight.var_kind(x), *node, own);
        if !is_alike || !fit.bind(state, *node, term) {
            return Ok(None);
        }
    }
    Ok(Some(fit))
}
