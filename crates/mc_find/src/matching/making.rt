// The lines of a fit.
use crate::matching::{Fit, Part};
use mc_base::{Args, EdgeId, Kind, NoMemory, NodeId, PredId};
use mc_find_shrink::{MadeOf, Trail, make};
use mc_flow::defs::Defs;
use mc_lines::cert::Line;
use mc_state::{NodeKind, Term};
use std::alloc::Global;

/// The kind of a node of a head.
fn kind_of(kind: NodeKind) -> Kind {
    match kind {
        NodeKind::Zero => Kind::Ptr,
        NodeKind::Int => Kind::Int,
        NodeKind::Ptr => Kind::Ptr,
    }
}

/// The kinds of the parameters of a predicate.
fn params_of<'a>(defs: &'a Defs, pred: PredId) -> &'a [Kind] {
    match defs.as_slice().get(pred.0 as usize) {
        Some(def) => def.params.as_slice(),
        None => &[],
    }
}

/// Nodes as arguments.
fn args_of(alloc: Global, nodes: &[NodeId]) -> Result<Args<NodeId>, NoMemory> {
    let mut args = Args::new(alloc);
    for node in nodes {
        args.push(*node)?;
    }
    Ok(args)
}

/// Makes an empty segment.
fn make_empty(
    alloc: Global,
    defs: &Defs,
    trail: &mut Trail<'_>,
    pred: PredId,
    at: &Term,
    args: &[Term],
    end: &Term,
    ends: &[Term],
) -> Result<Option<EdgeId>, NoMemory> {
    let Some(start) = trail.name(Kind::Ptr, at)? else {
        return Ok(None);
    };
    let Some(stop) = trail.name(Kind::Ptr, end)? else {
        return Ok(None);
    };
    let kinds = params_of(defs, pred);
    let Some(own) = trail.name_all(alloc, kinds, args)? else {
        return Ok(None);
    };
    let Some(last) = trail.name_all(alloc, kinds, ends)? else {
        return Ok(None);
    };
    let line = Line::L7(
        pred,
        start,
        args_of(alloc, own.as_slice())?,
        stop,
        args_of(alloc, last.as_slice())?,
    );
    if trail.apply(line)? {
        Ok(trail.last_edge())
    } else {
        Ok(None)
    }
}

/// Makes an edge of a head.
fn make_part(
    alloc: Global,
    defs: &Defs,
    trail: &mut Trail<'_>,
    part: &Part,
) -> Result<Option<EdgeId>, NoMemory> {
    match part {
        Part::Block(edge) => Ok(Some(*edge)),
        Part::Ind {
            pred,
            at,
            args,
            marks,
        } => {
            let own = args.as_slice();
            match make(alloc, defs, trail, *pred, *at, own, false, marks.as_slice())? {
                MadeOf::Edge(edge) => Ok(Some(edge)),
                MadeOf::Nothing => Ok(None),
                MadeOf::Failed => Ok(None),
            }
        }
        Part::Seg {
            pred,
            at,
            args,
            end,
            ends,
            marks,
        } => {
            let own = args.as_slice();
            match make(alloc, defs, trail, *pred, *at, own, true, marks.as_slice())? {
                MadeOf::Edge(edge) => Ok(Some(edge)),
                MadeOf::Nothing => {
                    make_empty(alloc, defs, trail, *pred, at, own, end, ends.as_slice())
                }
                MadeOf::Failed => Ok(None),
            }
        }
    }
}

impl Fit {
    /// Makes the edges of the head. None where one can't be made.
    pub fn make_edges(
        &self,
        alloc: Global,
        defs: &Defs,
        trail: &mut Trail<'_>,
    ) -> Result<Option<Vec<EdgeId>>, NoMemory> {
        let mut edges = Vec::with_capacity(alloc, self.parts.len())?;
        for part in self.parts.as_slice() {
            let Some(own) = part else {
                return Ok(None);
            };
            match make_part(alloc, defs, trail, own)? {
                Some(edge) => edges.push(edge)?,
                None => return Ok(None),
            }
        }
        Ok(Some(edges))
    }

    /// Names the images of the head's nodes. None where one can't be named.
    pub fn name_images(
        &self,
        alloc: Global,
        trail: &mut Trail<'_>,
        kinds: &[NodeKind],
    ) -> Result<Option<Vec<NodeId>>, NoMemory> {
        let mut nodes = Vec::with_capacity(alloc, self.images.len())?;
        for (place, image) in self.images.as_slice().iter().enumerate() {
            let (Some(term), Some(kind)) = (image, kinds.get(place)) else {
                return Ok(None);
            };
            match trail.name(kind_of(*kind), term)? {
                Some(node) => nodes.push(node)?,
                None => return Ok(None),
            }
        }
        Ok(Some(nodes))
    }
}
