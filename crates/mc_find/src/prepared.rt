// What is found out of a program once, before it is searched.
ghost use Rattle.std.specs.Prelude.{◌≡◌};

use crate::cuts::first_cuts;
use crate::walks::{Graph, Task};
use mc_base::{NoMemory, PointId, PredId};
use mc_find_view::live::{
    Asserted, Rows, StoredFields, asserted_shapes, constant_variables, live_variables,
    wanted_predicates,
};
use mc_find_view::sight::Sight;
use mc_flow::{Defs, Flow};
use std::alloc::Global;

/// What is found out of a program before it is searched.
#[derive(Drop)]
pub struct Prepared {
    live: Rows,
    stored: StoredFields,
    constants: Vec<bool>,
    graph: Graph,
    empties: Vec<bool>,
    wanted: Vec<PredId>,
    asserted: Vec<Asserted>,
    cuts: Vec<PointId>,
}

/// The variables that count at each point: those that are read later, and where states are merged at the end of an `if`, all.
fn counting_variables(alloc: Global, flow: &Flow, merge: bool) -> Result<Rows, NoMemory> {
    let mut rows = live_variables(alloc, flow)?;
    if merge {
        for point in flow.merges.as_slice() {
            rows.fill_row(point.0 as usize, true);
        }
    }
    Ok(rows)
}

/// Which variables hold constants alone, by whose values states are told apart. Where states are merged, none.
fn telling_constants(alloc: Global, flow: &Flow, merge: bool) -> Result<Vec<bool>, NoMemory> {
    if merge {
        Ok(Vec::new(alloc))
    } else {
        constant_variables(alloc, flow)
    }
}

impl Prepared {
    /// What is found out of a program, where the points at which two ways meet may be cuts too.
    pub fn of(alloc: Global, flow: &Flow, defs: &Defs, merge: bool) -> Result<Prepared, NoMemory> {
        let live = counting_variables(alloc, flow, merge)?;
        let stored = StoredFields::of(alloc, flow)?;
        let constants = telling_constants(alloc, flow, merge)?;
        let graph = Graph::of(alloc, flow)?;
        let empties = graph.reaching_empty(alloc, flow)?;
        let wanted = wanted_predicates(alloc, flow, defs)?;
        let asserted = asserted_shapes(alloc, flow)?;
        let cuts = first_cuts(alloc, flow, merge)?;
        Ok(Prepared {
            live,
            stored,
            constants,
            graph,
            empties,
            wanted,
            asserted,
            cuts,
        })
    }

    /// What each attempt at this program goes by.
    pub fn task<'a>(&'a self, flow: &'a Flow, defs: &'a Defs) -> Task<'a>
        ensures flow { result.sight.flow.now ≡ flow.now }
        ensures defs { result.sight.defs.now ≡ defs.now }
    {
        let sight = Sight {
            flow,
            defs,
            live: &self.live,
            stored: &self.stored,
            constants: self.constants.as_slice(),
            all: false,
        };
        Task {
            sight,
            graph: &self.graph,
            empties: self.empties.as_slice(),
            wanted: self.wanted.as_slice(),
            asserted: self.asserted.as_slice(),
            cuts: self.cuts.as_slice(),
        }
    }
}
