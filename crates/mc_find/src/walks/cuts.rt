// The cuts of an attempt.
use crate::walks::graph::Graph;
use crate::walks::plans::Plan;
use crate::walks::style::{Rung, first_rung};
use mc_base::{NoMemory, PointId};
use std::alloc::Global;

/// A cut: the places of its heads, how states are folded there, how far its ladder is climbed, which try of another plan comes
/// next, how many steps were spent on walks from it since it began, whether it had too many heads once, whether no try is left,
/// and the plans of all cuts when the first was made.
#[derive(Drop)]
pub struct Cut {
    pub point: PointId,
    pub heads: Vec<usize>,
    pub plan: Plan,
    pub rung: Rung,
    pub tries: usize,
    pub spent: u64,
    pub was_crowded: bool,
    pub is_given_up: bool,
    pub saved: Vec<Plan>,
}

impl Cut {
    /// Has a head no more.
    pub fn forget(&mut self, head: usize) {
        self.heads.retain(|own| *own != head);
    }

    /// Lets it begin again at a rung.
    pub fn begin_at(&mut self, rung: Rung) {
        self.rung = rung;
        self.begin_again();
    }

    /// Lets its steps begin again.
    pub fn begin_again(&mut self) {
        self.spent = 0;
    }

    /// Gives it a plan.
    pub fn follow_plan(&mut self, plan: Plan) {
        self.plan = plan;
        self.begin_at(first_rung(plan.step));
    }

    /// Whether it is at the first step of its ladder.
    pub fn is_at_first(&self) -> bool {
        self.rung.step == self.plan.step && !self.rung.loses && !self.rung.is_blind
    }
}

/// The cuts of an attempt: the place of each point that is one, the cuts in the order in which they came, and the least cut of
/// each component.
#[derive(Drop)]
pub struct Cuts {
    places: Vec<Option<usize>>,
    list: Vec<Cut>,
    least: Vec<Option<PointId>>,
}

impl Cuts {
    /// The cuts at some points, with this plan and rung.
    pub fn at(
        alloc: Global,
        graph: &Graph,
        points: &[PointId],
        plan: Plan,
        rung: Rung,
    ) -> Result<Cuts, NoMemory> {
        let mut cuts = Cuts {
            places: vec![in alloc; None; graph.size()]?,
            list: Vec::with_capacity(alloc, points.len())?,
            least: vec![in alloc; None; graph.size()]?,
        };
        for point in points {
            cuts.add(alloc, graph, *point, plan, rung)?;
        }
        Ok(cuts)
    }

    /// Adds a cut.
    pub fn add(
        &mut self,
        alloc: Global,
        graph: &Graph,
        point: PointId,
        plan: Plan,
        rung: Rung,
    ) -> Result<(), NoMemory> {
        if let Some(slot) = self.places.get_mut(point.0 as usize) {
            *slot = Some(self.list.len());
        }
        self.list.push(Cut {
            point,
            heads: Vec::new(alloc),
            plan,
            rung,
            tries: 0,
            spent: 0,
            was_crowded: false,
            is_given_up: false,
            saved: Vec::new(alloc),
        })?;
        if let Some(slot) = self.least.get_mut(graph.component(point)) {
            match *slot {
                Some(least) => {
                    if point.0 < least.0 {
                        *slot = Some(point);
                    }
                }
                None => *slot = Some(point),
            }
        }
        Ok(())
    }

    /// The place of a cut.
    pub fn place_of(&self, point: PointId) -> Option<usize> {
        self.places
            .as_slice()
            .get(point.0 as usize)
            .copied()
            .flatten()
    }

    /// Whether a point is a cut.
    pub fn has(&self, point: PointId) -> bool {
        self.place_of(point).is_some()
    }

    /// All cuts, in the order in which they came.
    pub fn list(&self) -> &[Cut] {
        self.list.as_slice()
    }

    /// All cuts, to be changed.
    pub fn list_mut(&mut self) -> &mut [Cut] {
        self.list.as_mut_slice()
    }

    /// The cut at a point.
    pub fn find(&self, point: PointId) -> Option<&Cut> {
        match self.place_of(point) {
            Some(place) => self.list.as_slice().get(place),
            None => None,
        }
    }

    /// The places of the heads of a cut.
    pub fn heads_of(&self, point: PointId) -> &[usize] {
        match self.find(point) {
            Some(cut) => cut.heads.as_slice(),
            None => &[],
        }
    }

    /// The cut at a point, to be changed.
    pub fn find_mut(&mut self, point: PointId) -> Option<&mut Cut> {
        match self.place_of(point) {
            Some(place) => self.list.get_mut(place),
            None => None,
        }
    }

    /// The name of a cut's component: its least cut.
    pub fn component(&self, graph: &Graph, point: PointId) -> PointId {
        self.least
            .as_slice()
            .get(graph.component(point))
            .copied()
            .flatten()
            .unwrap_or(point)
    }

    /// The points of the cuts, in the order in which they came.
    pub fn points(&self, alloc: Global) -> Result<Vec<PointId>, NoMemory> {
        let mut points: Vec<PointId> = Vec::with_capacity(alloc, self.list.len())?;
        for cut in self.list.as_slice() {
            points.push(cut.point)?;
        }
        Ok(points)
    }

    /// The points of the cuts, ascending.
    pub fn sorted(&self, alloc: Global) -> Result<Vec<PointId>, NoMemory> {
        let mut points = self.points(alloc)?;
        points.sort()?;
        Ok(points)
    }
}
