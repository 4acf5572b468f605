// Which cuts are folded otherwise where a walk does not come through.
use crate::matching::Step;
use crate::walks::plans::{Plan, planned};
use crate::walks::style::first_rung;
use crate::walks::{Aim, Attempt};
use mc_base::{NoMemory, PointId};

/// The most groups of cuts that are given other plans.
const GROUPS: usize = 5;

/// What is tried next: marks of cuts, by their places, and the plan that they are given.
#[derive(Drop)]
struct Try {
    marks: Vec<bool>,
    plan: Plan,
}

/// Whether a place is marked.
fn has(marks: &[bool], place: usize) -> bool {
    marks.get(place).copied().unwrap_or(false)
}

/// Marks a place.
fn mark(marks: &mut Vec<bool>, place: usize) {
    if let Some(slot) = marks.get_mut(place) {
        *slot = true;
    }
}

impl Attempt<'_> {
    /// The plan with which each cut begins.
    pub fn first_plan(&self) -> Plan {
        planned(0, 0, self.style.rung.step, self.limits.keys)
    }

    /// Whether a certificate is made, or a cut may still be given another plan.
    pub fn is_certain(&self, cut: PointId) -> bool {
        self.aim == Aim::Certificate || self.may_blame(cut)
    }

    /// Whether a cut may still be given another plan.
    pub fn may_blame(&self, cut: PointId) -> bool {
        match self.cuts.find(cut) {
            Some(own) => self.blames && !own.is_given_up,
            None => false,
        }
    }

    /// Marks the cuts of the components of marked ones.
    fn mark_components(&self, marks: &mut Vec<bool>) -> Result<(), NoMemory> {
        let graph = self.task.graph;
        let mut components = vec![in self.alloc; false; graph.size()]?;
        for (place, cut) in self.cuts.list().iter().enumerate() {
            if has(marks.as_slice(), place) {
                mark(&mut components, graph.component(cut.point));
            }
        }
        for (place, cut) in self.cuts.list().iter().enumerate() {
            if has(components.as_slice(), graph.component(cut.point)) {
                mark(marks, place);
            }
        }
        Ok(())
    }

    /// Marks the cuts that come right before marked ones, and those of their components.
    fn mark_before(&self, marks: &mut Vec<bool>) -> Result<(), NoMemory> {
        let graph = self.task.graph;
        let mut met = vec![in self.alloc; false; graph.size()]?;
        let mut open = Vec::new(self.alloc);
        for (place, cut) in self.cuts.list().iter().enumerate() {
            if has(marks.as_slice(), place) {
                open.extend_from_slice(graph.before(cut.point.0 as usize))?;
            }
        }
        for _ in 0..graph.size().saturating_mul(3) {
            let Some(point) = open.pop() else {
                break;
            };
            if has(met.as_slice(), point) {
                continue;
            }
            mark(&mut met, point);
            match self.cuts.place_of(PointId(point as u64)) {
                Some(place) => mark(marks, place),
                None => open.extend_from_slice(graph.before(point))?,
            }
        }
        self.mark_components(marks)
    }

    /// Marks the next group of cuts after one.
    fn mark_next(&self, marks: &mut Vec<bool>, group: usize) -> Result<(), NoMemory> {
        if group == 1 {
            self.mark_components(marks)
        } else {
            self.mark_before(marks)
        }
    }

    /// The groups of cuts that are given other plans for a cut, the nearest first, each other than the one before.
    fn groups(&self, cut: PointId) -> Result<Vec<Vec<bool>>, NoMemory> {
        let mut list = Vec::new(self.alloc);
        let mut marks = vec![in self.alloc; false; self.cuts.list().len()]?;
        if let Some(place) = self.cuts.place_of(cut) {
            mark(&mut marks, place);
        }
        for group in 1..GROUPS {
            let own = Vec::from_slice(self.alloc, marks.as_slice())?;
            self.mark_next(&mut marks, group)?;
            if own.as_slice() != marks.as_slice() {
                list.push(own)?;
            }
        }
        list.push(marks)?;
        Ok(list)
    }

    /// Whether a plan at its first step is something else for one of the marked cuts. More heads make no difference where there
    /// were never too many.
    fn changes(&self, marks: &[bool], plan: Plan) -> bool {
        let mut is_other = false;
        let mut may_crowd = plan.keys <= self.limits.keys;
        for (place, cut) in self.cuts.list().iter().enumerate() {
            if has(marks, place) {
                is_other = is_other || cut.plan != plan || !cut.is_at_first();
                may_crowd = may_crowd || cut.was_crowded;
            }
        }
        is_other && may_crowd
    }

    /// What is tried next for a cut. None where all was tried.
    fn next_try(&mut self, cut: PointId) -> Result<Option<Try>, NoMemory> {
        let groups = self.groups(cut)?;
        let count = self.plans.len();
        if count == 0 {
            return Ok(None);
        }
        for _ in 0..groups.len().saturating_mul(count) {
            let Some(own) = self.cuts.find_mut(cut) else {
                return Ok(None);
            };
            let number = own.tries;
            own.tries = number.saturating_add(1);
            let Some(marks) = groups.as_slice().get(number / count) else {
                return Ok(None);
            };
            let Some(plan) = self.plans.as_slice().get(number % count).copied() else {
                return Ok(None);
            };
            if self.changes(marks.as_slice(), plan) {
                let marks = Vec::from_slice(self.alloc, marks.as_slice())?;
                return Ok(Some(Try { marks, plan }));
            }
        }
        Ok(None)
    }

    /// The plans of all cuts.
    fn all_plans(&self) -> Result<Vec<Plan>, NoMemory> {
        let mut list = Vec::with_capacity(self.alloc, self.cuts.list().len())?;
        for cut in self.cuts.list() {
            list.push(cut.plan)?;
        }
        Ok(list)
    }

    /// Keeps the plans of all cuts before the first try for a cut.
    fn save_plans(&mut self, cut: PointId) -> Result<(), NoMemory> {
        let plans = self.all_plans()?;
        if let Some(own) = self.cuts.find_mut(cut) {
            if own.tries == 0 {
                own.saved = plans;
            }
        }
        Ok(())
    }

    /// Drops the heads of marked cuts, and those of all cuts that come after one of them.
    fn drop_after(&mut self, changed: &[bool]) -> Result<(), NoMemory> {
        let mut marks = vec![in self.alloc; false; self.task.graph.size()]?;
        for (place, cut) in self.cuts.list().iter().enumerate() {
            if has(changed, place) {
                self.task
                    .graph
                    .mark_after(self.alloc, &mut marks, cut.point)?;
            }
        }
        self.drop_heads_at(marks.as_slice())?;
        for cut in self.cuts.list_mut() {
            if has(marks.as_slice(), cut.point.0 as usize) {
                cut.begin_again();
            }
        }
        Ok(())
    }

    /// Gives marked cuts a plan.
    fn follow_plan(&mut self, own: &Try) -> Result<(), NoMemory> {
        let marks = own.marks.as_slice();
        for (place, cut) in self.cuts.list_mut().iter_mut().enumerate() {
            if has(marks, place) {
                cut.follow_plan(own.plan);
            }
        }
        self.drop_after(marks)
    }

    /// Gives up a cut: the cuts have the plans that they had before its first try.
    fn give_up_on(&mut self, cut: PointId) -> Result<(), NoMemory> {
        let Some(own) = self.cuts.find_mut(cut) else {
            return Ok(());
        };
        own.is_given_up = true;
        let saved = Vec::from_slice(self.alloc, own.saved.as_slice())?;
        let mut changed = vec![in self.alloc; false; self.cuts.list().len()]?;
        for (place, each) in self.cuts.list_mut().iter_mut().enumerate() {
            if let Some(plan) = saved.as_slice().get(place) {
                if *plan != each.plan {
                    each.follow_plan(*plan);
                    mark(&mut changed, place);
                }
            }
        }
        self.drop_after(changed.as_slice())
    }

    /// Gives up all cuts that have been given other plans.
    pub fn give_up_on_all(&mut self) -> Result<(), NoMemory> {
        for place in 0..self.cuts.list().len() {
            let found = match self.cuts.list().get(place) {
                Some(own) => {
                    if own.tries > 0 && !own.is_given_up {
                        Some(own.point)
                    } else {
                        None
                    }
                }
                None => None,
            };
            if let Some(cut) = found {
                self.give_up_on(cut)?;
            }
        }
        Ok(())
    }

    /// Gives a cut another plan, or others that come before it; whether there is a way to go on.
    pub fn blame(&mut self, cut: PointId) -> Result<bool, NoMemory> {
        if !self.may_blame(cut) {
            return Ok(false);
        }
        self.save_plans(cut)?;
        match self.next_try(cut)? {
            Some(own) => {
                self.follow_plan(&own)?;
                Ok(true)
            }
            None => {
                self.give_up_on(cut)?;
                Ok(self.aim == Aim::Chain)
            }
        }
    }
}
