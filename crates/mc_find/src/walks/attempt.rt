// Attempts.
ghost use Rattle.mc_flow.specs.Valid.{IsValid};

use crate::matching::{Manner, Paths, Step};
use crate::walks::cuts::Cuts;
use crate::walks::heads::Head;
use crate::walks::plans::{Plan, planned, plans};
use crate::walks::style::{Aim, Limits, Rung, Style, Task, first_rung};
use crate::walks::walked::{Blocked, Walked};
use crate::walks::walking::Way;
use mc_base::{NoMemory, PointId};
use mc_find_view::sight::{Seen, Sight, look};
use mc_symbolic::State;
use std::alloc::Global;

/// An attempt to find a document: the cuts with their plans, the states of cuts so far, the branches from the entry, the cut
/// from whose head branches are followed now, how many steps are left in all and in this walk, how often each point was
/// passed in it, the faults that are known to be met, whether cuts may be given other plans, and whether cuts may be added.
#[derive(Drop)]
pub struct Attempt<'a> {
    pub(crate) alloc: Global,
    pub(crate) paths: Paths<'a>,
    pub(crate) task: Task<'a>,
    pub(crate) aim: Aim,
    pub(crate) style: Style,
    pub(crate) limits: Limits,
    pub(crate) plans: Vec<Plan>,
    pub(crate) cuts: Cuts,
    pub(crate) heads: Vec<Head>,
    pub(crate) entry: Walked,
    pub(crate) is_entry_stale: bool,
    pub(crate) root: Option<PointId>,
    pub(crate) left: u64,
    pub(crate) walk_left: u64,
    pub(crate) passed: Vec<u64>,
    pub(crate) stamp: u64,
    pub(crate) faults: Vec<Blocked>,
    pub(crate) blames: bool,
    pub(crate) cuts_late: bool,
}

/// The most steps of one walk.
const WALK: u64 = 20_000;

/// No cuts, by which lines are applied: the walk itself ends branches at cuts.
const fn no_cuts() -> &'static [PointId] {
    &[]
}

impl<'a> Attempt<'a> {
    /// An attempt that has not begun, and may take so many steps.
    pub fn new(
        alloc: Global,
        task: Task<'a>,
        aim: Aim,
        style: Style,
        limits: Limits,
        steps: u64,
    ) -> Result<Attempt<'a>, NoMemory>
        requires { IsValid task.sight.flow.now task.sight.defs.now }
    {
        let plan = planned(0, 0, style.rung.step, limits.keys);
        Ok(Attempt {
            alloc,
            paths: Paths::new(alloc, task.sight.flow, task.sight.defs, no_cuts()),
            task,
            aim,
            style,
            limits,
            plans: plans(alloc, task.sight.defs, limits.keys)?,
            cuts: Cuts::at(alloc, task.graph, task.cuts, plan, style.rung)?,
            heads: Vec::new(alloc),
            entry: Walked::new(alloc),
            is_entry_stale: true,
            root: None,
            left: steps,
            walk_left: WALK,
            passed: vec![in alloc; 0; task.graph.size()]?,
            stamp: 0,
            faults: Vec::new(alloc),
            blames: false,
            cuts_late: aim == Aim::Certificate,
        })
    }

    /// Lets cuts have other plans where walks do not come through.
    pub fn blame_cuts(&mut self) {
        self.blames = true;
    }

    /// Whether a cut had too many heads, or too many rounds or steps.
    pub fn was_crowded(&self) -> bool {
        self.cuts.list().iter().any(|cut| cut.was_crowded)
    }

    /// Lets it go on as an attempt at a chain, for which so many steps are left, where these faults are known to be met.
    pub fn turn_to_chain(&mut self, faults: &[Blocked], steps: u64) -> Result<(), NoMemory> {
        self.aim = Aim::Chain;
        self.faults = Vec::from_slice(self.alloc, faults)?;
        self.left = steps;
        Ok(())
    }

    /// Lets no cut have another plan any more, where so many steps are left.
    pub fn stop_blaming(&mut self, steps: u64) -> Result<(), NoMemory> {
        self.give_up_on_all()?;
        self.blames = false;
        self.left = steps;
        Ok(())
    }

    /// How many steps are left.
    pub fn left(&self) -> u64 {
        self.left
    }

    /// Leaves at most so many steps; how many more there were.
    pub fn keep_back(&mut self, steps: u64) -> u64 {
        let rest = self.left.saturating_sub(steps);
        self.left = self.left.min(steps);
        rest
    }

    /// Gives it so many steps more.
    pub fn give(&mut self, steps: u64) {
        self.left = self.left.saturating_add(steps);
    }

    /// The rung that is reached at a cut.
    pub fn rung_at(&self, cut: PointId) -> Rung {
        match self.cuts.find(cut) {
            Some(own) => own.rung,
            None => first_rung(Step::Plain),
        }
    }

    /// The plan of a cut.
    pub fn plan_at(&self, cut: PointId) -> Plan {
        match self.cuts.find(cut) {
            Some(own) => own.plan,
            None => planned(0, 0, Step::Plain, self.limits.keys),
        }
    }

    /// What is looked at in states of a cut: all edges count where it is asked later that nothing is allocated.
    fn sight_at(&self, cut: PointId) -> Sight<'a> {
        let own = self.task.sight;
        Sight {
            flow: own.flow,
            defs: own.defs,
            live: own.live,
            stored: own.stored,
            constants: own.constants,
            all: self
                .task
                .empties
                .get(cut.0 as usize)
                .copied()
                .unwrap_or(own.all),
        }
    }

    /// What is seen of a state at a cut.
    pub fn look_at(&self, cut: PointId, state: &State) -> Result<Seen, NoMemory> {
        let mut seen = look(self.alloc, self.sight_at(cut), state, cut)?;
        if self.rung_at(cut).is_blind {
            seen.flags.clear();
        }
        Ok(seen)
    }

    /// How states are folded at a cut.
    pub fn manner(&self, cut: PointId) -> Manner<'a> {
        let plan = self.plan_at(cut);
        Manner {
            sight: self.sight_at(cut),
            wanted: self.task.wanted,
            asserted: self.task.asserted,
            step: self.rung_at(cut).step,
            before: plan.before,
            room: plan.room,
        }
    }

    /// Opens the branch at a head; whether it could be.
    fn enter_head(&mut self, place: usize) -> Result<bool, NoMemory> {
        match self.heads.get_mut(place) {
            Some(head) => {
                head.is_stale = false;
                self.root = Some(head.cut);
                self.paths.enter_at(head.cut, &head.raw)
            }
            None => Ok(false),
        }
    }

    /// Lets a walk begin.
    fn begin_walk(&mut self) {
        self.paths.clear();
        self.root = None;
        self.walk_left = self.left.min(WALK);
    }

    /// Counts the steps of a walk that has ended, at its cut too, and forgets which points it passed.
    fn end_walk(&mut self, walked: &Walked, left: u64) {
        let steps = left.saturating_sub(self.left);
        if let Some(cut) = self.root {
            if let Some(own) = self.cuts.find_mut(cut) {
                own.spent = own.spent.saturating_add(steps);
            }
        }
        for point in walked.skips.as_slice() {
            if let Some(slot) = self.passed.get_mut(point.0 as usize) {
                *slot = 0;
            }
        }
    }

    /// Whether one of the heads at which branches ended was dropped.
    fn has_lost_target(&self, walked: &Walked) -> bool {
        for place in walked.targets.as_slice() {
            if let Some(head) = self.heads.as_slice().get(*place) {
                if head.is_dropped {
                    return true;
                }
            }
        }
        false
    }

    /// Follows all branches from a head.
    fn walk_head(&mut self, place: usize) -> Result<Way, NoMemory> {
        self.begin_walk();
        let left = self.left;
        if !self.enter_head(place)? {
            return Ok(Way::Stuck);
        }
        let mut walked = Walked::new(self.alloc);
        let way = self.walk(&mut walked)?;
        self.end_walk(&walked, left);
        let is_lost = self.has_lost_target(&walked);
        if let Some(head) = self.heads.get_mut(place) {
            if way == Way::On || self.aim == Aim::Faults {
                head.walked = walked;
                head.is_stale = is_lost || head.is_stale || way == Way::TooLong;
            } else {
                head.is_stale = true;
                if way == Way::Again {
                    head.walked.add_targets(&walked)?;
                }
            }
        }
        Ok(way)
    }

    /// Follows all branches from the entry.
    fn walk_entry(&mut self) -> Result<Way, NoMemory> {
        self.begin_walk();
        let left = self.left;
        self.is_entry_stale = false;
        self.paths.enter()?;
        let mut walked = Walked::new(self.alloc);
        let way = self.walk(&mut walked)?;
        self.end_walk(&walked, left);
        if way == Way::On || self.aim == Aim::Faults {
            self.is_entry_stale = self.is_entry_stale
                || self.has_lost_target(&walked)
                || way == Way::TooLong;
            self.entry = walked;
        } else {
            self.is_entry_stale = true;
            if way == Way::Again {
                self.entry.add_targets(&walked)?;
            }
        }
        Ok(way)
    }

    /// Follows branches from the entry where they have to be followed, or else from the head that comes next. None where there
    /// is none.
    fn walk_next(&mut self) -> Result<Option<Way>, NoMemory> {
        if self.is_entry_stale {
            return Ok(Some(self.walk_entry()?));
        }
        let Some(place) = self.next_reached()? else {
            return Ok(None);
        };
        if let Some(cut) = self.overdue(place) {
            self.root = Some(cut);
            return Ok(Some(Way::Crowded(cut)));
        }
        Ok(Some(self.walk_head(place)?))
    }

    /// Goes on after a walk; whether there is a way.
    fn go_on(&mut self, way: Way) -> Result<bool, NoMemory> {
        match way {
            Way::On => Ok(true),
            Way::Again => Ok(true),
            Way::Crowded(cut) => self.relieve(cut),
            Way::Passed(point) => self.cut_late(point),
            Way::TooLong => {
                if self.left == 0 {
                    return Ok(false);
                }
                self.blame_root()
            }
            Way::Stuck => self.blame_root(),
        }
    }

    /// Blames the cut from whose head branches were followed; whether there is another plan.
    fn blame_root(&mut self) -> Result<bool, NoMemory> {
        match self.root {
            Some(cut) => self.blame(cut),
            None => Ok(false),
        }
    }

    /// Follows all branches from the entry, and from heads until none has changed. Whether the states of cuts are whole then.
    pub fn run(&mut self) -> Result<bool, NoMemory> {
        for _ in 0..self.left.saturating_mul(2) {
            if self.left == 0 {
                return Ok(false);
            }
            let Some(way) = self.walk_next()? else {
                self.keep_reached()?;
                return Ok(true);
            };
            if !self.go_on(way)? {
                return Ok(false);
            }
        }
        Ok(false)
    }
}
