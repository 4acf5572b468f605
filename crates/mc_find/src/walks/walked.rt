// What is known of a root whose branches were followed.
use mc_base::text::Place;
use mc_base::{FaultKind, NoMemory, PointId};
use mc_flow::Flow;
use mc_lines::cert::Line;
use mc_rules_steps::Gap;
use std::alloc::Global;

/// The kinds of what an instruction may lack.
#[derive(Clone, Copy, PartialEq, Eq)]
pub enum Lack {
    Value,
    Block,
    Truth,
    Shape,
    Emptiness,
}

/// Where branches are blocked: the place in the program, and what is lacking there.
#[derive(Clone, Copy, PartialEq, Eq)]
pub struct Blocked {
    pub place: Place,
    pub lack: Lack,
}

/// The branches from a root: their lines, where they are blocked, the heads to which they jump, and the points that do nothing
/// which they passed.
#[derive(Drop)]
pub struct Walked {
    pub lines: Vec<Line>,
    pub blocked: Vec<Blocked>,
    pub targets: Vec<usize>,
    pub skips: Vec<PointId>,
}

impl Walked {
    /// No branch.
    pub fn new(alloc: Global) -> Walked {
        Walked {
            lines: Vec::new(alloc),
            blocked: Vec::new(alloc),
            targets: Vec::new(alloc),
            skips: Vec::new(alloc),
        }
    }

    /// Adds a jump to a head.
    pub fn jump(&mut self, head: usize, line: Line) -> Result<(), NoMemory> {
        self.lines.push(line)?;
        if !self.targets.as_slice().contains(&head) {
            self.targets.push(head)?;
        }
        Ok(())
    }

    /// Adds the heads to which a walk jumped that was not ended.
    pub fn add_targets(&mut self, begun: &Walked) -> Result<(), NoMemory> {
        for target in begun.targets.as_slice() {
            if !self.targets.as_slice().contains(target) {
                self.targets.push(*target)?;
            }
        }
        Ok(())
    }

    /// Adds a branch that is blocked.
    pub fn block(&mut self, blocked: Blocked) -> Result<(), NoMemory> {
        self.lines.push(Line::C1)?;
        self.blocked.push(blocked)?;
        Ok(())
    }
}

/// The kind of a gap.
fn lack_of(gap: Gap) -> Lack {
    match gap {
        Gap::Uninit(_) => Lack::Value,
        Gap::NoBlock(_) => Lack::Block,
        Gap::Reached => Lack::Truth,
        Gap::NoShape(_, _) => Lack::Shape,
        Gap::UninitField(_, _) => Lack::Value,
        Gap::NotEmpty(_) => Lack::Emptiness,
    }
}

/// Where the instruction at a point blocks by a gap. None where there is no such point.
pub fn blocked_at(flow: &Flow, point: PointId, gap: Gap) -> Option<Blocked> {
    match flow.points.as_slice().get(point.0 as usize) {
        Some(there) => Some(Blocked {
            place: there.place,
            lack: lack_of(gap),
        }),
        None => None,
    }
}

/// What is lacking where a run comes to a fault.
fn lack_at(kind: FaultKind) -> Lack {
    match kind {
        FaultKind::Null => Lack::Block,
        FaultKind::Freed => Lack::Block,
        FaultKind::Uninit => Lack::Value,
        FaultKind::BadFree => Lack::Block,
        FaultKind::Assertion => Lack::Truth,
        FaultKind::Shape => Lack::Shape,
        FaultKind::NotEmpty => Lack::Emptiness,
    }
}

/// Where runs come to faults.
pub fn blocked_by_runs(
    alloc: Global,
    faults: &[(FaultKind, Place)],
) -> Result<Vec<Blocked>, NoMemory> {
    let mut list = Vec::new(alloc);
    for (kind, place) in faults {
        list.push(Blocked {
            place: *place,
            lack: lack_at(*kind),
        })?;
    }
    Ok(list)
}

/// Adds what is not in a list yet.
pub fn add_blocked(list: &mut Vec<Blocked>, more: &[Blocked]) -> Result<(), NoMemory> {
    for blocked in more {
        if !list.as_slice().contains(blocked) {
            list.push(*blocked)?;
        }
    }
    Ok(())
}

/// How many of a list are not in another one.
pub fn count_missing(list: &[Blocked], others: &[Blocked]) -> u64 {
    let mut count = 0u64;
    for blocked in list {
        if !others.contains(blocked) {
            count = count.saturating_add(1);
        }
    }
    count
}
