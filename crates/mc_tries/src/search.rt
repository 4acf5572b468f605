// Runs are tried until scripts are found for the places that are asked for.
use crate::draws::Draws;
use crate::shorten::shorten;
use crate::style::style_of;
use crate::walk::{Task, Walked, run_drawn};
use mc_base::text::Place;
use mc_base::{FaultKind, NoMemory};

// How many runs are tried besides as many as were, when each place has a script.
const MORE: u64 = 200;

// How many bytes a line more counts.
const LINE: usize = 1_000;

/// How many runs are tried at most, and how many steps they make together, before the last one ends.
#[derive(Clone, Copy)]
pub struct Effort {
    pub runs: u64,
    pub steps: u64,
}

/// A place, and the lines of the shortest script that was found on which a run faults there.
#[derive(Drop)]
pub struct Candidate {
    pub place: Place,
    pub lines: Option<Vec<Vec<u8>>>,
}

/// What runs came to: for each place that was asked for a candidate, and each fault, once.
#[derive(Drop)]
pub struct Tried {
    pub candidates: Vec<Candidate>,
    pub faults: Vec<(FaultKind, Place)>,
}

// What is searched for, and what is found.
#[derive(Drop)]
struct Search {
    candidates: Vec<Candidate>,
    faults: Vec<(FaultKind, Place)>,
    missing: usize,
    steps: u64,
}

// How long a script is: a line counts more than its bytes.
fn length(lines: &[Vec<u8>]) -> usize {
    let mut length: usize = 0;
    for line in lines {
        length = length.saturating_add(line.len()).saturating_add(LINE);
    }
    length
}

// Takes the lines for a candidate that has none, or longer ones; whether it had none.
fn offer(candidate: &mut Candidate, lines: Vec<Vec<u8>>) -> bool {
    match &candidate.lines {
        None => {
            candidate.lines = Some(lines);
            true
        }
        Some(before) => {
            if length(lines.as_slice()) < length(before.as_slice()) {
                candidate.lines = Some(lines);
            }
            false
        }
    }
}

impl Search {
    // Takes the lines of a run that comes to a fault at a place.
    fn take_lines(&mut self, place: Place, lines: Vec<Vec<u8>>) {
        let found = self
            .candidates
            .as_slice()
            .iter()
            .position(|candidate| candidate.place == place);
        let Some(at) = found else {
            return;
        };
        let Some(candidate) = self.candidates.get_mut(at) else {
            return;
        };
        if offer(candidate, lines) {
            self.missing = self.missing.saturating_sub(1);
        }
    }

    // Takes what a run came to.
    fn take(&mut self, walked: Walked) -> Result<(), NoMemory> {
        let Some(fault) = walked.fault else {
            return Ok(());
        };
        if !self.faults.as_slice().contains(&fault) {
            self.faults.push(fault)?;
        }
        let (_, place) = fault;
        self.take_lines(place, walked.lines);
        Ok(())
    }

    // Tries runs, as many as there may be.
    fn run(&mut self, task: Task<'_>, effort: Effort) -> Result<(), NoMemory> {
        let mut draws = Draws::new();
        let mut last = effort.runs;
        for number in 0..effort.runs {
            if number >= last || self.steps >= effort.steps {
                return Ok(());
            }
            let style = style_of(&mut draws);
            let walked = run_drawn(task, style, &mut draws)?;
            self.steps = self.steps.saturating_add(walked.steps);
            let was_missing = self.missing > 0;
            self.take(walked)?;
            if was_missing && self.missing == 0 {
                last = number.saturating_mul(2).saturating_add(MORE);
            }
        }
        Ok(())
    }
}

/// For each place the lines of a script on which a run faults there, where one is found, and the faults to which runs come. Where
/// no place is asked for, all runs are tried.
pub fn try_runs(task: Task<'_>, places: &[Place], effort: Effort) -> Result<Tried, NoMemory> {
    let mut candidates = Vec::new(task.alloc);
    for place in places {
        candidates.push(Candidate {
            place: *place,
            lines: None,
        })?;
    }
    let mut search = Search {
        candidates,
        faults: Vec::new(task.alloc),
        missing: places.len(),
        steps: 0,
    };
    search.run(task, effort)?;
    let Search {
        candidates,
        faults,
        ..
    } = search;
    let mut list = Vec::new(task.alloc);
    for candidate in candidates {
        list.push(shortened(task, candidate)?)?;
    }
    Ok(Tried {
        candidates: list,
        faults,
    })
}

// A candidate whose lines are all needed.
fn shortened(task: Task<'_>, candidate: Candidate) -> Result<Candidate, NoMemory> {
    let Candidate { place, lines } = candidate;
    match lines {
        None => Ok(Candidate { place, lines: None }),
        Some(lines) => Ok(Candidate {
            place,
            lines: Some(shorten(task, place, lines)?),
        }),
    }
}
