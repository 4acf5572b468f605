// Scripts without what they do not need.
use crate::lines::input_line;
use crate::walk::{STEPS, Task};
use mc_base::NoMemory;
use mc_base::text::Place;
use mc_run::{Outcome, run};
use mc_run_values::script::Script;
use std::alloc::Global;

// How many scripts are tried at most for one that is shorter.
const TRIES: u64 = 400;

// How many lines are left out at once at most.
const WIDTH: usize = 4;

/// The lines as a script, without those between two places.
pub fn joined(
    alloc: Global,
    lines: &[Vec<u8>],
    from: usize,
    to: usize,
) -> Result<Vec<u8>, NoMemory> {
    let mut text = Vec::new(alloc);
    for (place, line) in lines.iter().enumerate() {
        if place >= from && place < to {
            continue;
        }
        if !text.is_empty() {
            text.push(b'\n')?;
        }
        text.extend_from_slice(line.as_slice())?;
    }
    Ok(text)
}

// The lines that are left of a script on which a run faults at a place, and how many tries are left.
#[derive(Drop)]
struct Shorter {
    lines: Vec<Vec<u8>>,
    left: u64,
}

// Whether a run on a script faults at a place.
fn faults(task: Task<'_>, place: Place, script: &[u8]) -> Result<bool, NoMemory> {
    match run(task.alloc, task.program, &mut Script::of(script), STEPS)? {
        Outcome::Fault(_, at) => Ok(at == place),
        _ => Ok(false),
    }
}

impl Shorter {
    // Whether a script is one try more that faults at a place.
    fn is_enough(&mut self, task: Task<'_>, place: Place, script: &[u8]) -> Result<bool, NoMemory> {
        if self.left == 0 {
            return Ok(false);
        }
        self.left -= 1;
        faults(task, place, script)
    }

    // Leaves out the lines from one place to another, if that is enough.
    fn leave_out(
        &mut self,
        task: Task<'_>,
        place: Place,
        from: usize,
        to: usize,
    ) -> Result<bool, NoMemory> {
        let script = joined(task.alloc, self.lines.as_slice(), from, to)?;
        if !self.is_enough(task, place, script.as_slice())? {
            return Ok(false);
        }
        for _ in from..to {
            if from < self.lines.len() {
                let _left_out = self.lines.remove(from);
            }
        }
        Ok(true)
    }

    // Leaves out so many lines at once, wherever that is enough; whether it was somewhere.
    fn leave_out_all(
        &mut self,
        task: Task<'_>,
        place: Place,
        width: usize,
    ) -> Result<bool, NoMemory> {
        let mut shorter = false;
        let mut from = self.lines.len();
        for _ in 0..self.lines.len() {
            from = from.saturating_sub(1);
            let to = from.saturating_add(width);
            if to <= self.lines.len() && self.leave_out(task, place, from, to)? {
                shorter = true;
            }
        }
        Ok(shorter)
    }

    // Puts a line in the place of another, if that is enough.
    fn put(
        &mut self,
        task: Task<'_>,
        place: Place,
        at: usize,
        line: Vec<u8>,
    ) -> Result<(), NoMemory> {
        let Some(slot) = self.lines.get_mut(at) else {
            return Ok(());
        };
        let before = std::mem::replace(slot, line);
        let script = joined(task.alloc, self.lines.as_slice(), 0, 0)?;
        if !self.is_enough(task, place, script.as_slice())? {
            if let Some(slot) = self.lines.get_mut(at) {
                *slot = before;
            }
        }
        Ok(())
    }

    // Puts the simplest choices in place of others, wherever that is enough.
    fn simplify(&mut self, task: Task<'_>, place: Place) -> Result<(), NoMemory> {
        for at in 0..self.lines.len() {
            for number in [1, 0] {
                let line = input_line(task.alloc, number)?;
                self.put(task, place, at, line)?;
            }
            let mut empty = Vec::new(task.alloc);
            empty.extend_from_slice(b"[\"shape\",0,[]]")?;
            self.put(task, place, at, empty)?;
        }
        Ok(())
    }
}

/// The lines of a script on which a run faults at a place, without those that it does not need.
pub fn shorten(
    task: Task<'_>,
    place: Place,
    lines: Vec<Vec<u8>>,
) -> Result<Vec<Vec<u8>>, NoMemory> {
    let mut shorter = Shorter { lines, left: TRIES };
    for _ in 0..TRIES {
        let mut changed = false;
        for width in 1..=WIDTH {
            changed = shorter.leave_out_all(task, place, width)? || changed;
        }
        if !changed {
            break;
        }
    }
    shorter.simplify(task, place)?;
    Ok(shorter.lines)
}
