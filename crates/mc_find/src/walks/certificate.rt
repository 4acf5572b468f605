// The document of an attempt that is whole.
use crate::walks::Attempt;
use crate::walks::cuts::Cuts;
use crate::walks::heads::Head;
use mc_base::{NoMemory, PointId};
use mc_lines::cert::Line;
use mc_state::{Form, Version};
use std::alloc::Global;

/// The places of the heads of each cut, the cuts in the order in which they came.
fn places_of(alloc: Global, cuts: &Cuts, heads: &[Head]) -> Result<Vec<Vec<usize>>, NoMemory> {
    let mut lists = Vec::with_capacity(alloc, cuts.list().len())?;
    for _ in cuts.list() {
        lists.push(Vec::new(alloc))?;
    }
    for (place, head) in heads.iter().enumerate() {
        if head.is_dropped {
            continue;
        }
        if let Some(cut) = cuts.place_of(head.cut) {
            if let Some(list) = lists.get_mut(cut) {
                list.push(place)?;
            }
        }
    }
    Ok(lists)
}

/// The number of each head among those of its cut, where these are at such places.
fn numbers(alloc: Global, count: usize, lists: &[Vec<usize>]) -> Result<Vec<u64>, NoMemory> {
    let mut numbers = vec![in alloc; 0; count]?;
    for list in lists {
        for (number, place) in list.as_slice().iter().enumerate() {
            if let Some(slot) = numbers.get_mut(*place) {
                *slot = number as u64;
            }
        }
    }
    Ok(numbers)
}

/// Adds lines, with the numbers of heads among those of their cuts.
fn push_lines(all: &mut Vec<Line>, lines: Vec<Line>, numbers: &[u64]) -> Result<(), NoMemory> {
    for line in lines {
        match line {
            Line::L13(head, images, edges) => {
                let number = numbers.get(head as usize).copied().unwrap_or(0);
                all.push(Line::L13(number, images, edges))?;
            }
            other => all.push(other)?,
        }
    }
    Ok(())
}

/// Heads that can be taken out one by one.
fn slots_of(alloc: Global, heads: Vec<Head>) -> Result<Vec<Option<Head>>, NoMemory> {
    let mut slots = Vec::with_capacity(alloc, heads.len())?;
    for head in heads {
        slots.push(Some(head))?;
    }
    Ok(slots)
}

/// Takes the heads at some places, in order: their lines, and the head lines are added.
fn push_heads(
    all: &mut Vec<Line>,
    bodies: &mut Vec<Vec<Line>>,
    slots: &mut Vec<Option<Head>>,
    places: &[usize],
) -> Result<(), NoMemory> {
    for place in places {
        let Some(slot) = slots.get_mut(*place) else {
            continue;
        };
        if let Some(head) = slot.take() {
            let Head {
                cut,
                raw,
                walked,
                ..
            } = head;
            all.push(Line::Head(cut, raw))?;
            bodies.push(walked.lines)?;
        }
    }
    Ok(())
}

/// Takes the heads of all cuts, these in order: their lines, and the head lines are added.
fn push_all_heads(
    alloc: Global,
    all: &mut Vec<Line>,
    heads: Vec<Head>,
    cuts: &Cuts,
    points: &[PointId],
    lists: &[Vec<usize>],
) -> Result<Vec<Vec<Line>>, NoMemory> {
    let mut slots = slots_of(alloc, heads)?;
    let mut bodies = Vec::new(alloc);
    for point in points {
        if let Some(place) = cuts.place_of(*point) {
            if let Some(list) = lists.get(place) {
                push_heads(all, &mut bodies, &mut slots, list.as_slice())?;
            }
        }
    }
    Ok(bodies)
}

/// Adds the line that opens the branches of a chain.
fn push_pass(all: &mut Vec<Line>, form: Form) -> Result<(), NoMemory> {
    match form {
        Form::Certificate => Ok(()),
        Form::Chain => {
            all.push(Line::Pass)?;
            Ok(())
        }
    }
}

impl Attempt<'_> {
    /// The lines of the document of a form: a certificate, or a chain of one pass.
    pub fn document(self, form: Form) -> Result<Vec<Line>, NoMemory> {
        let alloc = self.alloc;
        let lists = places_of(alloc, &self.cuts, self.heads.as_slice())?;
        let numbers = numbers(alloc, self.heads.len(), lists.as_slice())?;
        let points = self.cuts.sorted(alloc)?;
        let mut all = Vec::new(alloc);
        all.push(Line::Header(Version::One, form))?;
        for cut in points.as_slice() {
            all.push(Line::Cut(*cut))?;
        }
        let bodies = push_all_heads(
            alloc,
            &mut all,
            self.heads,
            &self.cuts,
            points.as_slice(),
            lists.as_slice(),
        )?;
        push_pass(&mut all, form)?;
        let entry = self.entry;
        push_lines(&mut all, entry.lines, numbers.as_slice())?;
        for lines in bodies {
            push_lines(&mut all, lines, numbers.as_slice())?;
        }
        all.push(Line::End)?;
        Ok(all)
    }
}
