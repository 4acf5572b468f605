// Labels become points: all that is known of labels holds, and the ends of functions are apart.
ghost use Rattle.std.specs.Prelude.{[], ℕ, ◌≡◌, IfOk, OnOk, length, map, slice_set};
ghost use Rattle.mc_lower.specs.Finished.{AreApart, point_at};
ghost use Rattle.mc_lower.specs.Lines.{subject};
ghost use Rattle.mc_lower.specs.Settled.{AreNoneMet, AreOpen, AreWays, HasPoint, IsFilled, Settles, WalksTo, point_of_way, way_at, way_of};
ghost use Rattle.mc_lower.specs.Worlds.{AllAt, IsMarked};

use crate::builder::{BuildFault, Label, Mark};
use crate::lines::Lines;
use std::alloc::Global;

/// Where the point of a label comes from: another label has it too, a walk looks for it just now, or this is it.
#[derive(Clone, Copy)]
enum Way {
    On(Label),
    Met,
    Point(usize),
}

// The ways of so many labels of which nothing is known; each has a point of its own, which is none of the flow graph's.
fn open_ways(alloc: Global, count: usize, labels: u64) -> Result<Vec<Way>, BuildFault>
    ensures { IfOk result (λ ways. AreOpen count labels ways.items) }
{
    let mut ways = Vec::new(alloc);
    for label in 0..labels {
        match count.checked_add(label as usize) {
            Some(point) => ways.push(Way::Point(point))?,
            None => return Err(BuildFault::NoMemory),
        }
    }
    Ok(ways)
}

// The way of a label.
fn way_at(ways: &[Way], label: usize) -> Way
    ensures { result ≡ way_at ways.now label }
{
    match ways.get(label) {
        Some(way) => *way,
        None => Way::Point(0),
    }
}

// A label has another way.
fn set_way(ways: &mut Vec<Way>, label: usize, way: Way)
    ensures { ways.new.items ≡ slice_set ways.old.items label way }
{
    if label < ways.len() {
        ways[label] = way;
    }
}

// The way of a label of which something is known.
fn add_mark(ways: &mut Vec<Way>, mark: Mark)
    ensures { ways.new.items ≡ slice_set ways.old.items (subject mark).0 (way_of mark) }
{
    match mark {
        Mark::At(label, point) => set_way(ways, label.0 as usize, Way::Point(point)),
        Mark::Same(label, other) => set_way(ways, label.0 as usize, Way::On(other)),
    }
}

// The ways of all labels.
fn ways_of(alloc: Global, lines: &Lines) -> Result<Vec<Way>, BuildFault>
    ensures { IfOk result (λ ways. AreWays (length lines.now.points.items) lines.now.labels lines.now.marks.items ways.items) }
{
    let mut ways = open_ways(alloc, lines.points.len(), lines.labels)?;
    let marks = lines.marks.as_slice();
    for at in 0..marks.len() {
        add_mark(&mut ways, marks[at]);
    }
    Ok(ways)
}

// Walks from label to label, to a point or to a label that it has met; the labels on the path have this point.
fn walk(ways: &mut Vec<Way>, path: &mut Vec<usize>, start: usize) -> Result<usize, BuildFault>
    requires none { AreNoneMet ways.old.items }
    requires empty { path.old.items ≡ [] }
    ensures { IfOk result (λ point. WalksTo ways.old.items ways.new.items path.new.items start point) }
{
    let mut at = start;
    for _ in 0..u64::MAX {
        match way_at(ways.as_slice(), at) {
            Way::On(other) => {
                path.push(at)?;
                set_way(ways, at, Way::Met);
                at = other.0 as usize;
            }
            Way::Met => return Ok(0),
            Way::Point(point) => return Ok(point),
        }
    }
    Err(BuildFault::NoMemory)
}

// The labels of a path have this point.
fn fill(ways: &mut Vec<Way>, path: &[usize], point: usize)
    ensures { IsFilled ways.old.items ways.new.items path.now point }
{
    for at in 0..path.len() {
        set_way(ways, path[at], Way::Point(point));
    }
}

// A label has its point, and so do those on the way to it.
fn settle_one(alloc: Global, ways: &mut Vec<Way>, label: usize) -> Result<(), BuildFault>
    requires { AreNoneMet ways.old.items }
    ensures settles { OnOk result (Settles ways.old.items ways.new.items) }
    ensures first { OnOk result (HasPoint ways.new.items label) }
{
    let mut path = Vec::new(alloc);
    let point = walk(ways, &mut path, label)?;
    fill(ways, path.as_slice(), point);
    Ok(())
}

// All labels have their points.
fn settle_ways(alloc: Global, ways: &mut Vec<Way>) -> Result<(), BuildFault>
    requires { AreNoneMet ways.old.items }
    ensures settles { OnOk result (Settles ways.old.items ways.new.items) }
    ensures all { OnOk result ((l : ℕ) → HasPoint ways.new.items l) }
{
    let labels = ways.len();
    for label in 0..labels {
        settle_one(alloc, ways, label)?;
    }
    Ok(())
}

// The point that a way ends at.
fn end_of(way: Way) -> usize
    ensures { result ≡ point_of_way way }
{
    match way {
        Way::On(_) | Way::Met => 0,
        Way::Point(point) => point,
    }
}

// The points that ways end at.
fn table_of(alloc: Global, ways: &[Way]) -> Result<Vec<usize>, BuildFault>
    ensures { IfOk result (λ table. table.items ≡ map point_of_way ways.now) }
{
    let mut table = Vec::new(alloc);
    for way in ways {
        table.push(end_of(*way))?;
    }
    Ok(table)
}

/// The point of each label, with which all that is known of labels holds, and the outs are apart.
pub fn settle_labels(alloc: Global, lines: &Lines) -> Result<Vec<usize>, BuildFault>
    ensures marks { IfOk result (λ table. AllAt (λ i m. IsMarked (point_at table.items) m) lines.now.marks.items) }
    ensures apart { IfOk result (λ table. AreApart (point_at table.items) lines.now.outs.items) }
{
    let mut ways = ways_of(alloc, lines)?;
    settle_ways(alloc, &mut ways)?;
    let table = table_of(alloc, ways.as_slice())?;
    Ok(table)
}
