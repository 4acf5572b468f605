// The alarms of a program.
ghost use Rattle.std.specs.Prelude.{◌≡◌, [], IfOk};
ghost use Rattle.mc_follow.specs.Alarms.Outcomes.{IsOutcome};
ghost use Rattle.mc_follow.specs.Alarms.Walks.{IsWalk};
ghost use Rattle.mc_flow.specs.Valid.{IsValid};

use crate::alarms::laws::documents_are_followed;
use crate::alarms::outcome::{Document, Outcome};
use crate::alarms::walk::{Turn, Walk};
use crate::report::push_count;
use mc_base::NoMemory;
use mc_document::proof::ApplyFault;
use mc_flow::{Defs, Flow};
use mc_lines::cert::Line;
use std::alloc::{AllocError, Global};

impl Walk<'_> {
    /// The lines so far.
    fn into_lines(self) -> Vec<Line>
        ensures { result.items ≡ self.entry.lines.items }
    {
        self.lines
    }

    /// The chain with its end, and its report.
    fn finish(self, flow: &Flow, defs: &Defs) -> Result<Outcome, NoMemory>
        requires followed { IsWalk flow.now defs.now self }
        requires none_open { self.proof.branches ≡ [] }
        ensures { IfOk result (IsOutcome flow.now defs.now) }
    {
        // For the proof alone: a chain that has ended is one of one pass.
        documents_are_followed();
        let Walk {
            alloc,
            mut proof,
            mut lines,
            mut text,
            tracks: _,
            ended: _,
        } = self;
        lines.push(Line::End)?;
        match proof.apply(&Line::End) {
            Ok(()) => match proof.finish() {
                Ok(complete) => {
                    push_count(alloc, &mut text, complete.alarms)?;
                    Ok(Outcome::Whole(Document {
                        lines,
                        text,
                        count: complete.alarms,
                    }))
                }
                // A document that took its end has ended.
                Err(_) => unreachable!(),
            },
            // Where no branch is open, the end is not refused.
            Err(ApplyFault::Premise(_)) => unreachable!(),
            Err(ApplyFault::NoMemory) => Err(AllocError),
        }
    }
}

/// The alarms of a program without loops: all its branches are followed, and each that comes to an instruction that lacks
/// something is stuck there. At the line that ends the 65,537th branch it stops.
pub fn alarms(alloc: Global, flow: &Flow, defs: &Defs) -> Result<Outcome, NoMemory>
    requires valid { IsValid flow.now defs.now }
    requires no_loops { flow.now.heads ≡ [] }
    ensures { IfOk result (IsOutcome flow.now defs.now) }
{
    let mut walk = Walk::start(alloc, flow, defs)?;
    match walk.follow(flow, defs)? {
        Turn::On => Ok(Outcome::Paths(walk.into_lines())),
        Turn::Whole => walk.finish(flow, defs),
    }
}
