// The lines that make a predicate, or a segment of it, of the edges of a cover.
use crate::trail::Trail;
use crate::trail::names::{call_args, push_contents, push_fixed};
use crate::trail::tasks::{Body, Frame, Made, Task};
use mc_base::{EdgeId, Items, NoMemory, PredId};
use mc_cover::Mark;
use mc_cover::search::{plain, term_at};
use mc_flow::defs::{Def, Defs, Rule};
use mc_lines::cert::Line;
use mc_state::graph::Edge;
use mc_state::{FoldInd, FoldSeg, Term};
use std::alloc::Global;

/// What came of making: this edge, nothing where a segment is empty, or it could not be made.
#[derive(Clone, Copy)]
pub enum MadeOf {
    Edge(EdgeId),
    Nothing,
    Failed,
}

/// What comes of a step: it goes on, or something was made of the task on top, or it can't be made.
#[derive(Drop)]
enum Turn {
    Opened,
    Made(Made),
    Failed,
}

/// The definition of a predicate.
fn def_of(defs: &Defs, pred: PredId) -> Option<&Def> {
    defs.as_slice().get(pred.0 as usize)
}

/// A rule of a predicate.
fn rule_of(defs: &Defs, pred: PredId, place: usize) -> Option<&Rule> {
    match def_of(defs, pred) {
        Some(def) => def.rules.as_slice().get(place),
        None => None,
    }
}

impl Trail<'_> {
    /// An edge of the branch.
    fn edge(&self, id: EdgeId) -> Option<&Edge> {
        match self.state() {
            Some(state) => state.edge(id),
            None => None,
        }
    }

    /// The names of a rule at a task.
    fn body(
        &self,
        alloc: Global,
        rule: &Rule,
        task: &Task,
        place: usize,
        block: Option<EdgeId>,
        call: Option<usize>,
    ) -> Result<Body, NoMemory> {
        let mut names = Vec::new(alloc);
        names.push(task.at)?;
        names.extend_from_slice(task.args.as_slice())?;
        if let Some(id) = block {
            push_contents(&mut names, self.edge(id))?;
        }
        push_fixed(&mut names, rule)?;
        Ok(Body {
            pred: task.pred,
            rule: place,
            block,
            call,
            names,
            calls: Vec::new(alloc),
        })
    }

    /// What is to be made after a segment.
    fn behind(&self, alloc: Global, seg: EdgeId, task: &Task) -> Result<Option<Task>, NoMemory> {
        let Some(Edge::Seg { end, end_args, .. }) = self.edge(seg) else {
            return Ok(None);
        };
        let mut args = Vec::with_capacity(alloc, end_args.len())?;
        for node in end_args.as_slice() {
            args.push(plain(*node))?;
        }
        Ok(Some(Task {
            pred: task.pred,
            at: plain(*end),
            args,
            to_stop: task.to_stop,
        }))
    }

    /// L5 or L6, where something was made after a segment.
    fn close(&mut self, seg: EdgeId, to_stop: bool, made: Made) -> Result<Turn, NoMemory> {
        let Made::Edge(other) = made else {
            return Ok(Turn::Made(Made::Edge(seg)));
        };
        let line = if to_stop {
            Line::L6(seg, other)
        } else {
            Line::L5(seg, other)
        };
        self.turn(line)
    }

    /// Applies a line that makes an edge.
    fn turn(&mut self, line: Line) -> Result<Turn, NoMemory> {
        if !self.apply(line)? {
            return Ok(Turn::Failed);
        }
        match self.last_edge() {
            Some(edge) => Ok(Turn::Made(Made::Edge(edge))),
            None => Ok(Turn::Failed),
        }
    }

    /// L3, or L4 and L6: folds a rule of which all calls are made.
    fn fold_body(&mut self, alloc: Global, defs: &Defs, body: &Body) -> Result<Turn, NoMemory> {
        let Some(rule) = rule_of(defs, body.pred, body.rule) else {
            return Ok(Turn::Failed);
        };
        let kinds = rule.names.as_slice();
        let Some(names) = self.name_all(alloc, kinds, body.names.as_slice())? else {
            return Ok(Turn::Failed);
        };
        let (edges, last) = calls_of(alloc, body)?;
        let number = body.rule as u64;
        let Some(call) = body.call else {
            let fold = FoldInd {
                pred: body.pred,
                rule: number,
                names: Items::of(names),
                block: body.block,
                edges,
            };
            return self.turn(Line::L3(fold));
        };
        let Some(block) = body.block else {
            return Ok(Turn::Failed);
        };
        let fold = FoldSeg {
            pred: body.pred,
            rule: number,
            names: Items::of(names),
            block,
            edges,
            call: call as u64,
        };
        let turn = self.turn(Line::L4(fold))?;
        match (turn, last) {
            (Turn::Made(Made::Edge(seg)), Made::Edge(other)) => { self.turn(Line::L6(seg, other)) }
            (turn, _) => Ok(turn),
        }
    }
}

/// The edges of the calls that are made but for the one to the stop, and what was made of that one.
fn calls_of(alloc: Global, body: &Body) -> Result<(Items<EdgeId>, Made), NoMemory> {
    let mut edges = Vec::with_capacity(alloc, body.calls.len())?;
    let mut last = Made::Nothing;
    for (place, made) in body.calls.as_slice().iter().enumerate() {
        if body.call == Some(place) {
            last = *made;
        } else if let Made::Edge(edge) = made {
            edges.push(*edge)?;
        }
    }
    Ok((Items::of(edges), last))
}

/// The next call of a rule that is to be made.
fn next_call(alloc: Global, rule: &Rule, body: &Body) -> Result<Option<Task>, NoMemory> {
    let place = body.calls.len();
    let Some(call) = rule.calls.as_slice().get(place) else {
        return Ok(None);
    };
    Ok(Some(Task {
        pred: call.pred,
        at: term_at(body.names.as_slice(), call.at),
        args: call_args(alloc, body.names.as_slice(), call)?,
        to_stop: body.call == Some(place),
    }))
}

/// What is made of a cover: its frames, the task that waits for the next mark, and what was made last.
#[derive(Drop)]
struct Making<'a> {
    alloc: Global,
    defs: &'a Defs,
    frames: Vec<Frame>,
}

impl Making<'_> {
    /// Begins what a mark says of a task. The next task, or what was made.
    fn begin(
        &mut self,
        trail: &mut Trail<'_>,
        task: &Task,
        mark: Mark,
    ) -> Result<(Option<Task>, Turn), NoMemory> {
        match mark {
            Mark::AtEnd => Ok((None, Turn::Made(Made::Nothing))),
            Mark::ByInd(edge) => Ok((None, Turn::Made(Made::Edge(edge)))),
            Mark::BySeg(seg) => {
                let next = trail.behind(self.alloc, seg, task)?;
                self.frames.push(Frame::Behind {
                    seg,
                    to_stop: task.to_stop,
                })?;
                Ok((next, Turn::Opened))
            }
            Mark::ByRule { place, block } => self.begin_rule(trail, task, place, block, None),
            Mark::ByCall { place, block, call } => {
                self.begin_rule(trail, task, place, block, Some(call))
            }
        }
    }

    /// Begins a rule.
    fn begin_rule(
        &mut self,
        trail: &mut Trail<'_>,
        task: &Task,
        place: usize,
        block: Option<EdgeId>,
        call: Option<usize>,
    ) -> Result<(Option<Task>, Turn), NoMemory> {
        let Some(rule) = rule_of(self.defs, task.pred, place) else {
            return Ok((None, Turn::Failed));
        };
        let body = trail.body(self.alloc, rule, task, place, block, call)?;
        match next_call(self.alloc, rule, &body)? {
            Some(next) => {
                self.frames.push(Frame::Rule(body))?;
                Ok((Some(next), Turn::Opened))
            }
            None => Ok((None, trail.fold_body(self.alloc, self.defs, &body)?)),
        }
    }

    /// Hands what was made to the frame on top. The next task, or what was made of the frame.
    fn hand(
        &mut self,
        trail: &mut Trail<'_>,
        frame: Frame,
        made: Made,
    ) -> Result<(Option<Task>, Turn), NoMemory> {
        match frame {
            Frame::Behind { seg, to_stop } => {
                let turn = trail.close(seg, to_stop, made)?;
                Ok((None, turn))
            }
            Frame::Rule(mut body) => {
                body.calls.push(made)?;
                let Some(rule) = rule_of(self.defs, body.pred, body.rule) else {
                    return Ok((None, Turn::Failed));
                };
                match next_call(self.alloc, rule, &body)? {
                    Some(next) => {
                        self.frames.push(Frame::Rule(body))?;
                        Ok((Some(next), Turn::Opened))
                    }
                    None => Ok((None, trail.fold_body(self.alloc, self.defs, &body)?)),
                }
            }
        }
    }

    /// Goes on up to the next task.
    fn settle(&mut self, trail: &mut Trail<'_>, made: Made) -> Result<Settled, NoMemory> {
        let mut made = made;
        for _ in 0..self.frames.len() {
            let Some(frame) = self.frames.pop() else {
                return Ok(Settled::Made(made));
            };
            match self.hand(trail, frame, made)? {
                (Some(next), _) => return Ok(Settled::Next(next)),
                (None, Turn::Made(more)) => made = more,
                (None, _) => return Ok(Settled::Failed),
            }
        }
        Ok(Settled::Made(made))
    }
}

/// Where making has come to.
#[derive(Drop)]
enum Settled {
    Next(Task),
    Made(Made),
    Failed,
}

/// What was made, for callers.
fn outcome(made: Made) -> MadeOf {
    match made {
        Made::Edge(edge) => MadeOf::Edge(edge),
        Made::Nothing => MadeOf::Nothing,
    }
}

/// Makes a predicate at a term with arguments, or a segment of it, as the marks of a cover say, each mark before those
/// of what it leaves. The lines are added to the trail. The edge that was made stands in the state.
pub fn make(
    alloc: Global,
    defs: &Defs,
    trail: &mut Trail<'_>,
    pred: PredId,
    at: Term,
    args: &[Term],
    to_stop: bool,
    marks: &[Mark],
) -> Result<MadeOf, NoMemory> {
    let mut making = Making {
        alloc,
        defs,
        frames: Vec::new(alloc),
    };
    let mut task = Task {
        pred,
        at,
        args: Vec::from_slice(alloc, args)?,
        to_stop,
    };
    for mark in marks {
        let (next, turn) = making.begin(trail, &task, *mark)?;
        if let Some(next) = next {
            task = next;
            continue;
        }
        let Turn::Made(made) = turn else {
            return Ok(MadeOf::Failed);
        };
        match making.settle(trail, made)? {
            Settled::Next(next) => task = next,
            Settled::Made(made) => return Ok(outcome(made)),
            Settled::Failed => return Ok(MadeOf::Failed),
        }
    }
    Ok(MadeOf::Failed)
}
