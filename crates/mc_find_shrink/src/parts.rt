// Folds of one block into a segment.
use crate::folds::Found;
use crate::hiding::{Fold, hides};
use crate::naming::{as_known, call_terms, known_terms, name_at, partial_names};
use crate::taken::taken_by;
use crate::trying::candidates;
use crate::whole::push_back_terms;
use crate::{Manner, Survey};
use mc_base::{EdgeId, NoMemory, NodeId, PredId};
use mc_cover::Mark;
use mc_cover::search::seg_cover;
use mc_find_paths::trail::plain;
use mc_find_view::sight::Nodes;
use mc_flow::defs::{Call, Def, Rule};
use mc_state::Term;
use mc_state::graph::Edge;
use std::alloc::Global;

/// A block that is tried as the first of a segment of a predicate, by a rule and one of its calls.
#[derive(Clone, Copy)]
struct Try<'a> {
    manner: Manner<'a>,
    nodes: &'a Nodes<'a>,
    survey: &'a Survey,
    pred: PredId,
    def: &'a Def,
    rule: &'a Rule,
    call: &'a Call,
    edge: &'a Edge,
}

/// Whether marks fold a block.
fn is_progress(marks: &[Mark]) -> bool {
    match marks.first() {
        Some(Mark::ByCall { .. }) => true,
        _ => false,
    }
}

impl Try<'_> {
    /// The arguments of the call.
    fn ends(&self, alloc: Global, args: &[Term]) -> Result<Option<Vec<Term>>, NoMemory> {
        let known = as_known(alloc, args)?;
        let names = partial_names(alloc, self.rule, self.edge, known.as_slice())?;
        let terms = call_terms(alloc, names.as_slice(), self.call.args.as_slice())?;
        known_terms(alloc, terms.as_slice())
    }

    /// Whether a segment with these marks hides nothing.
    fn is_open(
        &self,
        alloc: Global,
        args: &[Term],
        end: Term,
        ends: &[Term],
        marks: &[Mark],
    ) -> Result<bool, NoMemory> {
        let taken = taken_by(alloc, marks)?;
        let mut named = vec![in alloc; end]?;
        named.extend_from_slice(args)?;
        named.extend_from_slice(ends)?;
        let mut back = Vec::new(alloc);
        push_back_terms(&mut back, self.manner, self.pred, ends)?;
        let fold = Fold {
            taken: taken.as_slice(),
            start: self.edge.start(),
            named: named.as_slice(),
            back: back.as_slice(),
        };
        Ok(!hides(self.nodes, self.survey, &fold))
    }

    /// The marks of the segment with these arguments, where it takes nothing that is barred and hides nothing.
    fn marks(
        &self,
        alloc: Global,
        barred: &[EdgeId],
        args: &[Term],
        end: Term,
    ) -> Result<Option<Vec<Mark>>, NoMemory> {
        let Some(ends) = self.ends(alloc, args)? else {
            return Ok(None);
        };
        let state = self.nodes.state;
        if state.is_false() {
            return Ok(None);
        }
        let found = seg_cover(
            alloc,
            state,
            self.manner.sight.defs,
            barred,
            self.pred,
            plain(self.edge.start()),
            args,
            end,
            ends.as_slice(),
        )?;
        let Some(marks) = found else {
            return Ok(None);
        };
        if is_progress(marks.as_slice())
            && self.is_open(alloc, args, end, ends.as_slice(), marks.as_slice())?
        {
            Ok(Some(marks))
        } else {
            Ok(None)
        }
    }

    /// The fold, if there is one.
    fn find(&self, alloc: Global) -> Result<Option<Found>, NoMemory> {
        let Some(end) = name_at(alloc, self.def, self.rule, self.edge, self.call.at)? else {
            return Ok(None);
        };
        let state = self.nodes.state;
        let at = self.edge.start();
        if end.add != 0 || state.are_equal(end.node, NodeId(0)) || state.are_equal(end.node, at) {
            return Ok(None);
        }
        let defs = self.manner.sight.defs;
        let kept = self.survey.kept_ids.as_slice();
        let room = self.manner.room;
        let list = candidates(
            alloc,
            state,
            defs,
            self.manner.asserted,
            kept,
            self.pred,
            self.def,
            at,
            Some(end),
            room,
        )?;
        let barred = self.survey.barred(alloc, state, at, true)?;
        for args in list {
            if let Some(marks) = self.marks(alloc, barred.as_slice(), args.as_slice(), end)? {
                return Ok(Some(Found::Cover {
                    pred: self.pred,
                    at,
                    args,
                    to_stop: true,
                    marks,
                }));
            }
        }
        Ok(None)
    }
}

/// The first fold of a block into a segment of a predicate by a rule.
fn by_rule<'a>(
    alloc: Global,
    manner: Manner<'a>,
    nodes: &'a Nodes<'a>,
    survey: &'a Survey,
    pred: PredId,
    def: &'a Def,
    rule: &'a Rule,
    edge: &'a Edge,
) -> Result<Option<Found>, NoMemory> {
    for call in rule.calls.as_slice() {
        if call.pred == pred {
            let each = Try {
                manner,
                nodes,
                survey,
                pred,
                def,
                rule,
                call,
                edge,
            };
            let found = each.find(alloc)?;
            if found.is_some() {
                return Ok(found);
            }
        }
    }
    Ok(None)
}

/// The first fold of a block into a segment.
fn at_block<'a>(
    alloc: Global,
    manner: Manner<'a>,
    nodes: &'a Nodes<'a>,
    survey: &'a Survey,
    edge: &'a Edge,
) -> Result<Option<Found>, NoMemory> {
    for pred in manner.wanted {
        let Some(def) = manner.sight.defs.as_slice().get(pred.0 as usize) else {
            continue;
        };
        for rule in def.rules.as_slice() {
            let Some(shape) = rule.block else {
                continue;
            };
            if edge.has_shape(shape) {
                let found = by_rule(alloc, manner, nodes, survey, *pred, def, rule, edge)?;
                if found.is_some() {
                    return Ok(found);
                }
            }
        }
    }
    Ok(None)
}

/// The first fold of one block into a segment.
pub fn first_part<'a>(
    alloc: Global,
    manner: Manner<'a>,
    nodes: &'a Nodes<'a>,
    survey: &'a Survey,
) -> Result<Option<Found>, NoMemory> {
    for (place, entry) in nodes.state.edges().iter().enumerate() {
        if survey.is_used(place) && !survey.is_kept(place) {
            let found = at_block(alloc, manner, nodes, survey, &entry.1)?;
            if found.is_some() {
                return Ok(found);
            }
        }
    }
    Ok(None)
}
