// What of a head is fitted so far.
use mc_base::{EdgeId, NoMemory, NodeId, PredId};
use mc_cover::Mark;
use mc_state::Term;
use mc_symbolic::State;
use std::alloc::Global;

/// How an edge of a head comes out: it is there, or it is made of the edges of a cover.
#[derive(Drop)]
pub enum Part {
    Block(EdgeId),
    Ind {
        pred: PredId,
        at: Term,
        args: Vec<Term>,
        marks: Vec<Mark>,
    },
    Seg {
        pred: PredId,
        at: Term,
        args: Vec<Term>,
        end: Term,
        ends: Vec<Term>,
        marks: Vec<Mark>,
    },
}

/// How a state fits a head: the term of each of the head's nodes, how each of its edges comes out, and which edges of the
/// state are used.
#[derive(Drop)]
pub struct Fit {
    pub images: Vec<Option<Term>>,
    pub parts: Vec<Option<Part>>,
    pub used: Vec<EdgeId>,
}

impl Part {
    /// The same part again.
    fn copy(&self, alloc: Global) -> Result<Part, NoMemory> {
        match self {
            Part::Block(edge) => Ok(Part::Block(*edge)),
            Part::Ind {
                pred,
                at,
                args,
                marks,
            } => Ok(Part::Ind {
                pred: *pred,
                at: *at,
                args: Vec::from_slice(alloc, args.as_slice())?,
                marks: Vec::from_slice(alloc, marks.as_slice())?,
            }),
            Part::Seg {
                pred,
                at,
                args,
                end,
                ends,
                marks,
            } => Ok(Part::Seg {
                pred: *pred,
                at: *at,
                args: Vec::from_slice(alloc, args.as_slice())?,
                end: *end,
                ends: Vec::from_slice(alloc, ends.as_slice())?,
                marks: Vec::from_slice(alloc, marks.as_slice())?,
            }),
        }
    }
}

/// Whether two terms are entailed equal.
pub fn are_equal(state: &State, one: &Term, other: &Term) -> bool {
    let left = mc_pure::Term {
        node: one.node,
        add: one.add,
    };
    let right = mc_pure::Term {
        node: other.node,
        add: other.add,
    };
    state.known().are_equal(&left, &right)
}

impl Fit {
    /// The same again.
    pub fn copy(&self, alloc: Global) -> Result<Fit, NoMemory> {
        let mut parts = Vec::with_capacity(alloc, self.parts.len())?;
        for part in self.parts.as_slice() {
            match part {
                Some(own) => parts.push(Some(own.copy(alloc)?))?,
                None => parts.push(None)?,
            }
        }
        Ok(Fit {
            images: Vec::from_slice(alloc, self.images.as_slice())?,
            parts,
            used: Vec::from_slice(alloc, self.used.as_slice())?,
        })
    }

    /// The term of a head's node, where it is known.
    pub fn image(&self, node: NodeId) -> Option<Term> {
        self.images
            .as_slice()
            .get(node.0 as usize)
            .copied()
            .flatten()
    }

    /// Gives a head's node a term; whether it is the one that it has, if it has one.
    pub fn bind(&mut self, state: &State, node: NodeId, term: Term) -> bool {
        if let Some(own) = self.image(node) {
            return are_equal(state, &own, &term);
        }
        match self.images.get_mut(node.0 as usize) {
            Some(slot) => {
                *slot = Some(term);
                true
            }
            None => false,
        }
    }

    /// Gives nodes of a head terms, one by one; whether that could be.
    pub fn bind_all(&mut self, state: &State, nodes: &[NodeId], terms: &[Term]) -> bool {
        if nodes.len() != terms.len() {
            return false;
        }
        for (place, node) in nodes.iter().enumerate() {
            match terms.get(place) {
                Some(term) => {
                    if !self.bind(state, *node, *term) {
                        return false;
                    }
                }
                None => return false,
            }
        }
        true
    }

    /// Uses edges.
    pub fn take(&mut self, edges: &[EdgeId]) -> Result<(), NoMemory> {
        self.used.extend_from_slice(edges)
    }

    /// Says how the edge at a place comes out.
    pub fn put(&mut self, place: usize, part: Part) {
        if let Some(slot) = self.parts.get_mut(place) {
            *slot = Some(part);
        }
    }

    /// Terms with those of a head's nodes where they are known.
    pub fn with_known(
        &self,
        alloc: Global,
        nodes: &[NodeId],
        terms: &[Term],
    ) -> Result<Vec<Term>, NoMemory> {
        let mut list = Vec::with_capacity(alloc, terms.len())?;
        for (place, term) in terms.iter().enumerate() {
            let own = match nodes.get(place) {
                Some(node) => self.image(*node),
                None => None,
            };
            list.push(own.unwrap_or(*term))?;
        }
        Ok(list)
    }

    /// The terms of a head's nodes, where all are known.
    pub fn known(&self, alloc: Global, nodes: &[NodeId]) -> Result<Option<Vec<Term>>, NoMemory> {
        let mut list = Vec::with_capacity(alloc, nodes.len())?;
        for node in nodes {
            match self.image(*node) {
                Some(term) => list.push(term)?,
                None => return Ok(None),
            }
        }
        Ok(Some(list))
    }
}
