// Shapes on which a predicate holds, made by unfolding its rules.
use crate::draws::Draws;
use crate::numbers::Numbers;
use crate::slots::{Bounds, Slots, Sum};
use crate::style::Style;
use mc_base::{Kind, NoMemory, PredId};
use mc_flow::defs::{Call, Def, DefAtom, Rule};
use std::alloc::Global;

// How many predicates are unfolded at most for a shape.
const UNFOLDINGS: usize = 24;

// How many shapes are begun at most for one that is made.
const BEGINNINGS: usize = 12;

/// A block of a shape.
#[derive(Drop)]
pub struct MadeBlock {
    pub address: u64,
    pub shape: u64,
    pub fields: Vec<i64>,
}

/// The value of a shape, and its blocks.
#[derive(Drop)]
pub struct Made {
    pub value: i64,
    pub blocks: Vec<MadeBlock>,
}

/// What a shape is made of.
#[derive(Clone, Copy)]
pub struct Wanted<'a> {
    pub alloc: Global,
    pub defs: &'a [Def],
    pub predicate: PredId,
    pub arguments: &'a [i64],
    pub numbers: &'a Numbers,
    pub style: Style,
    /// The address of its first block.
    pub address: u64,
}

// A predicate that is to hold at a name, with names as its arguments.
#[derive(Drop)]
struct Open {
    predicate: PredId,
    at: usize,
    arguments: Vec<usize>,
}

// A block at a name, whose fields hold what names stand for.
#[derive(Drop)]
struct Placed {
    at: usize,
    shape: u64,
    contents: Vec<usize>,
}

// A shape that is being made: its names, what is left to unfold, its blocks, and how many each predicate may still have.
struct Maker<'a> {
    wanted: Wanted<'a>,
    slots: Slots,
    left: Vec<Open>,
    blocks: Vec<Placed>,
    room: Vec<u64>,
    address: u64,
}

impl Drop for Maker<'_> {
    fn drop(self) {
        let Maker {
            wanted: _,
            slots,
            left,
            blocks,
            room,
            address: _,
        } = self;
        drop(slots);
        drop(left);
        drop(blocks);
        drop(room);
    }
}

// The name at a place of a list.
fn name_at(names: &[usize], place: u64) -> usize {
    names.get(place as usize).copied().unwrap_or(0)
}

fn names_at(alloc: Global, names: &[usize], places: &[u64]) -> Result<Vec<usize>, NoMemory> {
    let mut list = Vec::with_capacity(alloc, places.len())?;
    for place in places {
        list.push(name_at(names, *place))?;
    }
    Ok(list)
}

// A sum of a rule's names.
fn sum_of(names: &[usize], left: u64, base: Option<u64>, add: i64) -> Sum {
    Sum {
        left: name_at(names, left),
        base: base.map(|name| name_at(names, name)),
        add,
    }
}

// Whether a rule ends what it unfolds: no other has fewer calls.
fn is_shortest(rules: &[Rule], rule: &Rule) -> bool {
    for other in rules {
        if other.calls.len() < rule.calls.len() {
            return false;
        }
    }
    true
}

impl<'a> Maker<'a> {
    // Begins with the predicate at a new name.
    fn start(wanted: Wanted<'a>, draws: &mut Draws) -> Result<Maker<'a>, NoMemory> {
        let alloc = wanted.alloc;
        let mut slots = Slots::new(alloc);
        let at = slots.add(Kind::Ptr, None)?;
        let mut arguments = Vec::new(alloc);
        for value in wanted.arguments {
            arguments.push(slots.add(Kind::Int, Some(*value))?)?;
        }
        let mut left = Vec::new(alloc);
        left.push(Open {
            predicate: wanted.predicate,
            at,
            arguments,
        })?;
        let mut room = Vec::new(alloc);
        for _ in wanted.defs {
            room.push(draws.below(wanted.style.blocks.saturating_add(1)))?;
        }
        Ok(Maker {
            wanted,
            slots,
            left,
            blocks: Vec::new(alloc),
            room,
            address: wanted.address,
        })
    }

    // How many blocks a predicate may still have.
    fn room_of(&self, predicate: PredId) -> u64 {
        self.room
            .as_slice()
            .get(predicate.0 as usize)
            .copied()
            .unwrap_or(0)
    }

    // Whether a rule may be taken for a predicate that grows, or ends, at a name.
    fn fits(&self, rules: &[Rule], rule: &Rule, grows: bool, at: usize) -> bool {
        let value = self.slots.value(at);
        if rule.block.is_some() && value == Some(0) {
            return false;
        }
        if grows {
            rule.block.is_some() || value.is_some()
        } else {
            is_shortest(rules, rule)
        }
    }

    // One of the rules that may be taken for a predicate at a name, or any where none may.
    fn draw_rule(&self, draws: &mut Draws, rules: &'a [Rule], open: &Open) -> Option<&'a Rule> {
        let grows = self.room_of(open.predicate) > 0 && !draws.once_in(4);
        let mut found = None;
        let mut count: u64 = 0;
        for rule in rules {
            if self.fits(rules, rule, grows, open.at) {
                count = count.saturating_add(1);
                if draws.below(count) == 0 {
                    found = Some(rule);
                }
            }
        }
        match found {
            Some(rule) => Some(rule),
            None => rules.get(draws.place(rules.len())),
        }
    }

    // The names of a rule: `this`, the arguments, and new ones.
    fn names_of(&mut self, rule: &Rule, open: &Open) -> Result<Vec<usize>, NoMemory> {
        let mut names = Vec::with_capacity(self.wanted.alloc, rule.names.len())?;
        names.push(open.at)?;
        names.extend_from_slice(open.arguments.as_slice())?;
        for place in names.len()..rule.names.len() {
            let kind = rule
                .names
                .as_slice()
                .get(place)
                .copied()
                .unwrap_or(Kind::Int);
            names.push(self.slots.add(kind, None)?)?;
        }
        Ok(names)
    }

    // What an atom asks of names.
    fn ask(&mut self, atom: DefAtom, names: &[usize]) -> Result<(), NoMemory> {
        match atom {
            DefAtom::Eq {
                left,
                base,
                add,
                fixes: _,
            } => self.slots.equal.push(sum_of(names, left, base, add))?,
            DefAtom::Ne { left, base, add } => {
                self.slots.unlike.push(sum_of(names, left, base, add))?;
            }
            DefAtom::In { left, lo, hi } => {
                self.slots.bounds.push(Bounds {
                    name: name_at(names, left),
                    lo,
                    hi,
                })?;
            }
        }
        Ok(())
    }

    // The block of a rule at a name: where its value is not known, at the next address.
    fn place(&mut self, rule: &Rule, names: &[usize], open: &Open) -> Result<(), NoMemory> {
        let Some(shape) = rule.block else {
            return Ok(());
        };
        if self.slots.value(open.at).is_none() {
            self.slots
                .set(open.at, self.address.min(1_000_000_000) as i64);
            self.address = self.address.saturating_add(1);
            self.slots.settle();
        }
        if let Some(room) = self.room.get_mut(open.predicate.0 as usize) {
            *room = room.saturating_sub(1);
        }
        let contents = names_at(self.wanted.alloc, names, rule.contents.as_slice())?;
        self.blocks.push(Placed {
            at: open.at,
            shape: shape.0,
            contents,
        })?;
        Ok(())
    }

    // What a call leaves to unfold.
    fn call(&mut self, call: &Call, names: &[usize]) -> Result<(), NoMemory> {
        let arguments = names_at(self.wanted.alloc, names, call.args.as_slice())?;
        self.left.push(Open {
            predicate: call.pred,
            at: name_at(names, call.at),
            arguments,
        })?;
        Ok(())
    }

    // A predicate is unfolded by one of its rules.
    fn unfold(&mut self, draws: &mut Draws, open: &Open) -> Result<(), NoMemory> {
        let Some(def) = self.wanted.defs.get(open.predicate.0 as usize) else {
            return Ok(());
        };
        self.slots.settle();
        let Some(rule) = self.draw_rule(draws, def.rules.as_slice(), open) else {
            return Ok(());
        };
        let names = self.names_of(rule, open)?;
        for atom in rule.atoms.as_slice() {
            self.ask(*atom, names.as_slice())?;
        }
        self.slots.settle();
        self.place(rule, names.as_slice(), open)?;
        for call in rule.calls.as_slice() {
            self.call(call, names.as_slice())?;
        }
        Ok(())
    }

    // Unfolds what is left; whether nothing is left then.
    fn unfold_all(&mut self, draws: &mut Draws) -> Result<bool, NoMemory> {
        for _ in 0..UNFOLDINGS {
            let Some(open) = self.left.pop() else {
                return Ok(true);
            };
            self.unfold(draws, &open)?;
        }
        Ok(self.left.is_empty())
    }

    // A value for a name that may have any.
    fn any_value(&self, draws: &mut Draws, name: usize) -> i64 {
        match self.slots.kind(name) {
            Kind::Int => {
                let number = self.wanted.numbers.draw(draws, self.wanted.style.small);
                self.slots.bounded(name, number)
            }
            Kind::Ptr => {
                let blocks = self.blocks.as_slice();
                match blocks.get(draws.place(blocks.len().saturating_add(2))) {
                    Some(block) => self.slots.value(block.at).unwrap_or(0),
                    None => 0,
                }
            }
        }
    }

    // Gives each name a value; whether all that is asked is so then.
    fn fill(&mut self, draws: &mut Draws) -> bool {
        self.slots.settle();
        for name in 0..self.slots.len() {
            if self.slots.value(name).is_none() {
                let value = self.any_value(draws, name);
                self.slots.set(name, value);
                self.slots.settle();
            }
        }
        self.slots.are_met()
    }

    // What is made, when each name has a value.
    fn made(&self) -> Result<Made, NoMemory> {
        let alloc = self.wanted.alloc;
        let mut blocks = Vec::new(alloc);
        for placed in self.blocks.as_slice() {
            let mut fields = Vec::new(alloc);
            for name in placed.contents.as_slice() {
                fields.push(self.slots.value(*name).unwrap_or(0))?;
            }
            blocks.push(MadeBlock {
                address: self.slots.value(placed.at).unwrap_or(0).max(0) as u64,
                shape: placed.shape,
                fields,
            })?;
        }
        Ok(Made {
            value: self.slots.value(0).unwrap_or(0),
            blocks,
        })
    }
}

// One try.
fn try_one(wanted: Wanted<'_>, draws: &mut Draws) -> Result<Option<Made>, NoMemory> {
    let mut maker = Maker::start(wanted, draws)?;
    if maker.unfold_all(draws)? && maker.fill(draws) {
        Ok(Some(maker.made()?))
    } else {
        Ok(None)
    }
}

/// A shape as it is wanted, if one is found. Whether the predicate holds there is for the interpreter to say.
pub fn make(wanted: Wanted<'_>, draws: &mut Draws) -> Result<Option<Made>, NoMemory> {
    for _ in 0..BEGINNINGS {
        if let Some(made) = try_one(wanted, draws)? {
            return Ok(Some(made));
        }
    }
    Ok(None)
}
