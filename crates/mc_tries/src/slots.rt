// What the names of unfolded rules stand for.
use mc_base::{Kind, NoMemory};
use std::alloc::Global;

/// One name is another, or zero, and a number more.
#[derive(Clone, Copy)]
pub struct Sum {
    pub left: usize,
    pub base: Option<usize>,
    pub add: i64,
}

/// A name has a number between two others.
#[derive(Clone, Copy)]
pub struct Bounds {
    pub name: usize,
    pub lo: i64,
    pub hi: i64,
}

/// The names of unfolded rules, what is known of their values, and what is asked of them.
#[derive(Drop)]
pub struct Slots {
    values: Vec<Option<i64>>,
    kinds: Vec<Kind>,
    pub equal: Vec<Sum>,
    pub unlike: Vec<Sum>,
    pub bounds: Vec<Bounds>,
}

impl Slots {
    pub fn new(alloc: Global) -> Slots {
        Slots {
            values: Vec::new(alloc),
            kinds: Vec::new(alloc),
            equal: Vec::new(alloc),
            unlike: Vec::new(alloc),
            bounds: Vec::new(alloc),
        }
    }

    /// A new name of a kind, perhaps with its value.
    pub fn add(&mut self, kind: Kind, value: Option<i64>) -> Result<usize, NoMemory> {
        let name = self.values.len();
        self.values.push(value)?;
        self.kinds.push(kind)?;
        Ok(name)
    }

    pub fn len(&self) -> usize {
        self.values.len()
    }

    /// The value of a name, if it is known.
    pub fn value(&self, name: usize) -> Option<i64> {
        self.values.as_slice().get(name).copied().unwrap_or(None)
    }

    pub fn kind(&self, name: usize) -> Kind {
        self.kinds
            .as_slice()
            .get(name)
            .copied()
            .unwrap_or(Kind::Int)
    }

    /// A name has this value.
    pub fn set(&mut self, name: usize, value: i64) {
        if let Some(slot) = self.values.get_mut(name) {
            *slot = Some(value);
        }
    }

    // The value of the right side of a sum, if it is known.
    fn right(&self, sum: Sum) -> Option<i64> {
        let base = match sum.base {
            None => 0,
            Some(name) => self.value(name)?,
        };
        Some(base.saturating_add(sum.add))
    }

    // Gives a value to a side of a sum whose other side is known; whether there was one to give.
    fn spread(&mut self, sum: Sum) -> bool {
        match (self.value(sum.left), self.right(sum), sum.base) {
            (None, Some(value), _) => {
                self.set(sum.left, value);
                true
            }
            (Some(value), None, Some(base)) => {
                self.set(base, value.saturating_sub(sum.add));
                true
            }
            _ => false,
        }
    }

    /// Gives the names their values that equalities determine.
    pub fn settle(&mut self) {
        for _ in 0..self.equal.len() {
            let mut changed = false;
            for place in 0..self.equal.len() {
                if let Some(sum) = self.equal.as_slice().get(place).copied() {
                    changed = self.spread(sum) || changed;
                }
            }
            if !changed {
                return;
            }
        }
    }

    /// The number nearest to this one that the bounds of a name allow.
    pub fn bounded(&self, name: usize, number: i64) -> i64 {
        let mut nearest = number;
        for bound in self.bounds.as_slice() {
            if bound.name == name {
                nearest = nearest.max(bound.lo).min(bound.hi);
            }
        }
        nearest
    }

    /// Whether all that is asked is so.
    pub fn are_met(&self) -> bool {
        for sum in self.equal.as_slice() {
            if self.value(sum.left) != self.right(*sum) {
                return false;
            }
        }
        for sum in self.unlike.as_slice() {
            if self.value(sum.left) == self.right(*sum) {
                return false;
            }
        }
        for bound in self.bounds.as_slice() {
            let number = self.value(bound.name).unwrap_or(0);
            if number < bound.lo || number > bound.hi {
                return false;
            }
        }
        true
    }
}
