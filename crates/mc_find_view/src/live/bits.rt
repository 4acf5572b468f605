// Rows of bits.
use mc_base::NoMemory;
use std::alloc::{AllocError, Global};

/// Rows of bits, all of one width.
#[derive(Drop)]
pub struct Rows {
    words: usize,
    bits: Vec<u64>,
}

impl Rows {
    /// So many rows of so many bits, all of this value.
    pub fn new(alloc: Global, rows: usize, width: usize, value: bool) -> Result<Rows, NoMemory> {
        let words = width / 64 + 1;
        let Some(count) = rows.checked_mul(words) else {
            return Err(AllocError);
        };
        let all = if value { u64::MAX } else { 0 };
        Ok(Rows {
            words,
            bits: vec![in alloc; all; count]?,
        })
    }

    /// The place of the word of a bit.
    fn place(&self, row: usize, bit: usize) -> Option<usize> {
        if bit / 64 >= self.words {
            return None;
        }
        match row.checked_mul(self.words) {
            Some(start) => start.checked_add(bit / 64),
            None => None,
        }
    }

    /// A bit of a row. False past the end.
    pub fn has(&self, row: usize, bit: usize) -> bool {
        match self.place(row, bit) {
            Some(place) => match self.bits.as_slice().get(place) {
                Some(word) => (*word >> (bit % 64) as u32) & 1 == 1,
                None => false,
            },
            None => false,
        }
    }

    /// Sets a bit of a row.
    pub fn set(&mut self, row: usize, bit: usize, value: bool) {
        let mask = 1u64 << (bit % 64) as u32;
        if let Some(place) = self.place(row, bit) {
            if let Some(word) = self.bits.get_mut(place) {
                if value {
                    *word |= mask;
                } else {
                    *word &= !mask;
                }
            }
        }
    }

    /// A word of a row, by its place in the row.
    fn word(&self, row: usize, at: usize) -> u64 {
        match row.checked_mul(self.words) {
            Some(start) => match start.checked_add(at) {
                Some(place) => self.bits.as_slice().get(place).copied().unwrap_or(0),
                None => 0,
            },
            None => 0,
        }
    }

    /// Puts a word into a row; whether it changed.
    fn put(&mut self, row: usize, at: usize, word: u64) -> bool {
        let Some(start) = row.checked_mul(self.words) else {
            return false;
        };
        let Some(place) = start.checked_add(at) else {
            return false;
        };
        match self.bits.get_mut(place) {
            Some(old) => {
                let changed = *old != word;
                *old = word;
                changed
            }
            None => false,
        }
    }

    /// Copies a row of others of the same width into a row; whether it changed.
    pub fn take_row(&mut self, others: &Rows, from: usize, to: usize) -> bool {
        let mut changed = false;
        for at in 0..self.words {
            let word = others.word(from, at);
            if self.put(to, at, word) {
                changed = true;
            }
        }
        changed
    }

    /// Adds the bits of a row of others to a row.
    pub fn add_row(&mut self, others: &Rows, from: usize, to: usize) {
        for at in 0..self.words {
            let word = self.word(to, at) | others.word(from, at);
            self.put(to, at, word);
        }
    }

    /// Keeps of a row the bits that a row of others has too.
    pub fn keep_row(&mut self, others: &Rows, from: usize, to: usize) {
        for at in 0..self.words {
            let word = self.word(to, at) & others.word(from, at);
            self.put(to, at, word);
        }
    }

    /// Gives all bits of a row this value.
    pub fn fill_row(&mut self, row: usize, value: bool) {
        let all = if value { u64::MAX } else { 0 };
        for at in 0..self.words {
            self.put(row, at, all);
        }
    }
}
