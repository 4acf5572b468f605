// Blocks at addresses, which are read, written, made and freed.
ghost use Rattle.std.specs.Prelude.{◌≡◌, ◌↔◌, IsTrue, IsSome, IsNone, IsSomeAnd, IfOk, OnErr, true, false, None, Some, replicate, option_map};
ghost use Rattle.std.specs.FinMap as map;
ghost use Rattle.mc_flow.specs.Heap.Access.{block_field, field_at, read_of, with_field, fresh_block, fields_at};
ghost use Rattle.mc_flow.specs.Heap.Heap.{IsAddress, HasAddresses};

use std::alloc::Global;
use std::collections::BTreeMap;
use std::marker::Model;

/// The one error of calls that fail only where memory runs out.
pub type NoMemory = std::alloc::AllocError;

/// What a field holds.
#[derive(Clone, Copy, Debug, PartialEq, Eq)]
pub enum Read {
    Value(i64),
    Undefined,
    /// There is no such field: the address is free, is of another struct, or has fewer fields.
    Absent,
}

/// The number of a struct, and its fields.
#[derive(Drop)]
struct Cell {
    shape: u64,
    fields: Vec<Option<i64>>,
}

impl Model for Cell {
    ghost use Rattle.mc_flow.specs.Heap.Heap.{Block, block_code};

    ghost Value = { Block };

    ghost coded = { block_code };

    ghost view = { λ c. record { shape = c.shape; fields = c.fields.items } };
}

// So many undefined fields.
fn undefined(alloc: Global, fields: u64) -> Result<Vec<Option<i64>>, NoMemory>
    ensures { IfOk result (λ made. made.items ≡ replicate fields None) }
{
    vec![in alloc; None; fields as usize]
}

impl Cell {
    fn read(&self, shape: u64, field: u64) -> Read
        ensures { result ≡ read_of (block_field self.now shape field) }
    {
        if self.shape != shape {
            return Read::Absent;
        }
        match self.fields.get(field as usize) {
            None => Read::Absent,
            Some(None) => Read::Undefined,
            Some(Some(value)) => Read::Value(*value),
        }
    }

    fn fields(&self, shape: u64) -> Option<&[Option<i64>]>
        ensures { option_map (λ fields. fields.now) result ≡ fields_at (Some self.now) shape }
    {
        if self.shape != shape {
            return None;
        }
        Some(self.fields.as_slice())
    }

    fn write(&mut self, shape: u64, field: u64, value: i64) -> bool
        ensures there { IsTrue result ↔ IsSome (block_field self.old shape field) }
        ensures written { IsTrue result → self.new ≡ with_field self.old field value }
        ensures kept { result ≡ false → self.new ≡ self.old }
    {
        if self.shape != shape {
            return false;
        }
        match self.fields.get_mut(field as usize) {
            None => false,
            Some(slot) => {
                *slot = Some(value);
                true
            }
        }
    }
}

/// Blocks of memory at addresses from 1 to 2^62 - 1. It knows nothing of what a struct is: each is a number.
#[derive(Drop)]
pub struct Heap {
    blocks: BTreeMap<u64, Cell>,
    alloc: Global,
}

impl Model for Heap {
    ghost use Rattle.std.specs.Ordering.{nat_cmp};
    ghost use Rattle.std.specs.FinMap as map;
    ghost use Rattle.std.specs.Coded.{coded_ℕ};
    ghost use Rattle.mc_flow.specs.Heap.Heap.{Block, block_code, HasAddresses};

    ghost Value = { map.FinMap nat_cmp Block };

    ghost coded = { map.code coded_ℕ block_code };

    ghost view = { λ h. map.from_entries h.blocks.entries };

    ghost invariant = { λ h. HasAddresses (map.from_entries h.blocks.entries) };
}

impl Heap {
    /// The heap in which nothing is allocated.
    pub fn new(alloc: Global) -> Heap
        ensures { result ≡ map.empty }
    {
        Heap {
            blocks: BTreeMap::new(alloc),
            alloc,
        }
    }

    /// What a field of a block holds. Absent exactly where the address is not allocated as that
    /// struct, or the struct has no such field.
    pub fn read(&self, address: u64, shape: u64, field: u64) -> Read
        ensures answer { result ≡ read_of (field_at (map.get self.now address) shape field) }
        ensures addresses { HasAddresses self.now }
    {
        let Some(cell) = self.blocks.get(&address) else {
            return Read::Absent;
        };
        cell.read(shape, field)
    }

    /// The fields of a block. None exactly where the address is not allocated as that struct.
    pub fn fields(&self, address: u64, shape: u64) -> Option<&[Option<i64>]>
        ensures { option_map (λ fields. fields.now) result ≡ fields_at (map.get self.now address) shape }
    {
        let Some(cell) = self.blocks.get(&address) else {
            return None;
        };
        cell.fields(shape)
    }

    /// Writes a field, and answers whether it is there. With false nothing changes.
    pub fn write(&mut self, address: u64, shape: u64, field: u64, value: i64) -> bool
        ensures there { IsTrue result ↔ IsSome (field_at (map.get self.old address) shape field) }
        ensures written { IsTrue result
            → IsSomeAnd (map.get self.old address)
            (λ block. self.new ≡ map.insert self.old address (with_field block field value)) }
        ensures kept { result ≡ false → self.new ≡ self.old }
    {
        let Some(cell) = self.blocks.get_mut(&address) else {
            return false;
        };
        cell.write(shape, field, value)
    }

    /// Allocates a block of undefined fields, and answers whether the address was free. With false,
    /// and without memory, nothing changes.
    pub fn add(&mut self, address: u64, shape: u64, fields: u64) -> Result<bool, NoMemory>
        requires { IsAddress address }
        ensures answer { IfOk result (λ added. IsTrue added ↔ IsNone (map.get self.old address)) }
        ensures added { result ≡ Ok true → self.new ≡ map.insert self.old address (fresh_block shape fields) }
        ensures kept { result ≡ Ok false → self.new ≡ self.old }
        ensures err { OnErr result (self.new ≡ self.old) }
    {
        if self.blocks.contains_key(&address) {
            return Ok(false);
        }
        let fields = undefined(self.alloc, fields)?;
        self.blocks.insert(address, Cell { shape, fields })?;
        Ok(true)
    }

    /// Frees a block, and answers whether the address was allocated. With false nothing changes.
    pub fn remove(&mut self, address: u64) -> bool
        ensures was { IsTrue result ↔ IsSome (map.get self.old address) }
        ensures removed { self.new ≡ map.remove self.old address }
        ensures kept { result ≡ false → self.new ≡ self.old }
    {
        self.blocks.remove(&address).is_some()
    }

    /// How many addresses are allocated.
    pub fn len(&self) -> u64
        ensures count { result ≡ map.len self.now }
        ensures addresses { HasAddresses self.now }
    {
        self.blocks.len() as u64
    }
}
