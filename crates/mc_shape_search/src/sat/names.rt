// Values for the names of a rule at a goal.
ghost use Rattle.std.specs.Prelude.{◌≡◌, ◌+ℤ◌, ◌++◌, ◌∷◌, ℤ, List, Some, None, IfOk, IsTrue, MatchOption, false, length, option_map, if◌then◌else◌};
ghost use Rattle.mc_flow.specs.Defs.Values.{value_of, base_of};
ghost use Rattle.mc_base.specs.declared.plain.Kind as kind;
ghost use Rattle.mc_flow.specs.declared.defs.rules.DefAtom.{DefAtom};
ghost use Rattle.std.specs.Ordering.{int_eq};
ghost use Rattle.mc_shape_search.specs.Sat.Names.{IsFar, IntroducesFar, in_kind, all_in_kinds, is_true, all_true, with_fixed};
ghost use Rattle.mc_shape_search.specs.Sat.Marks.{address_of, all_defined, contents_at, names_with, names_for};

use crate::sat::Goal;
use mc_base::{Kind, StructId};
use mc_flow::defs::{Def, DefAtom, Rule};
use mc_flow::heap::{Heap, NoMemory};
use std::alloc::Global;

// The value of a name.
pub fn value(names: &[i64], name: u64) -> i64
    ensures { result ≡ value_of names.now name }
{
    match names.get(name as usize) {
        Some(value) => *value,
        None => 0,
    }
}

// The value of the base of a sum.
fn base_value(names: &[i64], base: Option<u64>) -> i64
    ensures { result ≡ base_of names.now base }
{
    match base {
        Some(name) => value(names, name),
        None => 0,
    }
}

// The value of a sum. None where it lies far from the range of each kind.
fn sum(names: &[i64], base: Option<u64>, add: i64) -> Option<i64>
    ensures { MatchOption result (IsFar (base_of names.now base +ℤ add)) (λ sum. sum ≡ base_of names.now base +ℤ add) }
{
    base_value(names, base).checked_add(add)
}

fn in_kind(kind: Kind, value: i64) -> bool
    ensures { result ≡ in_kind kind value }
{
    match kind {
        Kind::Int => value >= -2147483648 && value <= 2147483647,
        Kind::Ptr => value >= 0 && value <= 4611686018427387903,
    }
}

fn all_in_kinds(kinds: &[Kind], names: &[i64]) -> bool
    ensures { result ≡ all_in_kinds kinds.now names.now }
{
    if kinds.len() != names.len() {
        return false;
    }
    for (i, kind) in kinds.iter().enumerate() {
        if !in_kind(*kind, names[i]) {
            return false;
        }
    }
    true
}

// Whether a name has the value of a sum.
fn equals(names: &[i64], left: u64, base: Option<u64>, add: i64) -> bool
    ensures { result ≡ int_eq (value_of names.now left) (base_of names.now base +ℤ add) }
{
    let value = value(names, left);
    match sum(names, base, add) {
        None => false,
        Some(sum) => value == sum,
    }
}

fn is_true(names: &[i64], atom: DefAtom) -> bool
    ensures { result ≡ is_true names.now atom }
{
    match atom {
        DefAtom::Eq {
            left,
            base,
            add,
            ..
        } => equals(names, left, base, add),
        DefAtom::Ne { left, base, add } => !equals(names, left, base, add),
        DefAtom::In { left, lo, hi } => {
            let value = value(names, left);
            lo <= value && value <= hi
        }
    }
}

fn all_true(names: &[i64], atoms: &[DefAtom]) -> bool
    ensures { result ≡ all_true names.now atoms.now }
{
    for atom in atoms {
        if !is_true(names, *atom) {
            return false;
        }
    }
    true
}

// Adds the name that an atom introduces, if it does. With false its value is far from the range of its kind.
fn push_sum(names: &mut Vec<i64>, atom: DefAtom) -> Result<bool, NoMemory>
    ensures made { IfOk result (λ near. IsTrue near → (rest : List DefAtom) → with_fixed names.new.items rest
        ≡ with_fixed names.old.items (atom ∷ rest)) }
    ensures far { IfOk result (λ near. near ≡ false → IntroducesFar names.old.items atom) }
{
    let DefAtom::Eq {
        base,
        add,
        fixes: true,
        ..
    } = atom
    else {
        return Ok(true);
    };
    match sum(names, base, add) {
        None => Ok(false),
        Some(value) => {
            names.push(value)?;
            Ok(true)
        }
    }
}

// Adds the names that atoms introduce. With false one of them has a value that is far from the range of its kind.
fn push_fixed(names: &mut Vec<i64>, atoms: &[DefAtom]) -> Result<bool, NoMemory>
    ensures made { IfOk result (λ near. IsTrue near → names.new.items ≡ with_fixed names.old.items atoms.now) }
    ensures far { IfOk result (λ near. near ≡ false → (kinds : List kind.Kind)
        → all_in_kinds kinds (with_fixed names.old.items atoms.now) ≡ false) }
{
    for atom in atoms {
        if !push_sum(names, *atom)? {
            return Ok(false);
        }
    }
    Ok(true)
}

// Adds the values of fields, and answers whether all are defined.
fn push_defined(names: &mut Vec<i64>, fields: &[Option<i64>]) -> Result<bool, NoMemory>
    ensures { IfOk result (λ all. (if all then Some names.new.items else None)
        ≡ option_map (λ values. names.old.items ++ values) (all_defined fields.now)) }
{
    for field in fields {
        match field {
            None => return Ok(false),
            Some(value) => names.push(*value)?,
        }
    }
    Ok(true)
}

// The address that a value is.
pub fn address_of(value: i64) -> Option<u64>
    ensures { result ≡ address_of value }
{
    if value < 0 { None } else { Some(value as u64) }
}

// Adds what the block of a rule holds at a value, and answers whether it is there with every field defined.
fn push_contents(
    names: &mut Vec<i64>,
    heap: &Heap,
    value: i64,
    block: Option<StructId>,
) -> Result<bool, NoMemory>
    ensures { IfOk result (λ there. (if there then Some names.new.items else None)
        ≡ option_map (λ values. names.old.items ++ values) (contents_at heap.now value block)) }
{
    let Some(shape) = block else {
        return Ok(true);
    };
    let Some(at) = address_of(value) else {
        return Ok(false);
    };
    match heap.fields(at, shape.0) {
        None => Ok(false),
        Some(fields) => push_defined(names, fields),
    }
}

// The value and the arguments of a goal.
fn front_names(alloc: Global, goal: &Goal) -> Result<Vec<i64>, NoMemory>
    ensures { IfOk result (λ names. names.items ≡ goal.now.at ∷ goal.now.args) }
{
    let mut names = vec![in alloc; goal.at]?;
    for arg in goal.args.as_slice() {
        names.push(*arg)?;
    }
    Ok(names)
}

// All names of a rule, where the first are those of a goal and so many contents. None where they do not fit.
fn names_with(
    mut names: Vec<i64>,
    held: usize,
    goal: &Goal,
    def: &Def,
    rule: &Rule,
) -> Result<Option<Vec<i64>>, NoMemory>
    ensures { IfOk result (λ made. (contents : List ℤ) → names.items ≡ goal.now.at ∷ (goal.now.args ++ contents)
        → length contents ≡ held → option_map (λ v. v.items) made ≡ names_with goal.now def.now rule.now contents) }
{
    if goal.args.len() != def.params.len() || held != rule.contents.len() {
        return Ok(None);
    }
    if !push_fixed(&mut names, rule.atoms.as_slice())? {
        return Ok(None);
    }
    if all_in_kinds(rule.names.as_slice(), &names) && all_true(&names, rule.atoms.as_slice()) {
        Ok(Some(names))
    } else {
        Ok(None)
    }
}

/// The values of a rule's names at a goal, and None where they do not fit.
pub fn names_for(
    alloc: Global,
    heap: &Heap,
    goal: &Goal,
    def: &Def,
    rule: &Rule,
) -> Result<Option<Vec<i64>>, NoMemory>
    ensures { IfOk result (λ made. option_map (λ v. v.items) made ≡ names_for heap.now goal.now def.now rule.now) }
{
    let mut names = front_names(alloc, goal)?;
    let front = names.len();
    if !push_contents(&mut names, heap, goal.at, rule.block)? {
        return Ok(None);
    }
    let held = names.len() - front;
    names_with(names, held, goal, def, rule)
}
