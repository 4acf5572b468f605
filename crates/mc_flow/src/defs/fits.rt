// Which lists of definitions meet the conditions of definition files.
ghost use Rattle.std.specs.Prelude.{◌≡◌, ◌↔◌, IsTrue, length, map, Some};
ghost use Rattle.mc_flow.specs.Defs.Conditions.{numbers_from, HasNames, IsNumber, BoundsFit, IsKnown, BaseFits, OffsetFits, SumFits, SidesFit, FixingFits, AtomFits, AtomsFit, ArgsFit, CallFits, RuleFits};
ghost use Rattle.std.specs.Prelude.{slice_get, All, take, suc, ◌∷◌, [], None, ◌+◌, ◌<◌};

use crate::defs::{Call, Def, DefAtom, Rule};
use mc_base::Kind;

const GREATEST: i64 = 2147483647;

fn is_number(n: i64) -> bool
    ensures { IsTrue result ↔ IsNumber n }
{
    n >= -GREATEST && n <= GREATEST
}

fn bounds_fit(lo: i64, hi: i64) -> bool
    ensures { IsTrue result ↔ BoundsFit lo hi }
{
    (lo == -GREATEST - 1 && is_number(hi)) || (is_number(lo) && hi == GREATEST)
}

fn is_known(names: &[Kind], known: usize, kind: Kind, name: u64) -> bool
    ensures { IsTrue result ↔ IsKnown names.now known kind name }
{
    (name as usize) < known && names.get(name as usize) == Some(&kind)
}

fn base_fits(names: &[Kind], known: usize, kind: Kind, base: Option<u64>) -> bool
    ensures { IsTrue result ↔ BaseFits names.now known kind base }
{
    match base {
        None => true,
        Some(name) => is_known(names, known, kind, name),
    }
}

fn offset_fits(kind: Kind, add: i64) -> bool
    ensures { IsTrue result ↔ OffsetFits kind add }
{
    match kind {
        Kind::Int => is_number(add),
        Kind::Ptr => add == 0,
    }
}

fn sum_fits(names: &[Kind], known: usize, kind: Kind, base: Option<u64>, add: i64) -> bool
    ensures { IsTrue result ↔ SumFits names.now known kind base add }
{
    base_fits(names, known, kind, base) && offset_fits(kind, add)
}

// A known name of any kind, and a sum of its kind.
fn sides_fit(names: &[Kind], known: usize, left: u64, base: Option<u64>, add: i64) -> bool
    ensures { IsTrue result ↔ SidesFit names.now known left base add }
{
    match names.get(left as usize) {
        None => false,
        Some(kind) => (left as usize) < known && sum_fits(names, known, *kind, base, add),
    }
}

// The next name, which has a kind, and a sum of that kind.
fn fixing_fits(names: &[Kind], known: usize, left: u64, base: Option<u64>, add: i64) -> bool
    ensures { IsTrue result ↔ FixingFits names.now known left base add }
{
    match names.get(left as usize) {
        None => false,
        Some(kind) => left as usize == known && sum_fits(names, known, *kind, base, add),
    }
}

fn atom_fits(names: &[Kind], known: usize, atom: DefAtom) -> bool
    ensures { IsTrue result ↔ AtomFits names.now known atom }
{
    match atom {
        DefAtom::Eq {
            left,
            base,
            add,
            fixes: true,
        } => fixing_fits(names, known, left, base, add),
        DefAtom::Eq {
            left,
            base,
            add,
            fixes: false,
        } => sides_fit(names, known, left, base, add),
        DefAtom::Ne { left, base, add } => sides_fit(names, known, left, base, add),
        DefAtom::In { left, lo, hi } => {
            is_known(names, known, Kind::Int, left) && bounds_fit(lo, hi)
        }
    }
}

fn atoms_fit(names: &[Kind], front: usize, atoms: &[DefAtom]) -> bool
    ensures { IsTrue result ↔ AtomsFit names.now front atoms.now }
{
    let mut known = front;
    for atom in atoms {
        if !atom_fits(names, known, *atom) {
            return false;
        }
        if let DefAtom::Eq { fixes: true, .. } = atom {
            known += 1;
        }
    }
    known == names.len()
}

fn is_kind_of(names: &[Kind], name: u64, kind: Kind) -> bool
    ensures { IsTrue result ↔ (slice_get names.now name ≡ Some kind) }
{
    names.get(name as usize) == Some(&kind)
}

fn args_fit(names: &[Kind], args: &[u64], params: &[Kind]) -> bool
    ensures { IsTrue result ↔ ArgsFit names.now args.now params.now }
{
    if args.len() != params.len() {
        return false;
    }
    for (i, name) in args.iter().enumerate() {
        if !is_kind_of(names, *name, params[i]) {
            return false;
        }
    }
    true
}

fn call_fits(defs: &[Def], names: &[Kind], call: &Call) -> bool
    ensures { IsTrue result ↔ CallFits defs.now names.now call.now }
{
    match defs.get(call.pred.0 as usize) {
        None => false,
        Some(def) => {
            is_kind_of(names, call.at, Kind::Ptr)
                && args_fit(names, call.args.as_slice(), def.params.as_slice())
        }
    }
}

fn calls_fit(defs: &[Def], names: &[Kind], calls: &[Call]) -> bool
    ensures { IsTrue result ↔ All (CallFits defs.now names.now) calls.now }
{
    calls.iter().all(|call| call_fits(defs, names, call))
}

pub fn same_kinds(left: &[Kind], right: &[Kind]) -> bool
    ensures { IsTrue result ↔ (left.now ≡ right.now) }
{
    if left.len() != right.len() {
        return false;
    }
    for (i, kind) in left.iter().enumerate() {
        if *kind != right[i] {
            return false;
        }
    }
    true
}

fn has_front(names: &[Kind], params: &[Kind]) -> bool
    ensures { IsTrue result ↔ (take (suc (length params.now)) names.now ≡ Kind.Ptr ∷ params.now) }
{
    match names {
        [Kind::Ptr, rest @ ..] => {
            params.len() <= rest.len() && same_kinds(&rest[..params.len()], params)
        }
        _ => false,
    }
}

fn are_consecutive(first: u64, numbers: &[u64]) -> bool
    ensures { IsTrue result ↔ (numbers.now ≡ numbers_from first (length numbers.now)) }
{
    for (i, number) in numbers.iter().enumerate() {
        if number.checked_sub(first) != Some(i as u64) {
            return false;
        }
    }
    true
}

fn is_guarded(rule: &Rule) -> bool
    ensures { IsTrue result ↔ (rule.now.block ≡ None → rule.now.calls ≡ []) }
{
    rule.block.is_some() || rule.calls.len() == 0
}

fn has_names(params: &[Kind], rule: &Rule) -> bool
    ensures { IsTrue result ↔ HasNames params.now rule.now }
{
    let known = params.len() + 1;
    let contents = rule.contents.as_slice();
    has_front(rule.names.as_slice(), params)
        && are_consecutive(known as u64, contents)
        && atoms_fit(
            rule.names.as_slice(),
            known + contents.len(),
            rule.atoms.as_slice(),
        )
}

pub fn rule_fits(defs: &[Def], params: &[Kind], rule: &Rule) -> bool
    ensures { IsTrue result ↔ RuleFits defs.now params.now rule.now }
{
    has_names(params, rule)
        && is_guarded(rule)
        && calls_fit(defs, rule.names.as_slice(), rule.calls.as_slice())
}
