// What the rule of a name gives at a point.
ghost use Rattle.std.specs.Prelude.{◌≡◌, Some};
ghost use Rattle.std.specs.Option.{option_copied};
ghost use Rattle.mc_flow.specs.Valid.{IsValid};
ghost use Rattle.mc_state.specs.Known.{Test, Tells};
ghost use Rattle.mc_state.specs.Fits.{IsWellMade};
ghost use Rattle.mc_rules_steps.specs.Fitting.{FitsAt};
ghost use Rattle.mc_rules_steps.specs.Judges.{adding, allocating, asserting, assuming, copying, emptying, ending, forgetting, freeing, freeing_null, loading, multiplying, skipping, stepping, stepping_code, storing, subtracting, taking, testing_at_most, testing_equal};
ghost use Rattle.mc_rules_steps.specs.Operands.{code_at};
ghost use Rattle.mc_rules_steps.specs.Sums.{HaveRanges, Ranges};
ghost use Rattle.mc_apply_steps.specs.Step.Stepped.{Steps};
ghost use Rattle.mc_apply_steps.specs.Instructions.Ranges.{FitRanges};

use crate::compute::{Operation, compute, test_at_most};
use crate::instructions::shapes::{assert_shape, assume_shape};
use crate::step::{
    Refused, Stepped, assert_empty, copy, end, forget, free, free_null, load, malloc, skip, store,
    take, test_equal,
};
use mc_base::PointId;
use mc_flow::defs::Defs;
use mc_flow::{Flow, Instr};
use mc_rules_steps::instructions_fit;
use mc_state::InstrRule;
use mc_symbolic::State;
use std::alloc::Global;

/// S1 at an instruction.
fn skip_at(code: &Instr, s: State) -> Result<Stepped, Refused>
    ensures { (know : Test) → Tells know s → Steps (skipping know (Some code.now) s) s result }
{
    match code {
        Instr::Skip(q) => skip(s, *q),
        _ => Err(Refused::Premise(1, s)),
    }
}

/// S2 at an instruction.
fn copy_at(code: &Instr, s: State) -> Result<Stepped, Refused>
    requires { FitsAt code.now s }
    ensures { (know : Test) → Tells know s → Steps (copying know (Some code.now) s) s result }
{
    match code {
        Instr::Copy(x, from, q) => copy(s, *x, *from, *q),
        _ => Err(Refused::Premise(1, s)),
    }
}

/// S3 at an instruction.
fn forget_at(code: &Instr, s: State) -> Result<Stepped, Refused>
    ensures { (know : Test) → Tells know s → Steps (forgetting know (Some code.now) s) s result }
{
    match code {
        Instr::Undef(xs, q) => forget(s, xs.as_slice(), *q),
        _ => Err(Refused::Premise(1, s)),
    }
}

/// S4 at an instruction.
fn take_at(code: &Instr, s: State) -> Result<Stepped, Refused>
    ensures { (know : Test) → Tells know s → Steps (taking know (Some code.now) s) s result }
{
    match code {
        Instr::Input(x, q) => take(s, *x, *q),
        _ => Err(Refused::Premise(1, s)),
    }
}

/// S5 at an instruction.
fn add_at(code: &Instr, s: State) -> Result<Stepped, Refused>
    requires { FitsAt code.now s }
    ensures { (know : Test) (range : Ranges) → Tells know s → FitRanges range code.now s
        → Steps (adding know range (Some code.now) s) s result }
{
    match code {
        Instr::Add(x, o, p, q) => compute(s, Operation::Sum, *x, *o, *p, *q),
        _ => Err(Refused::Premise(1, s)),
    }
}

/// S6 at an instruction.
fn sub_at(code: &Instr, s: State) -> Result<Stepped, Refused>
    requires { FitsAt code.now s }
    ensures { (know : Test) (range : Ranges) → Tells know s → FitRanges range code.now s
        → Steps (subtracting know range (Some code.now) s) s result }
{
    match code {
        Instr::Sub(x, o, p, q) => compute(s, Operation::Difference, *x, *o, *p, *q),
        _ => Err(Refused::Premise(1, s)),
    }
}

/// S7 at an instruction.
fn mul_at(code: &Instr, s: State) -> Result<Stepped, Refused>
    requires { FitsAt code.now s }
    ensures { (know : Test) (range : Ranges) → Tells know s → FitRanges range code.now s
        → Steps (multiplying know range (Some code.now) s) s result }
{
    match code {
        Instr::Mul(x, o, p, q) => compute(s, Operation::Product, *x, *o, *p, *q),
        _ => Err(Refused::Premise(1, s)),
    }
}

/// S8 at an instruction.
fn load_at(code: &Instr, s: State) -> Result<Stepped, Refused>
    ensures { (know : Test) → Tells know s → Steps (loading know (Some code.now) s) s result }
{
    match code {
        Instr::Load(x, y, shape, f, q) => load(s, *x, *y, *shape, *f, *q),
        _ => Err(Refused::Premise(1, s)),
    }
}

/// S9 at an instruction.
fn store_at(code: &Instr, s: State) -> Result<Stepped, Refused>
    requires { FitsAt code.now s }
    ensures { (know : Test) → Tells know s → Steps (storing know (Some code.now) s) s result }
{
    match code {
        Instr::Store(y, shape, f, from, q) => store(s, *y, *shape, *f, *from, *q),
        _ => Err(Refused::Premise(1, s)),
    }
}

/// S10 at an instruction.
fn malloc_at(alloc: Global, flow: &Flow, code: &Instr, s: State) -> Result<Stepped, Refused>
    ensures { (know : Test) → Tells know s → Steps (allocating know flow.now (Some code.now) s) s result }
{
    match code {
        Instr::Malloc(x, shape, q) => malloc(alloc, flow, s, *x, *shape, *q),
        _ => Err(Refused::Premise(1, s)),
    }
}

/// S11 at an instruction.
fn free_null_at(code: &Instr, s: State) -> Result<Stepped, Refused>
    requires { FitsAt code.now s }
    ensures { (know : Test) → Tells know s → Steps (freeing_null know (Some code.now) s) s result }
{
    match code {
        Instr::Free(from, q) => free_null(s, *from, *q),
        _ => Err(Refused::Premise(1, s)),
    }
}

/// S12 at an instruction.
fn free_at(alloc: Global, code: &Instr, s: State) -> Result<Stepped, Refused>
    requires { FitsAt code.now s }
    ensures { (know : Test) → Tells know s → Steps (freeing know (Some code.now) s) s result }
{
    match code {
        Instr::Free(from, q) => free(alloc, s, *from, *q),
        _ => Err(Refused::Premise(1, s)),
    }
}

/// S13 at an instruction.
fn test_equal_at(alloc: Global, code: &Instr, s: State) -> Result<Stepped, Refused>
    requires { FitsAt code.now s }
    ensures { (know : Test) → Tells know s → Steps (testing_equal know (Some code.now) s) s result }
{
    match code {
        Instr::TestEq(o, p, t, f) => test_equal(alloc, s, *o, *p, *t, *f),
        _ => Err(Refused::Premise(1, s)),
    }
}

/// S14 at an instruction.
fn test_at_most_at(alloc: Global, code: &Instr, s: State) -> Result<Stepped, Refused>
    requires { FitsAt code.now s }
    ensures { (know : Test) (range : Ranges) → Tells know s → FitRanges range code.now s
        → Steps (testing_at_most know range (Some code.now) s) s result }
{
    match code {
        Instr::TestLe(o, p, t, f) => test_at_most(alloc, s, *o, *p, *t, *f),
        _ => Err(Refused::Premise(1, s)),
    }
}

/// S15 at an instruction.
fn assume_at(alloc: Global, code: &Instr, s: State) -> Result<Stepped, Refused>
    requires { FitsAt code.now s }
    ensures { (know : Test) → Tells know s → Steps (assuming know (Some code.now) s) s result }
{
    match code {
        Instr::AssumeShape(pred, x, os, q) => {
            assume_shape(alloc, s, *pred, *x, os.as_slice(), *q)
        }
        _ => Err(Refused::Premise(1, s)),
    }
}

/// S16 at an instruction.
fn assert_at(alloc: Global, p: PointId, code: &Instr, s: State) -> Result<Stepped, Refused>
    requires { FitsAt code.now s }
    ensures { (know : Test) → Tells know s → Steps (asserting know p (Some code.now) s) s result }
{
    match code {
        Instr::AssertShape(pred, o, os, q) => {
            assert_shape(alloc, s, p, *pred, *o, os.as_slice(), *q)
        }
        _ => Err(Refused::Premise(1, s)),
    }
}

/// S17 at an instruction.
fn end_at(code: &Instr, s: State) -> Result<Stepped, Refused>
    ensures { (know : Test) → Tells know s → Steps (ending know (Some code.now) s) s result }
{
    match code {
        Instr::End => end(s),
        _ => Err(Refused::Premise(1, s)),
    }
}

/// S18 at an instruction.
fn assert_empty_at(code: &Instr, s: State) -> Result<Stepped, Refused>
    ensures { (know : Test) → Tells know s → Steps (emptying know (Some code.now) s) s result }
{
    match code {
        Instr::AssertEmpty(q) => assert_empty(s, *q),
        _ => Err(Refused::Premise(1, s)),
    }
}

/// What a rule gives at an instruction.
fn step_at(
    alloc: Global,
    flow: &Flow,
    rule: InstrRule,
    p: PointId,
    code: &Instr,
    s: State,
) -> Result<Stepped, Refused>
    requires { FitsAt code.now s }
    ensures { (know : Test) (range : Ranges) → Tells know s → FitRanges range code.now s
        → Steps (stepping_code know range flow.now rule p (Some code.now) s) s result }
{
    match rule {
        InstrRule::S1 => skip_at(code, s),
        InstrRule::S2 => copy_at(code, s),
        InstrRule::S3 => forget_at(code, s),
        InstrRule::S4 => take_at(code, s),
        InstrRule::S5 => add_at(code, s),
        InstrRule::S6 => sub_at(code, s),
        InstrRule::S7 => mul_at(code, s),
        InstrRule::S8 => load_at(code, s),
        InstrRule::S9 => store_at(code, s),
        InstrRule::S10 => malloc_at(alloc, flow, code, s),
        InstrRule::S11 => free_null_at(code, s),
        InstrRule::S12 => free_at(alloc, code, s),
        InstrRule::S13 => test_equal_at(alloc, code, s),
        InstrRule::S14 => test_at_most_at(alloc, code, s),
        InstrRule::S15 => assume_at(alloc, code, s),
        InstrRule::S16 => assert_at(alloc, p, code, s),
        InstrRule::S17 => end_at(code, s),
        InstrRule::S18 => assert_empty_at(code, s),
    }
}

/// The instruction at a point.
pub fn code_at(flow: &Flow, p: PointId) -> Option<&Instr>
    ensures { option_copied result ≡ code_at flow.now p }
{
    match flow.points.as_slice().get(p.0 as usize) {
        Some(point) => Some(&point.code),
        None => None,
    }
}

/// What a rule gives at a point: its successors in order, or its first premise that the state does not meet, with the
/// state as it was.
pub fn step(
    alloc: Global,
    flow: &Flow,
    defs: &Defs,
    rule: InstrRule,
    p: PointId,
    s: State,
) -> Result<Stepped, Refused>
    requires valid { IsValid flow.now defs.now }
    requires made { IsWellMade defs.now flow.now.vars flow.now.structs.list s }
    ensures { (know : Test) (range : Ranges) → Tells know s → HaveRanges range flow.now p s
        → Steps (stepping know range flow.now rule p s) s result }
{
    // For the proof alone: the instruction is one of a program for which the state is well made.
    instructions_fit();
    let _defs = defs;
    match code_at(flow, p) {
        Some(code) => step_at(alloc, flow, rule, p, code, s),
        None => Err(Refused::Premise(1, s)),
    }
}
