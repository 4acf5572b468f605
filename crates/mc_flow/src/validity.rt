// Whether a flow graph with its definitions is valid.
ghost use Rattle.std.specs.Prelude.{◌≡◌, ◌<◌, ◌↔◌, IsTrue, Some, length, option_map, option_to_list, slice_get, All, Contains};
ghost use Rattle.mc_base.specs.declared.plain.Kind.{Kind as AnyKind};
ghost use Rattle.mc_base.specs.Kinds.{InKind};
ghost use Rattle.mc_flow.specs.Valid.{IsVar, IsOperand, IsStruct, field_kind, IsField, ArgsFit, FitsPredicate, FitsKinds, targets, IsSkip, GoesOn, PointFits, PointsFit, IsValid};

use crate::defs::Def;
use crate::{Defs, Flow, Instr, Operand, Point, Structs};
use mc_base::{Kind, PointId, PredId, StructId, VarId, VarInfo};

fn is_int(n: i64) -> bool
    ensures { IsTrue result ↔ InKind Kind.Int n }
{
    n >= -2147483648 && n <= 2147483647
}

fn kind_of(vars: &[VarInfo], x: VarId) -> Option<Kind>
    ensures { result ≡ option_map (λ v. v.kind) (slice_get vars.now x.0) }
{
    vars.get(x.0 as usize).map(|var| var.kind)
}

fn is_var(vars: &[VarInfo], kind: Kind, x: VarId) -> bool
    ensures { IsTrue result ↔ IsVar vars.now kind x }
{
    kind_of(vars, x) == Some(kind)
}

fn is_operand(vars: &[VarInfo], kind: Kind, operand: Operand) -> bool
    ensures { IsTrue result ↔ IsOperand vars.now kind operand }
{
    match operand {
        Operand::Var(x) => is_var(vars, kind, x),
        Operand::Const(c) => match kind {
            Kind::Int => is_int(c),
            Kind::Ptr => c == 0,
        },
    }
}

fn is_struct(structs: &Structs, shape: StructId) -> bool
    ensures { IsTrue result ↔ IsStruct structs.now shape }
{
    (shape.0 as usize) < structs.list.len()
}

fn field_kind(structs: &Structs, shape: StructId, field: u64) -> Option<Kind>
    ensures { result ≡ field_kind structs.now shape field }
{
    let info = structs.list.get(shape.0 as usize)?;
    info.fields.get(field as usize).map(|field| field.kind)
}

// One operand for each parameter, of its kind.
fn args_fit(vars: &[VarInfo], args: &[Operand], params: &[Kind]) -> bool
    ensures { IsTrue result ↔ ArgsFit vars.now args.now params.now }
{
    if args.len() != params.len() {
        return false;
    }
    for (i, arg) in args.iter().enumerate() {
        if !is_operand(vars, params[i], *arg) {
            return false;
        }
    }
    true
}

fn fits_predicate(vars: &[VarInfo], defs: &[Def], pred: PredId, args: &[Operand]) -> bool
    ensures { IsTrue result ↔ FitsPredicate vars.now defs.now pred args.now }
{
    match defs.get(pred.0 as usize) {
        None => false,
        Some(def) => args_fit(vars, args, def.params.as_slice()),
    }
}

// A variable and an operand of one kind.
fn fits_copy(vars: &[VarInfo], x: VarId, from: Operand) -> bool
    ensures { IsTrue result ↔ ((kind : AnyKind) × IsVar vars.now kind x × IsOperand vars.now kind from) }
{
    match kind_of(vars, x) {
        None => false,
        Some(kind) => is_operand(vars, kind, from),
    }
}

// Operands of one kind.
fn have_one_kind(vars: &[VarInfo], left: Operand, right: Operand) -> bool
    ensures { IsTrue result ↔ ((kind : AnyKind) × IsOperand vars.now kind left × IsOperand vars.now kind right) }
{
    (is_operand(vars, Kind::Int, left) && is_operand(vars, Kind::Int, right))
        || (is_operand(vars, Kind::Ptr, left) && is_operand(vars, Kind::Ptr, right))
}

fn fits_load(
    vars: &[VarInfo],
    structs: &Structs,
    x: VarId,
    y: VarId,
    shape: StructId,
    field: u64,
) -> bool
    ensures { IsTrue result ↔ ((kind : AnyKind) × IsVar vars.now kind x × IsVar vars.now Kind.Ptr y
        × IsField structs.now shape field kind) }
{
    match field_kind(structs, shape, field) {
        None => false,
        Some(kind) => is_var(vars, kind, x) && is_var(vars, Kind::Ptr, y),
    }
}

fn fits_store(
    vars: &[VarInfo],
    structs: &Structs,
    y: VarId,
    shape: StructId,
    field: u64,
    from: Operand,
) -> bool
    ensures { IsTrue result ↔ ((kind : AnyKind) × IsVar vars.now Kind.Ptr y × IsField structs.now shape field kind
        × IsOperand vars.now kind from) }
{
    match field_kind(structs, shape, field) {
        None => false,
        Some(kind) => is_var(vars, Kind::Ptr, y) && is_operand(vars, kind, from),
    }
}

fn are_there(vars: &[VarInfo], xs: &[VarId]) -> bool
    ensures { IsTrue result ↔ All (λ x. x.0 < length vars.now) xs.now }
{
    xs.iter().all(|x| (x.0 as usize) < vars.len())
}

fn fits_kinds(vars: &[VarInfo], structs: &Structs, defs: &[Def], code: &Instr) -> bool
    ensures { IsTrue result ↔ FitsKinds vars.now structs.now defs.now code.now }
{
    match code {
        Instr::Skip(_) | Instr::AssertEmpty(_) | Instr::End | Instr::Fail => true,
        Instr::Copy(x, from, _) => fits_copy(vars, *x, *from),
        Instr::Undef(xs, _) => are_there(vars, xs.as_slice()),
        Instr::Input(x, _) => is_var(vars, Kind::Int, *x),
        Instr::Add(x, left, right, _)
        | Instr::Sub(x, left, right, _)
        | Instr::Mul(x, left, right, _) => {
            is_var(vars, Kind::Int, *x)
                && is_operand(vars, Kind::Int, *left)
                && is_operand(vars, Kind::Int, *right)
        }
        Instr::Load(x, y, shape, field, _) => fits_load(vars, structs, *x, *y, *shape, *field),
        Instr::Store(y, shape, field, from, _) => {
            fits_store(vars, structs, *y, *shape, *field, *from)
        }
        Instr::Malloc(x, shape, _) => is_var(vars, Kind::Ptr, *x) && is_struct(structs, *shape),
        Instr::Free(from, _) => is_operand(vars, Kind::Ptr, *from),
        Instr::TestEq(left, right, _, _) => have_one_kind(vars, *left, *right),
        Instr::TestLe(left, right, _, _) => {
            is_operand(vars, Kind::Int, *left) && is_operand(vars, Kind::Int, *right)
        }
        Instr::AssumeShape(pred, x, args, _) => {
            is_var(vars, Kind::Ptr, *x) && fits_predicate(vars, defs, *pred, args.as_slice())
        }
        Instr::AssertShape(pred, from, args, _) => {
            is_operand(vars, Kind::Ptr, *from) && fits_predicate(vars, defs, *pred, args.as_slice())
        }
    }
}

fn is_head(heads: &[PointId], q: PointId) -> bool
    ensures { IsTrue result ↔ Contains heads.now q }
{
    heads.contains(&q)
}

fn goes_on(flow: &Flow, at: u64, q: PointId) -> bool
    ensures { IsTrue result ↔ GoesOn flow.now at q }
{
    (q.0 as usize) < flow.points.len() && (at < q.0 || is_head(flow.heads.as_slice(), q))
}

fn may_follow(flow: &Flow, at: u64, next: Option<PointId>) -> bool
    ensures { IsTrue result ↔ All (GoesOn flow.now at) (option_to_list next) }
{
    match next {
        None => true,
        Some(q) => goes_on(flow, at, q),
    }
}

fn follows(flow: &Flow, at: u64, code: &Instr) -> bool
    ensures { IsTrue result ↔ All (GoesOn flow.now at) (targets code.now) }
{
    let (next, otherwise) = code.targets();
    may_follow(flow, at, next) && may_follow(flow, at, otherwise)
}

fn point_fits(flow: &Flow, defs: &[Def], at: u64, point: &Point) -> bool
    ensures { IsTrue result ↔ PointFits flow.now defs.now at point.now }
{
    follows(flow, at, &point.code)
        && fits_kinds(flow.vars.as_slice(), &flow.structs, defs, &point.code)
}

fn points_fit(flow: &Flow, defs: &[Def]) -> bool
    ensures { IsTrue result ↔ PointsFit flow.now defs.now }
{
    for (at, point) in flow.points.as_slice().iter().enumerate() {
        if !point_fits(flow, defs, at as u64, point) {
            return false;
        }
    }
    true
}

fn is_skip(points: &[Point], p: PointId) -> bool
    ensures { IsTrue result ↔ IsSkip points.now p }
{
    match points.get(p.0 as usize) {
        None => false,
        Some(point) => matches!(&point.code, Instr::Skip(_)),
    }
}

fn are_skips(points: &[Point], listed: &[PointId]) -> bool
    ensures { IsTrue result ↔ All (IsSkip points.now) listed.now }
{
    listed.iter().all(|p| is_skip(points, *p))
}

fn are_ints(numbers: &[i64]) -> bool
    ensures { IsTrue result ↔ All (InKind Kind.Int) numbers.now }
{
    numbers.iter().all(|n| is_int(*n))
}

// Heads and merges are Skips, and thresholds are numbers of an `int`.
fn lists_fit(flow: &Flow) -> bool
    ensures { IsTrue result ↔ (All (IsSkip flow.now.points) flow.now.heads
        × All (IsSkip flow.now.points) flow.now.merges × All (InKind Kind.Int) flow.now.thresholds) }
{
    let points = flow.points.as_slice();
    are_skips(points, flow.heads.as_slice())
        && are_skips(points, flow.merges.as_slice())
        && are_ints(flow.thresholds.as_slice())
}

/// Whether a flow graph with its definitions is valid: there is a point; what an instruction names is
/// there and of its kind; heads and merges are Skips; only heads are gone back to; constants and
/// thresholds are numbers of an `int`; and the definitions fit the structs.
pub fn valid(flow: &Flow, defs: &Defs) -> bool
    ensures { IsTrue result ↔ IsValid flow.now defs.now }
{
    if flow.points.is_empty() || !defs.fit(&flow.structs) {
        return false;
    }
    points_fit(flow, defs.as_slice()) && lists_fit(flow)
}
