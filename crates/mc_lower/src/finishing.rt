// Labels become points, and the lists of a flow graph are made.
ghost use Rattle.std.specs.Prelude.{ℕ, ◌≡◌, ◌↔◌, ◌++◌, ◌∷◌, [], IfOk, OnOk, IsTrue, map};
ghost use Rattle.mc_flow.specs.declared.graph.Point.{Point};
ghost use Rattle.mc_lower_spec.specs.Lowering.{AreThresholds, operands};
ghost use Rattle.mc_lower.specs.Finished.{AreConstants, AreThose, IsFinished, constants, point_at};
ghost use Rattle.mc_lower.specs.Worlds.{point_in, role_of, settled, target as point_of_target};

use crate::builder::{BuildFault, Builder, Draft, Label, Role};
use crate::lowering::Lowered;
use crate::settling::settle_labels;
use crate::variables::Variable;
use mc_base::{Items, PointId, VarInfo};
use mc_flow::defs::{FieldInfo, StructInfo, Structs};
use mc_flow::{Flow, Instr, Operand, Point};
use std::alloc::Global;

// The point of a label; of one that nothing goes on to, any.
fn point_of(table: &[usize], label: Label) -> usize
    ensures { result ≡ point_at table.now label.0 }
{
    match table.get(label.0 as usize) {
        Some(point) => *point,
        None => 0,
    }
}

// The point that a target stands for.
fn settled(table: &[usize], target: PointId) -> PointId
    ensures { result ≡ point_of_target (point_at table.now) target }
{
    PointId(point_of(table, Label(target.0)) as u64)
}

// An instruction with points in place of labels.
fn with_points(table: &[usize], code: Instr) -> Instr
    ensures { result ≡ settled (point_at table.now) code }
{
    match code {
        Instr::Skip(q) => Instr::Skip(settled(table, q)),
        Instr::Copy(x, o, q) => Instr::Copy(x, o, settled(table, q)),
        Instr::Undef(xs, q) => Instr::Undef(xs, settled(table, q)),
        Instr::Input(x, q) => Instr::Input(x, settled(table, q)),
        Instr::Add(x, a, b, q) => Instr::Add(x, a, b, settled(table, q)),
        Instr::Sub(x, a, b, q) => Instr::Sub(x, a, b, settled(table, q)),
        Instr::Mul(x, a, b, q) => Instr::Mul(x, a, b, settled(table, q)),
        Instr::Load(x, y, s, f, q) => Instr::Load(x, y, s, f, settled(table, q)),
        Instr::Store(y, s, f, o, q) => Instr::Store(y, s, f, o, settled(table, q)),
        Instr::Malloc(x, s, q) => Instr::Malloc(x, s, settled(table, q)),
        Instr::Free(o, q) => Instr::Free(o, settled(table, q)),
        Instr::TestEq(a, b, t, f) => Instr::TestEq(a, b, settled(table, t), settled(table, f)),
        Instr::TestLe(a, b, t, f) => Instr::TestLe(a, b, settled(table, t), settled(table, f)),
        Instr::AssumeShape(p, x, os, q) => Instr::AssumeShape(p, x, os, settled(table, q)),
        Instr::AssertShape(p, o, os, q) => Instr::AssertShape(p, o, os, settled(table, q)),
        Instr::AssertEmpty(q) => Instr::AssertEmpty(settled(table, q)),
        Instr::End => Instr::End,
        Instr::Fail => Instr::Fail,
    }
}

// Whether a point is of a role.
#[tactic(auto, using(crate::proofs::Choosing::same_role))]
fn has_role(point: &Draft, role: Role) -> bool
    ensures { IsTrue result ↔ (role_of point.now.role ≡ role_of role) }
{
    point.role == role
}

// The points of a role, ascending.
fn of_role(alloc: Global, points: &[Draft], role: Role) -> Result<Items<PointId>, BuildFault>
    ensures { IfOk result (λ ps. AreThose points.now (role_of role) ps) }
{
    let mut list = Vec::new(alloc);
    for number in 0..points.len() {
        if has_role(&points[number], role) {
            list.push(PointId(number as u64))?;
        }
    }
    Ok(Items::of(list))
}

// An operand's constant joins a list.
fn add_constant(list: &mut Vec<i64>, operand: Operand) -> Result<(), BuildFault>
    ensures { OnOk result (list.new.items ≡ list.old.items ++ constants (operand ∷ [])) }
{
    match operand {
        Operand::Var(_) => Ok(()),
        Operand::Const(value) => {
            list.push(value)?;
            Ok(())
        }
    }
}

// The constants of two operands join a list.
fn add_both(list: &mut Vec<i64>, first: Operand, second: Operand) -> Result<(), BuildFault>
    ensures { OnOk result (list.new.items ≡ list.old.items ++ constants (first ∷ second ∷ [])) }
{
    add_constant(list, first)?;
    add_constant(list, second)
}

// The constants of operands join a list.
fn add_all(list: &mut Vec<i64>, operands: &[Operand]) -> Result<(), BuildFault>
    ensures { OnOk result (list.new.items ≡ list.old.items ++ constants operands.now) }
{
    for operand in operands {
        add_constant(list, *operand)?;
    }
    Ok(())
}

// The constants of an instruction's operands join a list.
fn add_constants(list: &mut Vec<i64>, code: &Instr) -> Result<(), BuildFault>
    ensures { OnOk result (list.new.items ≡ list.old.items ++ constants (operands code.now)) }
{
    match code {
        Instr::Copy(_, o, _) | Instr::Store(_, _, _, o, _) | Instr::Free(o, _) => {
            add_constant(list, *o)
        }
        Instr::Add(_, a, b, _)
        | Instr::Sub(_, a, b, _)
        | Instr::Mul(_, a, b, _)
        | Instr::TestEq(a, b, _, _)
        | Instr::TestLe(a, b, _, _) => add_both(list, *a, *b),
        Instr::AssumeShape(_, _, os, _) => add_all(list, os.as_slice()),
        Instr::AssertShape(_, o, os, _) => {
            add_constant(list, *o)?;
            add_all(list, os.as_slice())
        }
        Instr::Skip(_)
        | Instr::Undef(_, _)
        | Instr::Input(_, _)
        | Instr::Load(_, _, _, _, _)
        | Instr::Malloc(_, _, _)
        | Instr::AssertEmpty(_)
        | Instr::End
        | Instr::Fail => Ok(()),
    }
}

// The constants of a point's operands join a list.
fn add_point(list: &mut Vec<i64>, point: &Draft) -> Result<(), BuildFault>
    ensures { OnOk result (list.new.items ≡ list.old.items ++ constants (operands point.now.code)) }
{
    add_constants(list, &point.code)
}

// The constants of all operands.
fn constants_of(alloc: Global, points: &[Draft]) -> Result<Vec<i64>, BuildFault>
    ensures { IfOk result (λ cs. AreConstants points.now cs.items) }
{
    let mut list = Vec::new(alloc);
    for at in 0..points.len() {
        add_point(&mut list, &points[at])?;
    }
    Ok(list)
}

// The constants of all operands, ascending, each once.
fn thresholds(alloc: Global, points: &[Draft]) -> Result<Items<i64>, BuildFault>
    ensures { IfOk result (λ cs. (at : ℕ → ℕ) → AreThresholds (map (point_in at) points.now) cs) }
{
    let mut list = constants_of(alloc, points)?;
    list.sort()?;
    list.dedup();
    Ok(Items::of(list))
}

// The points of a flow graph.
fn settle(alloc: Global, table: &[usize], drafts: Vec<Draft>) -> Result<Items<Point>, BuildFault>
    ensures { IfOk result (λ points. points ≡ map (point_in (point_at table.now)) drafts.items) }
{
    let mut points = Vec::new(alloc);
    for draft in drafts {
        let code = with_points(table, draft.code);
        points.push(Point {
            code,
            place: draft.place,
        })?;
    }
    Ok(Items::of(points))
}

// The variables of a flow graph.
fn infos(alloc: Global, variables: Vec<Variable>) -> Result<Items<VarInfo>, BuildFault>
    ensures { IfOk result (λ infos. infos ≡ map (λ v. v.info) variables.items) }
{
    let mut infos = Vec::new(alloc);
    for variable in variables {
        infos.push(variable.info)?;
    }
    Ok(Items::of(infos))
}

// A field again.
fn field_again(alloc: Global, field: &FieldInfo) -> Result<FieldInfo, BuildFault>
    ensures { IfOk result (λ again. again ≡ field.now) }
{
    Ok(FieldInfo {
        name: field.name.copy(alloc)?,
        kind: field.kind,
    })
}

// A struct again.
fn struct_again(alloc: Global, info: &StructInfo) -> Result<StructInfo, BuildFault>
    ensures { IfOk result (λ again. again ≡ info.now) }
{
    let mut fields = Vec::new(alloc);
    for field in info.fields.as_slice() {
        fields.push(field_again(alloc, field)?)?;
    }
    Ok(StructInfo {
        name: info.name.copy(alloc)?,
        fields: Items::of(fields),
    })
}

// The same structs again.
fn structs_again(alloc: Global, structs: &Structs) -> Result<Structs, BuildFault>
    ensures { IfOk result (λ again. again ≡ structs.now) }
{
    let mut list = Vec::new(alloc);
    for info in structs.list.as_slice() {
        list.push(struct_again(alloc, info)?)?;
    }
    Ok(Structs {
        list: Items::of(list),
    })
}

/// The flow graph with these points and variables.
pub fn finish(builder: Builder) -> Result<Lowered, BuildFault>
    ensures { IfOk result (λ x. IsFinished builder.entry x) }
{
    let alloc = builder.alloc;
    let table = settle_labels(alloc, &builder.lines)?;
    let structs = structs_again(alloc, builder.structs)?;
    let heads = of_role(alloc, builder.lines.points.as_slice(), Role::Head)?;
    let merges = of_role(alloc, builder.lines.points.as_slice(), Role::Merge)?;
    let stops = of_role(alloc, builder.lines.points.as_slice(), Role::Stop)?;
    let thresholds = thresholds(alloc, builder.lines.points.as_slice())?;
    let lines = builder.lines;
    let variables = builder.variables;
    let points = settle(alloc, table.as_slice(), lines.points)?;
    let vars = infos(alloc, variables.list)?;
    Ok(Lowered {
        flow: Flow {
            points,
            vars,
            heads,
            merges,
            thresholds,
            structs,
        },
        stops,
    })
}
