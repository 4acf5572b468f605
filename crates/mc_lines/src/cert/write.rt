// Writes a line.
ghost use Rattle.std.specs.Prelude.{◌≡◌, ◌∷◌, [], IfOk, codes};
ghost use Rattle.serde_json.specs.View.{view};
ghost use Rattle.serde_json.specs.Written.{compact_text};
ghost use Rattle.mc_lines.specs.declared.cert.line.Line.TheVariants as Form;
ghost use Rattle.mc_lines.specs.Cert.Document.{LineFits, Spells, data_of};
ghost use Rattle.mc_lines.specs.Cert.Entries.{count_data, named_data, version_data};

use crate::cert::Line;
use crate::cert::entry::{begin, put};
use crate::cert::parts::{array_of_one, array_of_three, array_of_two};
use crate::cert::rules::rule_name;
use mc_base::{Args, NoMemory, NodeId, PredId};
use mc_state::{FoldInd, FoldSeg, Version};
use serde_json::Value;
use std::alloc::Global;

// The array of a name alone.
fn alone(alloc: Global, name: &str) -> Result<Value, NoMemory>
    ensures { IfOk result (λ v. view v ≡ named_data name.now []) }
{
    Ok(Value::Array(begin(alloc, name)?))
}

fn number_of(version: Version) -> u64
    ensures { count_data result ≡ version_data version }
{
    match version {
        Version::One => 1,
    }
}

fn fold_ind(alloc: Global, fold: &FoldInd) -> Result<Value, NoMemory>
    ensures { IfOk result (λ v. view v ≡ data_of (Form.L3 fold.now)) }
{
    let mut values = begin(alloc, "L3")?;
    put(alloc, &mut values, &fold.pred)?;
    put(alloc, &mut values, &fold.rule)?;
    put(alloc, &mut values, &fold.names)?;
    put(alloc, &mut values, &fold.block)?;
    put(alloc, &mut values, &fold.edges)?;
    Ok(Value::Array(values))
}

fn fold_segment(alloc: Global, fold: &FoldSeg) -> Result<Value, NoMemory>
    ensures { IfOk result (λ v. view v ≡ data_of (Form.L4 fold.now)) }
{
    let mut values = begin(alloc, "L4")?;
    put(alloc, &mut values, &fold.pred)?;
    put(alloc, &mut values, &fold.rule)?;
    put(alloc, &mut values, &fold.names)?;
    put(alloc, &mut values, &fold.block)?;
    put(alloc, &mut values, &fold.edges)?;
    put(alloc, &mut values, &fold.call)?;
    Ok(Value::Array(values))
}

fn empty_segment(
    alloc: Global,
    pred: &PredId,
    at: &NodeId,
    args: &Args<NodeId>,
    end: &NodeId,
    ends: &Args<NodeId>,
) -> Result<Value, NoMemory>
    ensures { IfOk result (λ v. view v ≡ data_of (Form.L7 pred.now at.now args.now «end».now ends.now)) }
{
    let mut values = begin(alloc, "L7")?;
    put(alloc, &mut values, pred)?;
    put(alloc, &mut values, at)?;
    put(alloc, &mut values, args)?;
    put(alloc, &mut values, end)?;
    put(alloc, &mut values, ends)?;
    Ok(Value::Array(values))
}

// The value that spells a line.
fn value_of(alloc: Global, line: &Line) -> Result<Value, NoMemory>
    ensures { IfOk result (λ v. (view v ≡ data_of line.now) × LineFits line.now) }
{
    match line {
        Line::Header(version, form) => array_of_two(alloc, "memcad", &number_of(*version), form),
        Line::Cut(point) => array_of_one(alloc, "cut", point),
        Line::Head(point, state) => array_of_two(alloc, "head", point, state),
        Line::Pass => alone(alloc, "pass"),
        Line::End => alone(alloc, "end"),
        Line::Step(rule) => alone(alloc, rule_name(*rule)),
        Line::L1(edge) => array_of_one(alloc, "L1", edge),
        Line::L2(edge) => array_of_one(alloc, "L2", edge),
        Line::L3(fold) => fold_ind(alloc, fold),
        Line::L4(fold) => fold_segment(alloc, fold),
        Line::L5(first, second) => array_of_two(alloc, "L5", first, second),
        Line::L6(first, second) => array_of_two(alloc, "L6", first, second),
        Line::L7(pred, at, args, end, ends) => empty_segment(alloc, pred, at, args, end, ends),
        Line::L8(node, add, kind) => array_of_three(alloc, "L8", node, add, kind),
        Line::L9(keep, gone) => array_of_two(alloc, "L9", keep, gone),
        Line::L10(edge) => array_of_one(alloc, "L10", edge),
        Line::L11(node) => array_of_one(alloc, "L11", node),
        Line::L12 => alone(alloc, "L12"),
        Line::L13(disjunct, images, edges) => array_of_three(alloc, "L13", disjunct, images, edges),
        Line::L14(edge) => array_of_one(alloc, "L14", edge),
        Line::L15(edge) => array_of_one(alloc, "L15", edge),
        Line::C1 => alone(alloc, "C1"),
        Line::C2(tries) => array_of_one(alloc, "C2", tries),
        Line::C3(disjunct, steps) => array_of_two(alloc, "C3", disjunct, steps),
    }
}

/// The bytes that spell a line, without blanks.
pub fn bytes_of(alloc: Global, line: &Line) -> Result<Vec<u8>, NoMemory>
    ensures compact { IfOk result (λ bytes. bytes.items ≡ compact_text (data_of line.now)) }
    ensures spells { IfOk result (λ bytes. Spells bytes.items line.now) }
{
    value_of(alloc, line)?.to_vec(alloc)
}
