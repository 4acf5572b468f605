// The lines of a report.
ghost use Rattle.std.specs.Prelude.{◌≡◌, ◌++◌, None, IfOk, IfSome, OnOk, codes, option_map};
ghost use Rattle.mc_flow.specs.Valid.{IsValid};
ghost use Rattle.mc_exact.specs.Scripts.{malloc_line};
ghost use Rattle.mc_follow.specs.Report.Report.{IsAlarmLine, IsHeadLine, alarm_line, count_line, head_line, real_line, script_text};
ghost use Rattle.mc_state.specs.RawStates.{IsWellFormedRaw};
ghost use Rattle.mc_state_io.specs.Text.Text.{IsTextOf, Text};
ghost use Rattle.mc_rules_steps.specs.declared.gap.Gap.{Gap as Lacked};
ghost use Rattle.mc_rules_steps.specs.Unmet.{IsUnmet};

use crate::report::gaps::{push_gap, push_point};
use mc_base::text::print_number;
use mc_base::{NoMemory, PointId};
use mc_flow::Flow;
use mc_flow::defs::Defs;
use mc_gaps::lacking::lacking_at;
use mc_rules_steps::Gap;
use mc_state::RawState;
use mc_state_io::text::print;
use mc_symbolic::State;
use std::alloc::Global;

/// Adds the line of a branch at a point that lacks this, where this is the text of its state.
fn push_alarm_line(
    alloc: Global,
    out: &mut Vec<u8>,
    flow: &Flow,
    defs: &Defs,
    point: PointId,
    gap: Gap,
    state: &[u8],
) -> Result<(), NoMemory>
    ensures { OnOk result (out.new.items ≡ out.old.items ++ alarm_line flow.now defs.now point gap state.now) }
{
    out.extend_from_slice(b"alarm at ")?;
    push_point(alloc, out, flow, point)?;
    out.push(b' ')?;
    push_gap(alloc, out, flow, defs, point, gap)?;
    out.extend_from_slice(b": ")?;
    out.extend_from_slice(state)?;
    out.push(b'\n')?;
    Ok(())
}

/// Adds the line of a branch that is stuck at a point with a state; what it lacks. With None the instruction lacks nothing there,
/// and nothing is added.
pub fn push_alarm(
    alloc: Global,
    out: &mut Vec<u8>,
    flow: &Flow,
    defs: &Defs,
    point: PointId,
    state: &State,
) -> Result<Option<Gap>, NoMemory>
    requires { IsValid flow.now defs.now }
    ensures stuck { IfOk result (λ found. IfSome found (λ gap. IsUnmet flow.now defs.now point state.now gap
        × ((line : Text) × IsAlarmLine flow.now defs.now point state.now line × (out.new.items ≡ out.old.items ++ line)))) }
    ensures met { IfOk result (λ found. found ≡ None
        → (out.new.items ≡ out.old.items) × ((gap : Lacked) → IsUnmet flow.now defs.now point state.now gap → ⊥)) }
{
    let Some(gap) = lacking_at(alloc, flow, defs, point, state)? else {
        return Ok(None);
    };
    let text = print(
        alloc,
        state,
        flow.vars.as_slice(),
        defs.as_slice(),
        flow.structs.list.as_slice(),
    )?;
    push_alarm_line(alloc, out, flow, defs, point, gap, text.as_slice())?;
    Ok(Some(gap))
}

/// Adds the line of a script for an answer of malloc, after a blank.
fn push_malloc(alloc: Global, out: &mut Vec<u8>, answer: u64) -> Result<(), NoMemory>
    ensures { OnOk result (out.new.items ≡ out.old.items ++ (codes " " ++ malloc_line answer)) }
{
    out.extend_from_slice(b" [\"malloc\",")?;
    print_number(alloc, out, answer)?;
    out.push(b']')?;
    Ok(())
}

/// Adds the lines of a script in which malloc gives these answers.
fn push_script(alloc: Global, out: &mut Vec<u8>, answers: &[u64]) -> Result<(), NoMemory>
    ensures { OnOk result (out.new.items ≡ out.old.items ++ script_text answers.now) }
{
    if answers.is_empty() {
        return out.extend_from_slice(b" -");
    }
    for answer in answers {
        push_malloc(alloc, out, *answer)?;
    }
    Ok(())
}

/// Adds the line of a mark: the script on which the program faults there.
pub fn push_real(alloc: Global, out: &mut Vec<u8>, mark: &Option<Vec<u64>>) -> Result<(), NoMemory>
    ensures { OnOk result (out.new.items ≡ out.old.items ++ real_line (option_map (λ answers. answers.items) mark.now)) }
{
    let Some(answers) = mark else {
        return Ok(());
    };
    out.extend_from_slice(b"real:")?;
    push_script(alloc, out, answers.as_slice())?;
    out.push(b'\n')?;
    Ok(())
}

/// Adds how many branches are stuck.
pub fn push_count(alloc: Global, out: &mut Vec<u8>, count: u64) -> Result<(), NoMemory>
    ensures { OnOk result (out.new.items ≡ out.old.items ++ count_line count) }
{
    out.extend_from_slice(b"alarms: ")?;
    print_number(alloc, out, count)?;
    out.push(b'\n')?;
    Ok(())
}

/// Adds the line of a state of a cut, where this is its text.
fn push_head_line(
    alloc: Global,
    out: &mut Vec<u8>,
    flow: &Flow,
    point: PointId,
    number: u64,
    state: &[u8],
) -> Result<(), NoMemory>
    ensures { OnOk result (out.new.items ≡ out.old.items ++ head_line flow.now point number state.now) }
{
    out.extend_from_slice(b"at ")?;
    push_point(alloc, out, flow, point)?;
    out.extend_from_slice(b" #")?;
    print_number(alloc, out, number)?;
    out.extend_from_slice(b": ")?;
    out.extend_from_slice(state)?;
    out.push(b'\n')?;
    Ok(())
}

/// Adds the line of a head that is well formed, with its number at its cut.
pub fn push_head(
    alloc: Global,
    out: &mut Vec<u8>,
    flow: &Flow,
    defs: &Defs,
    number: u64,
    point: PointId,
    raw: &RawState,
) -> Result<(), NoMemory>
    requires { IsWellFormedRaw defs.now flow.now.vars flow.now.structs.list raw.now }
    ensures { OnOk result ((line : Text) × IsHeadLine flow.now defs.now number (point, raw.now) line
        × (out.new.items ≡ out.old.items ++ line)) }
{
    let found = mc_state_io::raw::state_of(
        alloc,
        defs.as_slice(),
        flow.vars.as_slice(),
        flow.structs.list.as_slice(),
        raw,
    )?;
    let Some(state) = found else {
        return Ok(());
    };
    let text = print(
        alloc,
        &state,
        flow.vars.as_slice(),
        defs.as_slice(),
        flow.structs.list.as_slice(),
    )?;
    push_head_line(alloc, out, flow, point, number, text.as_slice())
}
