// Where cuts and heads may stand.
ghost use Rattle.std.specs.Prelude.{◌≡◌, ◌+◌, map};
ghost use Rattle.mc_check_line.specs.Judging.{head_of};
ghost use Rattle.mc_kernel.specs.Judges.{is_chain, is_cut};
ghost use Rattle.mc_kernel.specs.Readings.{comes_after, has_all_heads, is_skip};
ghost use Rattle.mc_document.specs.Proof.Lines.{marks, stands_behind};
ghost use Rattle.mc_rules_steps.specs.Operands.{code_at};

use mc_base::PointId;
use mc_check_line::Head;
use mc_flow::{Flow, Instr};
use mc_lines::cert::Line;
use mc_state::Form;

/// Whether the document is a chain.
pub fn is_chain(form: Form) -> bool
    ensures { result ≡ is_chain form }
{
    match form {
        Form::Certificate => false,
        Form::Chain => true,
    }
}

/// Whether the instruction at a point is a Skip.
pub fn is_skip(flow: &Flow, point: PointId) -> bool
    ensures { result ≡ is_skip (code_at flow.now point) }
{
    match flow.points.as_slice().get(point.0 as usize) {
        Some(there) => match &there.code {
            Instr::Skip(_) => true,
            _ => false,
        },
        None => false,
    }
}

/// Whether the point is a cut.
pub fn is_cut(cuts: &[PointId], point: PointId) -> bool
    ensures { result ≡ is_cut cuts.now point }
{
    cuts.iter().any(|cut| cut.0 == point.0)
}

/// Whether every loop head is a cut.
pub fn has_all_heads(flow: &Flow, cuts: &[PointId]) -> bool
    ensures { result ≡ has_all_heads flow.now cuts.now }
{
    flow.heads.as_slice().iter().all(|head| is_cut(cuts, *head))
}

/// Whether the point is after the last cut.
pub fn comes_after(cuts: &[PointId], point: PointId) -> bool
    ensures { result ≡ comes_after cuts.now point }
{
    match cuts.last() {
        Some(last) => last.0 < point.0,
        None => true,
    }
}

/// Whether the point is not before that of the last head.
pub fn stands_behind(heads: &[Head], point: PointId) -> bool
    ensures { result ≡ stands_behind (map head_of heads.now) point }
{
    match heads.last() {
        Some(last) => last.point.0 <= point.0,
        None => true,
    }
}

/// How many branches are stuck by a line.
pub fn marks(line: &Line) -> u64
    ensures { result ≡ marks line.now }
{
    match line {
        Line::C1 => 1,
        _ => 0,
    }
}
