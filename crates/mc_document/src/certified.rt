//! Whether lines are a valid certificate whose lines stand where they may, as the kernel's own proof reads them.

ghost use Rattle.std.specs.Prelude.{◌≡◌, ◌↔◌, ◌∷◌, true, IfOk};
ghost use Rattle.mc_lines.specs.declared.cert.line.Line.TheVariants.{Header};
ghost use Rattle.mc_flow.specs.Valid.{IsValid};
ghost use Rattle.mc_document.specs.Places.{IsCertificateInPlace, may_stand, may_stand_aside};
ghost use Rattle.mc_kernel.specs.Readings.{finished};
ghost use Rattle.mc_state.specs.declared.line.Form.TheVariants.{Certificate};
ghost use Rattle.mc_state.specs.declared.line.Version.TheVariants.{One};

use crate::proof::{ApplyFault, Proof};
use mc_base::NoMemory;
use mc_flow::{Defs, Flow};
use mc_lines::cert::{Form, Line, Version};
use std::alloc::{AllocError, Global};

/// Whether the line is the header of a document of this form.
pub fn is_header(line: &Line, form: Form) -> bool
    ensures { (result ≡ true) ↔ (line.now ≡ Header One form) }
{
    match line {
        Line::Header(version, written) => match version {
            Version::One => match written {
                Form::Certificate => match form {
                    Form::Certificate => true,
                    Form::Chain => false,
                },
                Form::Chain => match form {
                    Form::Certificate => false,
                    Form::Chain => true,
                },
            },
        },
        _ => false,
    }
}

/// Whether a document has ended.
fn has_ended(proof: Proof<'_>) -> bool
    ensures { (result ≡ true) ↔ (proof.entry.stage ≡ finished) }
{
    match proof.finish() {
        Ok(_) => true,
        Err(_) => false,
    }
}

/// Whether a line may stand on a side branch: it folds, names, merges, drops or forgets, or it ends the branch.
fn may_stand_aside(line: &Line) -> bool
    ensures { result ≡ may_stand_aside line.now }
{
    match line {
        Line::L3(_) | Line::L4(_) | Line::L5(_, _) | Line::L6(_, _) => true,
        Line::L7(_, _, _, _, _) | Line::L8(_, _, _) | Line::L9(_, _) => true,
        Line::L10(_) | Line::L11(_) | Line::L12 | Line::L14(_) => true,
        _ => false,
    }
}

/// Whether a line may stand at the first open branch.
pub fn may_stand(proof: &Proof<'_>, line: &Line) -> bool
    ensures { result ≡ may_stand line.now proof.now.branches }
{
    match proof.current() {
        Some(branch) => branch.goal.is_none() || may_stand_aside(line),
        None => true,
    }
}

/// Whether these lines, after the header, make a valid certificate in which each line may stand where it is read.
fn ends(alloc: Global, flow: &Flow, defs: &Defs, lines: &[Line]) -> Result<bool, NoMemory>
    requires { IsValid flow.now defs.now }
    ensures { IfOk result (λ is. (is ≡ true) ↔ IsCertificateInPlace flow.now defs.now (Header One Certificate ∷ lines.now)) }
{
    // For the proof alone: there is a right judge, by whom what is refused is never read.
    mc_kernel::oracle::judges_are_there();
    mc_kernel::reading::lines_are_read();
    mc_kernel::reading::documents_go_on();
    mc_kernel::reading::documents_are_read();
    mc_kernel::reading::refusals_are_one();
    let mut proof = Proof::start(alloc, flow, defs, Form::Certificate);
    for line in lines {
        if !may_stand(&proof, line) {
            return Ok(false);
        }
        match proof.apply(line) {
            Ok(()) => {}
            Err(ApplyFault::Premise(_)) => return Ok(false),
            Err(ApplyFault::NoMemory) => return Err(AllocError),
        }
    }
    Ok(has_ended(proof))
}

/// Whether lines, from the header to the end line, are a valid certificate in which each line may stand where it is read: on
/// side branches only those that fold, name, merge, drop or forget, and those that end the branch.
pub fn is_certificate(
    alloc: Global,
    flow: &Flow,
    defs: &Defs,
    lines: &[Line],
) -> Result<bool, NoMemory>
    requires { IsValid flow.now defs.now }
    ensures { IfOk result (λ is. (is ≡ true) ↔ IsCertificateInPlace flow.now defs.now lines.now) }
{
    match lines {
        [] => Ok(false),
        [header, rest @ ..] => {
            if is_header(header, Form::Certificate) {
                ends(alloc, flow, defs, rest)
            } else {
                Ok(false)
            }
        }
    }
}
