// Documents in files, judged as they are read.
ghost use Rattle.std.specs.Prelude.{◌≡◌, ◌≤◌, ◌<◌, ◌-◌, ◌+◌, [], ℕ, List, length, take, drop, IfOk, OnOk};
ghost use Rattle.mc_flow.specs.Steps.{IsSafeFlow};
ghost use Rattle.mc_flow.specs.Valid.{IsValid};
ghost use Rattle.mc_judge.specs.Judge.Stages.{Hears, StaysFor};
ghost use Rattle.mc_outside.specs.Outside.{HasCause, Stays, WhereTold};
ghost use Rattle.mc_app.specs.Documents.{AlarmsAreFound, IsHeard, IsVerdictOn};

use mc_flow::{Defs, Flow};
use mc_joins::chains::{chain_judges_agree, final_chains_find_faults, lores_are_there};
use mc_judge::judge::{Judge, Verdict};
use mc_kernel::certificates_are_safe;
use mc_load::inputs::{PIECE, buffer};
use mc_outside::{FileFault, Files};
use std::alloc::{AllocError, Global};

// Reads the next piece of a document of this size, which the judge hears.
fn next_heard<F: Files>(
    files: &mut F,
    name: &str,
    at: u64,
    size: u64,
    buf: &mut [u8],
    judge: &mut Judge<'_>,
) -> Result<u64, FileFault>
    requires before { at < size }
    requires valid { IsValid judge.old.flow.now judge.old.defs.now }
    ensures heard { IfOk result (λ n. (piece : List ℕ) × (length piece ≡ n) × Hears piece judge.old judge.new
        × WhereTold (F.holds files.old name.now) (λ bytes. piece ≡ take n (drop at bytes))) }
    ensures within { WhereTold (F.holds files.old name.now) (λ bytes. IfOk result (λ n. n ≤ length bytes - at)) }
    ensures ended { WhereTold (F.holds files.old name.now) (λ bytes. IfOk result (λ n. n ≡ 0 → 0 < length buf.old → length bytes ≤ at)) }
    ensures bound { IfOk result (λ n. at + n ≤ size) }
    ensures room { length buf.new ≡ length buf.old }
    ensures same_judge { StaysFor judge.old judge.new }
    ensures same { Stays (F.holds files.old) (F.holds files.new) }
    ensures cause { HasCause (F.faults files.old) (F.faults files.new) result }
{
    let want = (size - at).min(buf.len() as u64) as usize;
    let n = files.read_at(name, at, &mut buf[..want])?;
    judge.feed(&buf[..n])?;
    Ok(n as u64)
}

// Reads a document of this size, which the judge hears.
fn hear<F: Files>(
    files: &mut F,
    name: &str,
    size: u64,
    buf: &mut [u8],
    judge: &mut Judge<'_>,
) -> Result<(), FileFault>
    requires room { 0 < length buf.old }
    requires valid { IsValid judge.old.flow.now judge.old.defs.now }
    requires fresh { IsHeard [] judge.old }
    ensures heard { OnOk result ((text : List ℕ) × IsHeard text judge.new
        × WhereTold (F.holds files.old name.now) (λ bytes. size ≡ length bytes → text ≡ bytes)) }
    ensures same_judge { StaysFor judge.old judge.new }
    ensures same { Stays (F.holds files.old) (F.holds files.new) }
    ensures cause { HasCause (F.faults files.old) (F.faults files.new) result }
{
    let mut at = 0u64;
    while at < size {
        let n = next_heard(files, name, at, size, buf, judge)?;
        if n == 0 {
            return Ok(());
        }
        at += n;
    }
    Ok(())
}

/// The verdict on the document that a file holds.
pub fn verdict_in<F: Files>(
    alloc: Global,
    files: &mut F,
    name: &str,
    flow: &Flow,
    defs: &Defs,
) -> Result<Verdict, FileFault>
    requires { IsValid flow.now defs.now }
    ensures verdict { WhereTold (F.holds files.old name.now) (λ document. IfOk result (IsVerdictOn flow.now defs.now document)) }
    ensures safe { IfOk result (λ v. v ≡ Verdict.Safe → IsSafeFlow flow.now defs.now) }
    ensures faults { WhereTold (F.holds files.old name.now) (λ document. IfOk result (AlarmsAreFound flow.now defs.now document)) }
    ensures same { Stays (F.holds files.old) (F.holds files.new) }
    ensures cause { HasCause (F.faults files.old) (F.faults files.new) result }
{
    // For the proof alone: there is a right judge, and what is a legal chain is one for all; valid certificates mean that nothing
    // fails, and final chains tell what may.
    certificates_are_safe();
    final_chains_find_faults();
    chain_judges_agree();
    lores_are_there();
    let size = files.size(name)?;
    let mut buf = buffer(alloc, PIECE)?;
    let mut judge = Judge::new(alloc, flow, defs);
    hear(files, name, size, &mut buf, &mut judge)?;
    let verdict = judge.finish()?;
    Ok(verdict)
}

/// The verdict on a document.
pub fn verdict_on(
    alloc: Global,
    document: &[u8],
    flow: &Flow,
    defs: &Defs,
) -> Result<Verdict, AllocError>
    requires { IsValid flow.now defs.now }
    ensures { IfOk result (IsVerdictOn flow.now defs.now document.now) }
{
    // For the proof alone: there is a right judge.
    lores_are_there();
    let mut judge = Judge::new(alloc, flow, defs);
    judge.feed(document)?;
    let verdict = judge.finish()?;
    Ok(verdict)
}
