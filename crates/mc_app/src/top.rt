// The top call.
ghost use Rattle.std.specs.Prelude.{◌≡◌, ◌<◌, ◌⊎◌, ℕ, List, IfOk, Some, map, option_map, string_bytes};
ghost use Rattle.mc_app.specs.Words.Words.{Asks};
ghost use Rattle.mc_outside.specs.Outside.{HasCause, Stays, Rose, AddsIfTold};
ghost use Rattle.mc_app.specs.Printing.{text_of};
ghost use Rattle.mc_app.specs.Alike.{IsLikeAnalysis};
ghost use Rattle.mc_app.specs.Answers.{AsksForSafety, EndsWith, HasTarget, IsSafeForWords, IsWhyWords, Keeps, OnlyTargetChanges, PrintsPart, TargetHoldsPart, document_of, sources_of, status_of, target_of};
ghost use Rattle.mc_app.specs.Checks.{IsSafeWhereTold};
ghost use Rattle.mc_app.specs.Demo.Ending.{EndsWellForDemo};
ghost use Rattle.mc_app.specs.Faults.{fault_status};
ghost use Rattle.mc_app.specs.Statuses.{AlarmsTell, IsComplete, IsDecided};

use crate::analysing::answer_analysis;
use crate::checking::answer_check;
use crate::demo::demo_text;
use crate::laws::{answers_are_complete, closed_programs_are_decided, documents_are_judged_alike};
use crate::running::answer_run;
use crate::words::{Request, asked};
use crate::{Answer, Status};
use mc_outside::saving::save;
use mc_outside::{FileFault, Files, Sink};
use std::alloc::Global;

// An answer, and the file that its document goes into.
#[derive(Drop)]
struct Reply<'w> {
    answer: Answer,
    target: Option<&'w str>,
}

// What a request comes to.
fn answered<F: Files>(
    alloc: Global,
    files: &mut F,
    request: Request<'_>,
) -> Result<Answer, FileFault>
    ensures why { IfOk result (λ a. (words : List (List ℕ)) → Asks words request.entry → IsWhyWords (F.holds files.old) words a) }
    ensures safe { IfOk result (λ a. (words : List (List ℕ)) → Asks words request.entry → status_of a ≡ Status.Good
        → AsksForSafety request.entry → IsSafeWhereTold (F.holds files.old) (sources_of request.entry)) }
    ensures same { Stays (F.holds files.old) (F.holds files.new) }
    ensures cause { HasCause (F.faults files.old) (F.faults files.new) result }
{
    match request {
        Request::Check(names) => {
            let answer = answer_check(alloc, files, names)?;
            Ok(answer)
        }
        Request::Run(names) => {
            let answer = answer_run(alloc, files, names)?;
            Ok(answer)
        }
        Request::Analyse(names) => {
            let answer = answer_analysis(alloc, files, names)?;
            Ok(answer)
        }
        Request::Demo(number) => {
            let text = demo_text(alloc, number)?;
            Ok(Answer::Demo(text))
        }
    }
}

// The file that the document of a request goes into.
fn target<'w>(request: Request<'w>) -> Option<&'w str>
    ensures { option_map (λ s. s.now) result ≡ target_of (Some request.entry) }
{
    match request {
        Request::Check(_) => None,
        Request::Run(_) => None,
        Request::Analyse(names) => names.document,
        Request::Demo(_) => None,
    }
}

fn found<'w, F: Files>(
    alloc: Global,
    words: &'w [String],
    files: &mut F,
) -> Result<Reply<'w>, FileFault>
    ensures why { IfOk result (λ f. IsWhyWords (F.holds files.old) (map string_bytes words.entry.now) f.answer) }
    ensures safe { IfOk result (λ f. status_of f.answer ≡ Status.Good
        → IsSafeForWords (F.holds files.old) (map string_bytes words.entry.now)) }
    ensures target { IfOk result (λ f. HasTarget (map string_bytes words.entry.now) (option_map (λ s. s.now) f.target)) }
    ensures same { Stays (F.holds files.old) (F.holds files.new) }
    ensures cause { HasCause (F.faults files.old) (F.faults files.new) result }
{
    match asked(alloc, words)? {
        Some(request) => {
            let answer = answered(alloc, files, request)?;
            let target = target(request);
            Ok(Reply { answer, target })
        }
        None => Ok(Reply {
            answer: Answer::Words,
            target: None,
        }),
    }
}

// Writes the document of an answer into the file that it goes into.
fn keep<F: Files>(files: &mut F, reply: &Reply<'_>) -> Result<(), FileFault>
    ensures kept { Keeps (F.holds files.old) (F.holds files.new) (option_map (λ s. s.now) reply.now.target)
        (document_of reply.now.answer) result }
    ensures cause { HasCause (F.faults files.old) (F.faults files.new) result }
{
    let Some(name) = reply.target else {
        return Ok(());
    };
    match reply.answer.document() {
        Some(text) => save(files, name, text),
        None => Ok(()),
    }
}

fn tell<K: Sink>(alloc: Global, answer: &Answer, out: &mut K) -> Result<(), FileFault>
    ensures adds { AddsIfTold (K.written out.old) (text_of answer.now) (K.written out.new) result }
    ensures cause { HasCause (K.faults out.old) (K.faults out.new) result }
{
    let text = answer.text(alloc)?;
    out.write(&text)
}

fn status_of(fault: FileFault) -> Status
    ensures { result ≡ fault_status fault }
{
    match fault {
        FileFault::Failed => Status::Device,
        FileFault::NoMemory => Status::Memory,
    }
}

/// Does what the words ask for: checks a document, runs a program on a script, analyses a program, or analyses programs that it makes.
/// The answer is printed.
pub fn memcad<F: Files, K: Sink>(
    alloc: Global,
    words: &[String],
    files: &mut F,
    out: &mut K,
) -> Status
    // Where a document is accepted or a certificate was found, no run of the program has a fault.
    ensures safe { result ≡ Status.Good → IsSafeForWords (F.holds files.old) (map string_bytes words.now) }
    // Where there are alarms, every run of the program that has a fault comes by one of the branches that are reported; and where
    // an alarm of an analysis carries a script, the program faults there with it. In closed programs each carries one, where no
    // states are merged.
    ensures alarms { result ≡ Status.Alarm → AlarmsTell (F.holds files.old) (map string_bytes words.now) (K.written out.old) (K.written out.new) }
    // A command whose program and definitions are read and fit ends by its document, its script or what is found.
    ensures complete { IsComplete (F.holds files.old) (map string_bytes words.now) result }
    // An analysis of a closed program that merges no states ends with 0 where it is safe, and with 1 where it is not.
    ensures decided { IsDecided (F.holds files.old) (map string_bytes words.now) result }
    // Where the words ask for programs that are made, all is well.
    ensures demo { EndsWellForDemo (map string_bytes words.now) result }
    // A check of the document that an analysis of the same program has left ends like it.
    ensures alike { IsLikeAnalysis (F.holds files.old) (map string_bytes words.now) (K.written out.old) (K.written out.new) result }
    // Each answer has its cause, leaves its document and prints its text. A call without an answer ran out of memory, or the
    // device failed.
    ensures why { EndsWith (F.holds files.old) (F.holds files.new) (map string_bytes words.now) (K.written out.old)
        (K.written out.new) result }
    ensures device { result ≡ Status.Device → Rose (F.faults files.old) (F.faults files.new) ⊎ Rose (K.faults out.old) (K.faults out.new) }
    ensures only_device { (F.faults files.old < F.faults files.new) ⊎ (K.faults out.old < K.faults out.new) → result ≡ Status.Device }
    // Another status prints nothing, or the front of the text of an answer that has its cause, whose document stands by then.
    ensures prints_part { PrintsPart (F.holds files.old) (F.holds files.new) (map string_bytes words.now)
        (K.written out.old) (K.written out.new) }
    // No file changes, but the one that the words name for the document, which is as it was or holds the front of one.
    ensures same { OnlyTargetChanges (map string_bytes words.now) (F.holds files.old) (F.holds files.new) }
    ensures leaves_part { TargetHoldsPart (map string_bytes words.now) (F.holds files.old) (F.holds files.new) }
{
    // For the proof alone: an answer that has its cause is that of the command, closed programs are decided, and a document is
    // judged as it was found.
    answers_are_complete();
    closed_programs_are_decided();
    documents_are_judged_alike();
    match found(alloc, words, files) {
        Err(fault) => status_of(fault),
        Ok(reply) => match keep(files, &reply) {
            Err(fault) => status_of(fault),
            Ok(()) => match tell(alloc, &reply.answer, out) {
                Err(fault) => status_of(fault),
                Ok(()) => reply.answer.status(),
            },
        },
    }
}
