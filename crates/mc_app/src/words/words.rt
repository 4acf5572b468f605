// What words ask for.
ghost use Rattle.std.specs.Prelude.{◌≡◌, ◌∷◌, [], Bool, List, ℕ, IfOk, MatchOption, Some, codes, map, option_map, string_bytes, true};
ghost use Rattle.clap.specs.Words.{App, app_of, found_of, matches_of};
ghost use Rattle.clap.specs.Faults.{fault_of, is_simple_and_free};
ghost use Rattle.clap.specs.Walk.{rows_of};
ghost use Rattle.mc_app.specs.declared.words.words.Check.{Check as Judges};
ghost use Rattle.mc_app.specs.declared.words.words.Run.{Run as Runs};
ghost use Rattle.mc_app.specs.declared.words.words.Analyse.{Analyse as Analyses};
ghost use Rattle.mc_app.specs.Words.Commands.{analyse_app, check_app, demo_app, run_app};
ghost use Rattle.mc_app.specs.Words.Words.{Asks, AsksAnalyse, AsksCheck, AsksDemo, AsksRun, IsFor, Reads, ReadsFlag, ReadsNumber, ReadsPerhaps, ReadsSmallNumber};
ghost use Rattle.mc_app.specs.declared.words.words.Request.{Request as Meant};

use crate::words::commands;
use clap::error::ErrorKind;
use clap::{ArgMatches, Command};
use std::alloc::{AllocError, Global};

/// A document is to be judged.
#[derive(Clone, Copy, Debug, PartialEq, Eq)]
pub struct Check<'w> {
    pub program: &'w str,
    pub definitions: &'w str,
    pub document: &'w str,
    /// The function that runs begin with.
    pub start: &'w str,
}

/// A program is to be run on a script.
#[derive(Clone, Copy, Debug, PartialEq, Eq)]
pub struct Run<'w> {
    pub program: &'w str,
    pub definitions: &'w str,
    pub script: &'w str,
    /// The function that the run begins with.
    pub start: &'w str,
    /// How many steps are made at most, from 1 to 10,000,000.
    pub fuel: u64,
}

/// A program is to be analysed.
#[derive(Clone, Copy, Debug, PartialEq, Eq)]
pub struct Analyse<'w> {
    pub program: &'w str,
    pub definitions: &'w str,
    /// The function that runs begin with.
    pub start: &'w str,
    /// How many rounds the states of a loop may take, from 1 to 100.
    pub rounds: u64,
    /// How many states a cut has at most, from 1 to 64.
    pub disjuncts: u64,
    /// Whether the states of branches come together where an `if` ends.
    pub merge: bool,
    /// How many runs are tried for scripts of alarms, from 0 to 1,000,000.
    pub runs: u64,
    /// Where the document is written, if it is wanted.
    pub document: Option<&'w str>,
}

/// A command with what it names.
#[derive(Clone, Copy, Debug, PartialEq, Eq)]
pub enum Request<'w> {
    Check(Check<'w>),
    Run(Run<'w>),
    Analyse(Analyse<'w>),
    /// Programs that come of a number are to be analysed.
    Demo(u32),
}

// The matches of a command, if it finds no fault in the words.
fn matches<'w>(
    command: Command<'w>,
    words: &'w [String],
) -> Result<Option<ArgMatches<'w>>, AllocError>
    requires { is_simple_and_free (app_of command) ≡ true }
    ensures { IfOk result (λ r. MatchOption r (fault_of (app_of command.entry) (map string_bytes words.entry.now) ≡ [] → ⊥)
        (λ m. (fault_of (app_of command.entry) (map string_bytes words.entry.now) ≡ [])
        × (rows_of (found_of m) ≡ matches_of (app_of command.entry) (map string_bytes words.entry.now)))) }
{
    match command.try_get_matches_from(words) {
        Ok(found) => Ok(Some(found)),
        Err(error) => {
            if error.kind() == ErrorKind::OutOfMemory {
                return Err(AllocError);
            }
            Ok(None)
        }
    }
}

// The word that a command has read at one of its names.
fn word<'w>(found: &ArgMatches<'w>, id: &str) -> Option<&'w str>
    ensures { (app : App) (words : List (List ℕ)) → rows_of (found_of found.now) ≡ matches_of app words
        → MatchOption result ((w : List ℕ) → Reads app words id.now w → ⊥) (λ s. Reads app words id.now s.now) }
{
    found.get_str(id)
}

// The number that a command has read at one of its names.
fn number(found: &ArgMatches<'_>, id: &str) -> Option<u64>
    ensures { (app : App) (words : List (List ℕ)) → rows_of (found_of found.now) ≡ matches_of app words
        → MatchOption result ((n : ℕ) → ReadsNumber app words id.now n → ⊥) (ReadsNumber app words id.now) }
{
    found.get_one::<u64>(id)
}

// The number below 2^32 that a command has read at one of its names.
fn small_number(found: &ArgMatches<'_>, id: &str) -> Option<u32>
    ensures { (app : App) (words : List (List ℕ)) → rows_of (found_of found.now) ≡ matches_of app words
        → MatchOption result ((n : ℕ) → ReadsSmallNumber app words id.now n → ⊥) (ReadsSmallNumber app words id.now) }
{
    found.get_one::<u32>(id)
}

// Whether a command has read the flag of this name.
fn flag(found: &ArgMatches<'_>, id: &str) -> Option<bool>
    ensures { (app : App) (words : List (List ℕ)) → rows_of (found_of found.now) ≡ matches_of app words
        → MatchOption result ((is : Bool) → ReadsFlag app words id.now is → ⊥) (ReadsFlag app words id.now) }
{
    found.get_one::<bool>(id)
}

// The word that a command has read at a name that may be left out.
fn word_perhaps<'w>(found: &ArgMatches<'w>, id: &str) -> Option<&'w str>
    ensures { (app : App) (words : List (List ℕ)) → rows_of (found_of found.now) ≡ matches_of app words
        → ReadsPerhaps app words id.now (option_map (λ s. s.now) result) }
{
    found.get_str(id)
}

// What a `check` names.
fn check_of<'w>(found: &ArgMatches<'w>) -> Option<Check<'w>>
    ensures { (words : List (List ℕ)) → IsFor (codes "check") check_app words
        → rows_of (found_of found.now) ≡ matches_of check_app words
        → MatchOption result ((c : Judges) → AsksCheck words c → ⊥) (AsksCheck words) }
{
    Some(Check {
        program: word(found, "program")?,
        definitions: word(found, "definitions")?,
        document: word(found, "document")?,
        start: word(found, "entry")?,
    })
}

// What a `run` names.
fn run_of<'w>(found: &ArgMatches<'w>) -> Option<Run<'w>>
    ensures { (words : List (List ℕ)) → IsFor (codes "run") run_app words
        → rows_of (found_of found.now) ≡ matches_of run_app words
        → MatchOption result ((c : Runs) → AsksRun words c → ⊥) (AsksRun words) }
{
    Some(Run {
        program: word(found, "program")?,
        definitions: word(found, "definitions")?,
        script: word(found, "script")?,
        start: word(found, "entry")?,
        fuel: number(found, "fuel")?,
    })
}

// What an `analyse` names.
fn analyse_of<'w>(found: &ArgMatches<'w>) -> Option<Analyse<'w>>
    ensures { (words : List (List ℕ)) → IsFor (codes "analyse") analyse_app words
        → rows_of (found_of found.now) ≡ matches_of analyse_app words
        → MatchOption result ((c : Analyses) → AsksAnalyse words c → ⊥) (AsksAnalyse words) }
{
    Some(Analyse {
        program: word(found, "program")?,
        definitions: word(found, "definitions")?,
        start: word(found, "entry")?,
        rounds: number(found, "rounds")?,
        disjuncts: number(found, "disjuncts")?,
        merge: flag(found, "merge")?,
        runs: number(found, "runs")?,
        document: word_perhaps(found, "document"),
    })
}

// The words after `check`.
fn asked_check<'w>(alloc: Global, words: &'w [String]) -> Result<Option<Request<'w>>, AllocError>
    requires { (rest : List (List ℕ)) × (map string_bytes words.now ≡ codes "check" ∷ rest) }
    ensures { IfOk result (λ r. MatchOption r ((a : Meant) → Asks (map string_bytes words.entry.now) a → ⊥)
        (Asks (map string_bytes words.entry.now))) }
{
    let command = commands::check(alloc)?;
    let Some(found) = matches(command, words)? else {
        return Ok(None);
    };
    match check_of(&found) {
        Some(check) => Ok(Some(Request::Check(check))),
        None => Ok(None),
    }
}

// The words after `run`.
fn asked_run<'w>(alloc: Global, words: &'w [String]) -> Result<Option<Request<'w>>, AllocError>
    requires { (rest : List (List ℕ)) × (map string_bytes words.now ≡ codes "run" ∷ rest) }
    ensures { IfOk result (λ r. MatchOption r ((a : Meant) → Asks (map string_bytes words.entry.now) a → ⊥)
        (Asks (map string_bytes words.entry.now))) }
{
    let command = commands::run(alloc)?;
    let Some(found) = matches(command, words)? else {
        return Ok(None);
    };
    match run_of(&found) {
        Some(run) => Ok(Some(Request::Run(run))),
        None => Ok(None),
    }
}

// The words after `analyse`.
fn asked_analyse<'w>(alloc: Global, words: &'w [String]) -> Result<Option<Request<'w>>, AllocError>
    requires { (rest : List (List ℕ)) × (map string_bytes words.now ≡ codes "analyse" ∷ rest) }
    ensures { IfOk result (λ r. MatchOption r ((a : Meant) → Asks (map string_bytes words.entry.now) a → ⊥)
        (Asks (map string_bytes words.entry.now))) }
{
    let command = commands::analyse(alloc)?;
    let Some(found) = matches(command, words)? else {
        return Ok(None);
    };
    match analyse_of(&found) {
        Some(analyse) => Ok(Some(Request::Analyse(analyse))),
        None => Ok(None),
    }
}

// What a `demo` names.
fn demo_of(found: &ArgMatches<'_>) -> Option<u32>
    ensures { (words : List (List ℕ)) → IsFor (codes "demo") demo_app words
        → rows_of (found_of found.now) ≡ matches_of demo_app words
        → MatchOption result ((n : ℕ) → AsksDemo words n → ⊥) (AsksDemo words) }
{
    small_number(found, "number")
}

// The words after `demo`.
fn asked_demo<'w>(alloc: Global, words: &'w [String]) -> Result<Option<Request<'w>>, AllocError>
    requires { (rest : List (List ℕ)) × (map string_bytes words.now ≡ codes "demo" ∷ rest) }
    ensures { IfOk result (λ r. MatchOption r ((a : Meant) → Asks (map string_bytes words.entry.now) a → ⊥)
        (Asks (map string_bytes words.entry.now))) }
{
    let command = commands::demo(alloc)?;
    let Some(found) = matches(command, words)? else {
        return Ok(None);
    };
    match demo_of(&found) {
        Some(number) => Ok(Some(Request::Demo(number))),
        None => Ok(None),
    }
}

/// What the words ask for, if they ask for something. The first one names the command, and that command's parser reads
/// the others.
pub fn asked<'w>(alloc: Global, words: &'w [String]) -> Result<Option<Request<'w>>, AllocError>
    ensures { IfOk result (λ r. MatchOption r ((a : Meant) → Asks (map string_bytes words.entry.now) a → ⊥)
        (Asks (map string_bytes words.entry.now))) }
{
    let [name, ..] = words else {
        return Ok(None);
    };
    let name = name.as_str();
    if name == "check" {
        return asked_check(alloc, words);
    }
    if name == "run" {
        return asked_run(alloc, words);
    }
    if name == "analyse" {
        return asked_analyse(alloc, words);
    }
    if name == "demo" {
        return asked_demo(alloc, words);
    }
    Ok(None)
}
