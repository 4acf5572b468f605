// The commands, as `clap` reads them.
ghost use Rattle.std.specs.Prelude.{◌≡◌, IfOk, codes, false};
ghost use Rattle.clap.specs.Words.{app_of, rule_of};
ghost use Rattle.mc_app.specs.Words.Commands.{analyse_app, check_app, demo_app, entry_option, flag, free_option, number_option, number_place, option, place, run_app, search_app, three_files, two_files};

use clap::builder::ValueParser;
use clap::{Arg, ArgAction, Command};
use std::alloc::{AllocError, Global};

/// A word that has to be there.
fn place<'w>(alloc: Global, id: &'w str) -> Arg<'w>
    ensures rule { rule_of result ≡ place id.entry.now }
    ensures local { result.global ≡ false }
{
    Arg::new(alloc, id).required(true)
}

/// A number that has to be there, up to another.
fn number_place<'w>(alloc: Global, id: &'w str, most: u64) -> Arg<'w>
    ensures rule { rule_of result ≡ number_place id.entry.now most }
    ensures local { result.global ≡ false }
{
    place(alloc, id).value_parser(ValueParser::Unsigned(0, most))
}

/// `--id VALUE`, with its value where it is left out.
fn option<'w>(alloc: Global, id: &'w str, default: &'w str) -> Arg<'w>
    ensures rule { rule_of result ≡ option id.entry.now default.entry.now }
    ensures local { result.global ≡ false }
{
    Arg::new(alloc, id).long(id).default_value(default)
}

/// `--id VALUE`, which may be left out.
fn free_option<'w>(alloc: Global, id: &'w str) -> Arg<'w>
    ensures rule { rule_of result ≡ free_option id.entry.now }
    ensures local { result.global ≡ false }
{
    Arg::new(alloc, id).long(id)
}

/// `--id NUMBER`, likewise, from a number to another.
fn number<'w>(alloc: Global, id: &'w str, default: &'w str, least: u64, most: u64) -> Arg<'w>
    ensures rule { rule_of result ≡ number_option id.entry.now default.entry.now least most }
    ensures local { result.global ≡ false }
{
    option(alloc, id, default).value_parser(ValueParser::Unsigned(least, most))
}

/// `--id`, which may be left out, and takes no value.
fn flag<'w>(alloc: Global, id: &'w str) -> Arg<'w>
    ensures rule { rule_of result ≡ flag id.entry.now }
    ensures local { result.global ≡ false }
{
    Arg::new(alloc, id).long(id).action(ArgAction::SetTrue)
}

/// The function that runs begin with.
fn entry<'w>(alloc: Global) -> Arg<'w>
    ensures rule { rule_of result ≡ entry_option }
    ensures local { result.global ≡ false }
{
    option(alloc, "entry", "main")
}

/// A command over a program and definitions.
fn two_files<'w>(alloc: Global, name: &'w str) -> Result<Command<'w>, AllocError>
    ensures { IfOk result (λ c. app_of c ≡ two_files name.entry.now) }
{
    let command = Command::new(alloc, name)
        .arg(place(alloc, "program"))?
        .arg(place(alloc, "definitions"))?;
    Ok(command)
}

/// A command over a program, definitions and a third file, which begins with an entry.
fn three_files<'w>(alloc: Global, name: &'w str, third: &'w str) -> Result<Command<'w>, AllocError>
    ensures { IfOk result (λ c. app_of c ≡ three_files name.entry.now third.entry.now) }
{
    let command = two_files(alloc, name)?
        .arg(place(alloc, third))?
        .arg(entry(alloc))?;
    Ok(command)
}

/// `check PROGRAM DEFINITIONS DOCUMENT [--entry F]`.
pub fn check<'w>(alloc: Global) -> Result<Command<'w>, AllocError>
    ensures { IfOk result (λ c. app_of c ≡ check_app) }
{
    let command = three_files(alloc, "check", "document")?;
    Ok(command)
}

/// `run PROGRAM DEFINITIONS SCRIPT [--entry F] [--fuel N]`.
pub fn run<'w>(alloc: Global) -> Result<Command<'w>, AllocError>
    ensures { IfOk result (λ c. app_of c ≡ run_app) }
{
    let fuel = number(alloc, "fuel", "100000", 1, 10_000_000);
    let command = three_files(alloc, "run", "script")?.arg(fuel)?;
    Ok(command)
}

/// `analyse`, as far as the limits of a search.
fn search<'w>(alloc: Global) -> Result<Command<'w>, AllocError>
    ensures { IfOk result (λ c. app_of c ≡ search_app) }
{
    let command = two_files(alloc, "analyse")?
        .arg(entry(alloc))?
        .arg(number(alloc, "rounds", "30", 1, 100))?
        .arg(number(alloc, "disjuncts", "16", 1, 64))?
        .arg(flag(alloc, "merge"))?;
    Ok(command)
}

/// `analyse PROGRAM DEFINITIONS [--entry F] [--rounds N] [--disjuncts N] [--merge] [--runs N] [--document FILE]`.
pub fn analyse<'w>(alloc: Global) -> Result<Command<'w>, AllocError>
    ensures { IfOk result (λ c. app_of c ≡ analyse_app) }
{
    let command = search(alloc)?
        .arg(number(alloc, "runs", "2000", 0, 1_000_000))?
        .arg(free_option(alloc, "document"))?;
    Ok(command)
}

/// `demo NUMBER`.
pub fn demo<'w>(alloc: Global) -> Result<Command<'w>, AllocError>
    ensures { IfOk result (λ c. app_of c ≡ demo_app) }
{
    let command = Command::new(alloc, "demo").arg(number_place(alloc, "number", 4_294_967_295))?;
    Ok(command)
}
