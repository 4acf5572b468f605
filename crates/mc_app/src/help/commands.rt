// The commands under one program, with the texts of help. Options, defaults and ranges are those of the commands.

use crate::words::commands;
use clap::{Arg, Command};
use std::alloc::{AllocError, Global};

const VERSION: &str = "1.0 (documents of version 1)";

const ABOUT: &str =
    "Shows that no pointer in a C program goes wrong, whatever its inputs, or where one may";

const AFTER: &str = "Standard output has the answer alone, and the status says which one it is:
  0  safe; of run: it ended, or stopped at an assume; of demo: always
  1  alarms, it may go wrong there; of run: it went wrong
  2  the words are refused, or ask for help
  3  the program is refused; of analyse also: neither a proof nor alarms were found
  4  the definitions are refused
  5  a limit was met: branches of analyse, steps of run
  6  the document or the script is refused
  7  a file or the output failed
  8  memory ran out
  9  the system did not hand over the words

Formats of all files, and all answers: docs/FORMATS.md of the repository";

const FORMATS: &str = "Formats of all files, and all answers: docs/FORMATS.md of the repository";

/// The program `memcad`, with all its commands.
pub fn program<'w>(alloc: Global) -> Result<Command<'w>, AllocError> {
    let program = Command::new(alloc, "memcad")
        .no_binary_name(true)
        .bin_name("memcad")?
        .version(VERSION)
        .about(ABOUT)
        .after_help(AFTER)
        .arg_required_else_help(true)
        .subcommand_required(true)
        .subcommand(check(alloc)?)?
        .subcommand(run(alloc)?)?
        .subcommand(analyse(alloc)?)?
        .subcommand(demo(alloc)?)?;
    Ok(program)
}

fn check<'w>(alloc: Global) -> Result<Command<'w>, AllocError> {
    let command = commands::check(alloc)?.about(
        "Check a document: a proof that a program is safe, or its alarms",
    );
    let command = with_files(command)?;
    let command = described(
        command,
        "document",
        "DOCUMENT",
        "The document, as analyse writes it",
    )?;
    with_entry(command)
}

fn run<'w>(alloc: Global) -> Result<Command<'w>, AllocError> {
    let command = commands::run(alloc)?.about(
        "Run a program on a script of inputs and of answers of malloc",
    );
    let command = with_files(command)?;
    let command = described(
        command,
        "script",
        "SCRIPT",
        "What the run is given, a line for each question",
    )?;
    let command = with_entry(command)?;
    described(
        command,
        "fuel",
        "N",
        "How many steps are made at most, up to 10000000",
    )
}

fn analyse<'w>(alloc: Global) -> Result<Command<'w>, AllocError> {
    let command = commands::analyse(alloc)?.about(
        "Look for a proof that a program is safe, or for alarms",
    );
    let command = with_files(command)?;
    let command = with_entry(command)?;
    let command = described(
        command,
        "rounds",
        "N",
        "How many rounds the states of a loop may take, up to 100",
    )?;
    let command = described(
        command,
        "disjuncts",
        "N",
        "How many states a loop may have at first, up to 64",
    )?;
    let command = command.mut_arg(
        "merge",
        |argument: Arg<'_>| Ok(argument.help("Join the states of branches where an if ends")),
    )?;
    let command = described(
        command,
        "runs",
        "N",
        "How many runs are tried for scripts of alarms, up to 1000000",
    )?;
    described(
        command,
        "document",
        "FILE",
        "Where the document is written that comes of it",
    )
}

fn demo<'w>(alloc: Global) -> Result<Command<'w>, AllocError> {
    let command = commands::demo(alloc)?.about(
        "Make 64 programs from a number, analyse them, and check their documents",
    );
    let command = described(
        command,
        "number",
        "NUMBER",
        "The number that the programs come of, up to 4294967295",
    )?;
    Ok(command.after_help(FORMATS))
}

// The texts of the files that every command but `demo` reads.
fn with_files(command: Command<'_>) -> Result<Command<'_>, AllocError> {
    let command = described(
        command,
        "program",
        "PROGRAM",
        "The program, in the subset of C that is read",
    )?;
    let command = described(
        command,
        "definitions",
        "DEFINITIONS",
        "What lists, trees and the like are, as inductive predicates",
    )?;
    Ok(command.after_help(FORMATS))
}

fn with_entry(command: Command<'_>) -> Result<Command<'_>, AllocError> {
    described(command, "entry", "F", "The function that runs begin with")
}

// Says of an argument how help calls its value, and what it is.
fn described<'w>(
    command: Command<'w>,
    id: &str,
    value: &'static str,
    help: &'static str,
) -> Result<Command<'w>, AllocError> {
    command.mut_arg(
        id,
        |argument: Arg<'_>| Ok(argument.value_name(value).help(help)),
    )
}
