// What is said of words that ask for nothing, or for help.

use crate::help::commands::program;
use clap::error::ErrorKind;
use clap::{Command, Error};
use std::alloc::Global;
use std::io;

// How the messages of `clap` begin.
const PREFIX: &str = "error: ";

/// Says why these words are refused, or gives the help or the version that they ask for.
pub fn explain_words<R: Eprint>(rt: &R, alloc: Global, words: &[String]) -> io::Result<()> {
    let mut program = program(alloc)?;
    match program.try_get_matches_from_mut(words) {
        Ok(_) => eprintln!(rt; "memcad: these words ask for nothing: try 'memcad --help'"),
        Err(error) => explain_error(rt, alloc, &program, &error),
    }
}

fn explain_error<R: Eprint>(
    rt: &R,
    alloc: Global,
    program: &Command<'_>,
    error: &Error,
) -> io::Result<()> {
    match error.kind() {
        ErrorKind::DisplayHelp | ErrorKind::DisplayVersion => rt.eprint(error),
        ErrorKind::DisplayHelpOnMissingArgumentOrSubcommand => {
            eprintln!(rt; "memcad: a command is missing\n")?;
            rt.eprint(error)
        }
        ErrorKind::InvalidSubcommand => {
            eprint_error(rt, alloc, error)?;
            eprintln!(rt; "\nCommands:")?;
            eprint_commands(rt, program)
        }
        _ => eprint_error(rt, alloc, error),
    }
}

// The message of an error, as one of this program.
fn eprint_error<R: Eprint>(rt: &R, alloc: Global, error: &Error) -> io::Result<()> {
    let text = error.to_string(alloc)?;
    let text = text.as_str();
    let message = text.strip_prefix(PREFIX).unwrap_or(text);
    eprint!(rt; "memcad: {message}")
}

// A line for each command.
fn eprint_commands<R: Eprint>(rt: &R, program: &Command<'_>) -> io::Result<()> {
    for command in program.get_subcommands() {
        let name = command.get_name();
        let about = command.get_about().unwrap_or("");
        eprintln!(rt; "  {name:<9}{about}")?;
    }
    Ok(())
}
