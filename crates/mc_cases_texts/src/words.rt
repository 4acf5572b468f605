// Words of the command line, and what they ask for.
use crate::calls::split;
use anyhow::Result;
use mc_app::words::{Analyse, Check, Request, Run, asked};
use mc_cases::Case;
use std::alloc::{AllocError, Global};

/// What the words of a case ask for.
pub fn came(alloc: Global, case: Case<'_>) -> Result<String> {
    let words = split(alloc, case.text("words")?)?;
    match asked(alloc, words.as_slice())? {
        None => Ok(String::from_str(alloc, "refused")?),
        Some(request) => Ok(shown(alloc, request)?),
    }
}

fn shown(alloc: Global, request: Request<'_>) -> Result<String, AllocError> {
    match request {
        Request::Check(check) => shown_check(alloc, check),
        Request::Run(run) => shown_run(alloc, run),
        Request::Analyse(analyse) => shown_analyse(alloc, analyse),
        Request::Demo(number) => format!(in alloc; "demo {number}"),
    }
}

fn shown_check(alloc: Global, check: Check<'_>) -> Result<String, AllocError> {
    format!(in alloc;
        "check {} {} {} from {}",
        check.program, check.definitions, check.document, check.start
    )
}

fn shown_run(alloc: Global, run: Run<'_>) -> Result<String, AllocError> {
    format!(in alloc;
        "run {} {} {} from {}, fuel {}",
        run.program, run.definitions, run.script, run.start, run.fuel
    )
}

fn shown_analyse(alloc: Global, analyse: Analyse<'_>) -> Result<String, AllocError> {
    let merge = if analyse.merge { "merge" } else { "no merge" };
    format!(in alloc;
        "analyse {} {} from {}, rounds {}, disjuncts {}, {merge}, runs {}, document {}",
        analyse.program,
        analyse.definitions,
        analyse.start,
        analyse.rounds,
        analyse.disjuncts,
        analyse.runs,
        analyse.document.unwrap_or("none")
    )
}
