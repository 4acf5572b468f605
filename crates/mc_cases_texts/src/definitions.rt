// Definition files over the structs of a program, and instances of their rules.
use crate::input::bytes;
use anyhow::{Result, bail};
use mc_base::{Args, Items, NodeId, PredId};
use mc_c_syntax::lex::MAX_BYTES;
use mc_cases::Case;
use mc_def_read::{DefFault, read_defs};
use mc_flow::defs::{Defs, Instance, Rule, instantiate};
use mc_lines::cert::Entry;
use mc_load::read::read;
use serde_json::Value;
use std::alloc::{AllocError, Global};

// The definitions of a text over the structs of a program.
fn definitions(alloc: Global, program: &[u8], text: &[u8]) -> Result<Result<Defs, DefFault>> {
    if program.len() > MAX_BYTES || text.len() > MAX_BYTES {
        bail!("too long");
    }
    match read(alloc, program, b"main") {
        Ok(typed) => Ok(read_defs(alloc, text, typed.structs())),
        Err(_) => bail!("no program"),
    }
}

// The definitions of a case.
fn definitions_of(alloc: Global, case: Case<'_>) -> Result<Result<Defs, DefFault>> {
    let program = bytes(alloc, case, "program")?;
    let text = bytes(alloc, case, "definitions")?;
    definitions(alloc, program.as_slice(), text.as_slice())
}

/// The number of definitions of a case, or the first fault and its place.
pub fn came(alloc: Global, case: Case<'_>) -> Result<String> {
    match definitions_of(alloc, case)? {
        Ok(defs) => Ok(format!(in alloc; "{}", defs.as_slice().len())?),
        Err(fault) => Ok(shown_fault(alloc, &fault)?),
    }
}

fn shown_fault(alloc: Global, fault: &DefFault) -> Result<String, AllocError> {
    match fault {
        DefFault::Refused(refusal) => {
            let cause = refusal.cause;
            let line = refusal.place.line;
            let column = refusal.place.column;
            format!(in alloc; "{cause:?} {line}:{column}")
        }
        DefFault::NoMemory => Err(AllocError),
    }
}

/// The instance of a rule of a case's first definition, with nodes for its names.
pub fn instance(alloc: Global, case: Case<'_>) -> Result<String> {
    let nodes: Items<NodeId> = Entry::read(alloc, case.get("nodes")?)?;
    let number = case.number("rule")? as usize;
    match definitions_of(alloc, case)? {
        Ok(defs) => match rule_of(&defs, number) {
            Some(rule) => shown(alloc, &instantiate(alloc, rule, nodes.as_slice())?),
            None => bail!("no such rule"),
        },
        Err(_) => bail!("no definitions"),
    }
}

// A rule of the first definition.
fn rule_of(defs: &Defs, number: usize) -> Option<&Rule> {
    defs.as_slice().first()?.rules.as_slice().get(number)
}

// Fields, atoms and calls of an instance.
fn shown(alloc: Global, instance: &Instance) -> Result<String> {
    let mut values = Vec::new(alloc);
    values.push(instance.fields.write(alloc)?)?;
    values.push(instance.atoms.write(alloc)?)?;
    for (pred, at, args) in instance.calls.as_slice() {
        values.push(call(alloc, *pred, *at, args)?)?;
    }
    Ok(Value::Array(values).to_string(alloc)?)
}

// A call: its predicate, its node, and its arguments.
fn call(alloc: Global, pred: PredId, at: NodeId, args: &Args<NodeId>) -> Result<Value, AllocError> {
    let mut entries = Vec::new(alloc);
    entries.push(pred.write(alloc)?)?;
    entries.push(at.write(alloc)?)?;
    entries.push(args.write(alloc)?)?;
    Ok(Value::Array(entries))
}
