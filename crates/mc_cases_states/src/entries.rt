// What stands in a case, read as documents write it, and lists written.
use anyhow::{Context, Result, bail};
use mc_base::{EdgeId, Items, NodeId, PredId};
use mc_cases::Case;
use mc_lines::cert::{Entry, two, values_of};
use mc_state::Term;
use serde_json::Value;
use std::alloc::Global;

/// What stands by a name.
pub fn entry<T: Entry + Drop>(alloc: Global, case: Case<'_>, key: &str) -> Result<T> {
    let value = case.get(key)?;
    T::read(alloc, value).context(format_args!("{key}"))
}

/// The entries of the list that stands by a name, none where nothing does.
pub fn entry_or_none<T: Entry + Drop>(
    alloc: Global,
    case: Case<'_>,
    key: &str,
) -> Result<Items<T>> {
    if case.has(key) {
        entry(alloc, case, key)
    } else {
        Ok(Items::new(alloc))
    }
}

/// Two entries side by side.
pub fn pair<A: Entry + Drop, B: Entry + Drop>(alloc: Global, value: &Value) -> Result<(A, B)> {
    match values_of(value) {
        Some([a, b]) => Ok(two(alloc, a, b)?),
        _ => bail!("no pair"),
    }
}

/// Pairs of nodes.
pub fn pairs(alloc: Global, case: Case<'_>, key: &str) -> Result<Vec<(NodeId, NodeId)>> {
    let mut pairs = Vec::new(alloc);
    for value in case.list(key)? {
        pairs.push(pair(alloc, value)?)?;
    }
    Ok(pairs)
}

/// A node and a number more.
pub fn term(alloc: Global, value: &Value) -> Result<Term> {
    let (node, add) = pair(alloc, value)?;
    Ok(Term { node, add })
}

/// Terms.
pub fn terms(alloc: Global, values: &[Value]) -> Result<Items<Term>> {
    let mut terms = Vec::new(alloc);
    for value in values {
        terms.push(term(alloc, value)?)?;
    }
    Ok(Items::of(terms))
}

/// A list of what entries hold.
pub fn list<T: Entry>(alloc: Global, entries: &[T]) -> Result<Value> {
    let mut values = Vec::new(alloc);
    for entry in entries {
        values.push(entry.write(alloc)?)?;
    }
    Ok(Value::Array(values))
}

/// A stop: a term with arguments.
fn stop_of(alloc: Global, value: &Value) -> Result<(Term, Items<Term>)> {
    match values_of(value) {
        Some([end, ends]) => {
            let end = term(alloc, end)?;
            let values = values_of(ends).context("arguments")?;
            Ok((end, terms(alloc, values)?))
        }
        _ => bail!("no stop"),
    }
}

/// What a cover or a guess is asked for: a predicate at a term, perhaps with a stop, and the edges that are used.
#[derive(Drop)]
pub struct Asked {
    pub used: Items<EdgeId>,
    pub pred: PredId,
    pub at: Term,
    pub stop: Option<(Term, Items<Term>)>,
}

impl Asked {
    /// What a case asks for.
    pub fn read(alloc: Global, case: Case<'_>) -> Result<Asked> {
        let stop = match case.find("stop") {
            Some(value) => Some(stop_of(alloc, value)?),
            None => None,
        };
        Ok(Asked {
            used: entry(alloc, case, "used")?,
            pred: entry(alloc, case, "pred")?,
            at: term(alloc, case.get("at")?)?,
            stop,
        })
    }
}
