// The texts of what comes of lines.

use crate::judging::Came;
use crate::program::Program;
use mc_base::text::print_number;
use mc_base::{NoMemory, NodeId, PointId};
use mc_cases::latin::text_of;
use mc_check_line::{Branch, Next};
use mc_state::Goal;
use mc_state_io::text::{print, push_node, push_pred};
use mc_symbolic::State;
use std::alloc::Global;

// Adds a point, where it is not point 0.
fn push_point(alloc: Global, out: &mut Vec<u8>, point: PointId) -> Result<(), NoMemory> {
    if point.0 == 0 {
        return Ok(());
    }
    print_number(alloc, out, point.0)?;
    out.extend_from_slice(b": ")
}

// Adds nodes, a comma before each.
fn push_nodes(alloc: Global, out: &mut Vec<u8>, nodes: &[NodeId]) -> Result<(), NoMemory> {
    for node in nodes {
        out.push(b',')?;
        push_node(alloc, out, *node)?;
    }
    Ok(())
}

// Adds a predicate at a node with arguments, as that of an edge.
fn push_shape(
    alloc: Global,
    out: &mut Vec<u8>,
    program: &Program,
    goal: &Goal,
) -> Result<(), NoMemory> {
    push_pred(out, program.defs.as_slice(), goal.pred)?;
    out.push(b'(')?;
    push_node(alloc, out, goal.at)?;
    push_nodes(alloc, out, goal.args.as_slice())?;
    out.push(b')')?;
    Ok(())
}

// Adds what is to be shown, if anything is.
fn push_goal(
    alloc: Global,
    out: &mut Vec<u8>,
    program: &Program,
    goal: &Option<Goal>,
) -> Result<(), NoMemory> {
    let Some(goal) = goal else {
        return Ok(());
    };
    out.extend_from_slice(b"to show ")?;
    push_shape(alloc, out, program, goal)?;
    out.extend_from_slice(b": ")
}

// Adds whether the edges are all that is allocated, where that changed.
fn push_change(out: &mut Vec<u8>, before: bool, now: bool) -> Result<(), NoMemory> {
    if before == now {
        Ok(())
    } else if before {
        out.extend_from_slice(b"no longer whole: ")
    } else {
        out.extend_from_slice(b"whole: ")
    }
}

// Adds the text of a state.
fn push_state(
    alloc: Global,
    out: &mut Vec<u8>,
    program: &Program,
    state: &State,
) -> Result<(), NoMemory> {
    let vars = program.flow.vars.as_slice();
    let structs = program.flow.structs.list.as_slice();
    let text = print(alloc, state, vars, program.defs.as_slice(), structs)?;
    out.extend_from_slice(text.as_slice())
}

// Adds a branch.
fn push_branch(
    alloc: Global,
    out: &mut Vec<u8>,
    program: &Program,
    whole: bool,
    branch: &Branch,
) -> Result<(), NoMemory> {
    push_point(alloc, out, branch.point)?;
    push_goal(alloc, out, program, &branch.goal)?;
    push_change(out, whole, branch.state.is_whole())?;
    push_state(alloc, out, program, &branch.state)
}

// Adds branches, a bar between each two.
fn push_branches(
    alloc: Global,
    out: &mut Vec<u8>,
    program: &Program,
    whole: bool,
    branches: &[Branch],
) -> Result<(), NoMemory> {
    for (number, branch) in branches.iter().enumerate() {
        if number > 0 {
            out.extend_from_slice(b" | ")?;
        }
        push_branch(alloc, out, program, whole, branch)?;
    }
    Ok(())
}

// Adds two branches.
fn push_two(
    alloc: Global,
    out: &mut Vec<u8>,
    program: &Program,
    whole: bool,
    first: &Branch,
    second: &Branch,
) -> Result<(), NoMemory> {
    push_branch(alloc, out, program, whole, first)?;
    out.extend_from_slice(b" | ")?;
    push_branch(alloc, out, program, whole, second)
}

// Adds what comes of a line whose premises are met.
fn push_next(
    alloc: Global,
    out: &mut Vec<u8>,
    program: &Program,
    whole: bool,
    next: &Next,
) -> Result<(), NoMemory> {
    match next {
        Next::Ended => out.extend_from_slice(b"ends"),
        Next::One(branch) => push_branch(alloc, out, program, whole, branch),
        Next::Two(first, second) => push_two(alloc, out, program, whole, first, second),
        Next::More(list) => push_branches(alloc, out, program, whole, list.as_slice()),
    }
}

// Adds the number of an unmet premise.
fn push_unmet(alloc: Global, out: &mut Vec<u8>, number: u8) -> Result<(), NoMemory> {
    out.extend_from_slice(b"premise ")?;
    print_number(alloc, out, u64::from(number))
}

// Adds what comes of a line.
fn push_came(
    alloc: Global,
    out: &mut Vec<u8>,
    program: &Program,
    whole: bool,
    came: &Came,
) -> Result<(), NoMemory> {
    match came {
        Came::Next(next) => push_next(alloc, out, program, whole, next),
        Came::Unmet(number) => push_unmet(alloc, out, *number),
    }
}

/// The text of what comes of a line at a state that was whole, or was not.
pub fn shown(
    alloc: Global,
    program: &Program,
    whole: bool,
    came: &Came,
) -> Result<String, NoMemory> {
    let mut out = Vec::new(alloc);
    push_came(alloc, &mut out, program, whole, came)?;
    text_of(alloc, out.as_slice())
}
