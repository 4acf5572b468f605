// The calls of a program, by the numbers of its functions.
ghost use Rattle.std.specs.Prelude.{◌≡◌, ◌++◌, IfOk, OnOk, map, flat_map, option_map};
ghost use Rattle.std.specs.Option.{option_copied};
ghost use Rattle.mc_c_syntax.specs.Ast.Views.{function_of, item_of, right_of, simple_of};
ghost use Rattle.mc_c_types.specs.Calls.{item_sites, maybe_right_calls, right_calls, simple_calls};
ghost use Rattle.mc_c_types.specs.Held.{tables_held};
ghost use Rattle.mc_c_walk.specs.Gives.{part_calls, visit_calls};
ghost use Rattle.mc_c_walk.specs.Parts.{part_of};
ghost use Rattle.mc_c_walk.specs.Visits.{body_visits};
ghost use Rattle.mc_c_check.specs.Collected.{at_most_one, names_held};
ghost use Rattle.mc_c_check.specs.Graphs.{edge_of, number_in};

use crate::graph::Edge;
use mc_base::Items;
use mc_base::text::Text;
use mc_c_syntax::ast::{Function, Item, Name, RightSide, Simple};
use mc_c_types::NameTables;
use mc_c_walk::{Part, Walk, visits_give_calls};
use std::alloc::{AllocError, Global};

/// The name that a right side calls.
fn called(right: &RightSide) -> Option<&Name>
    ensures { at_most_one (option_copied result) ≡ right_calls (right_of right.now) }
{
    match right {
        RightSide::Expression(_) => None,
        RightSide::Call(call) => Some(&call.function),
        RightSide::Malloc(_) => None,
    }
}

/// The name that a right side calls, if there is one.
fn maybe_called(right: &Option<RightSide>) -> Option<&Name>
    ensures { at_most_one (option_copied result) ≡ maybe_right_calls (option_map right_of right.now) }
{
    match right {
        None => None,
        Some(right) => called(right),
    }
}

/// The name that a simple statement calls.
fn simply_called(simple: &Simple) -> Option<&Name>
    ensures { at_most_one (option_copied result) ≡ simple_calls (simple_of simple.now) }
{
    match simple {
        Simple::Assign(_, right) => called(right),
        Simple::Add(_, _) => None,
        Simple::Subtract(_, _) => None,
        Simple::Increment(_) => None,
        Simple::Decrement(_) => None,
        Simple::IncrementFirst(_, _) => None,
        Simple::DecrementFirst(_, _) => None,
        Simple::Call(call) => Some(&call.function),
    }
}

/// The name that a part of a body calls.
fn called_in<'a>(part: Part<'a>) -> Option<&'a Name>
    ensures { at_most_one (option_copied result) ≡ part_calls (part_of part.entry) }
{
    match part {
        Part::Declared(_, _) => None,
        Part::Valued(_, _, value) => maybe_called(value),
        Part::Performed(simple) => simply_called(simple),
        Part::Freed(_) => None,
        Part::Tested(_) => None,
        Part::Assumed(_) => None,
        Part::Asserted(_) => None,
        Part::LoopExit(_, _) => None,
        Part::Returning(_, value) => maybe_called(value),
    }
}

/// The names that a function calls.
fn body_calls<'a>(
    alloc: Global,
    tables: &NameTables<'a>,
    function: &'a Function,
) -> Result<Items<&'a Name>, AllocError>
    ensures { IfOk result (λ names. names_held names
        ≡ flat_map visit_calls (body_visits (tables_held tables.now) (function_of function.now)
        (function_of function.now).body)) }
{
    let mut names = Items::new(alloc);
    let mut walk = Walk::new(alloc, tables, function)?;
    while let Some(part) = walk.next(tables)? {
        if let Some(name) = called_in(part) {
            names.push(name)?;
        }
    }
    Ok(names)
}

/// The number of a name: that of the first function of this name, and one past all where there is none.
fn number(tables: &NameTables, name: &Text) -> usize
    ensures { result ≡ number_in (tables_held tables.now).functions name.now }
{
    match tables.functions.place(name) {
        None => tables.functions.len(),
        Some(place) => place,
    }
}

/// Adds the calls that a function makes.
fn add_calls(
    edges: &mut Items<Edge>,
    tables: &NameTables,
    caller: &Text,
    callees: &[&Name],
) -> Result<(), AllocError>
    ensures { OnOk result (edges.new ≡ edges.old
        ++ map (edge_of (tables_held tables.now).functions)
        (map (λ n. record { caller = caller.now; callee = n }) (names_held callees.now))) }
{
    let caller = number(tables, caller);
    for name in callees {
        edges.push(Edge {
            caller,
            callee: number(tables, &name.text),
            place: name.place,
        })?;
    }
    Ok(())
}

/// Adds the calls of a struct, typedef or function.
fn add_item<'a>(
    alloc: Global,
    edges: &mut Items<Edge>,
    tables: &NameTables<'a>,
    item: &'a Item,
) -> Result<(), AllocError>
    ensures { OnOk result (edges.new ≡ edges.old ++ map (edge_of (tables_held tables.now).functions) (item_sites (item_of item.now))) }
{
    match item {
        Item::Struct(_) => Ok(()),
        Item::Typedef(_) => Ok(()),
        Item::Function(function) => {
            visits_give_calls();
            let callees = body_calls(alloc, tables, function)?;
            add_calls(edges, tables, &function.name.text, callees.as_slice())
        }
    }
}

/// The calls of a program.
pub fn collect_edges<'a>(
    alloc: Global,
    tables: &NameTables<'a>,
    items: &'a [Item],
) -> Result<Items<Edge>, AllocError>
    ensures { IfOk result (λ edges. edges
        ≡ map (edge_of (tables_held tables.now).functions) (flat_map item_sites (map item_of items.now))) }
{
    let mut edges = Items::new(alloc);
    for item in items {
        add_item(alloc, &mut edges, tables, item)?;
    }
    Ok(edges)
}
