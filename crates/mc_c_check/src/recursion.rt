// Calls whose callee can reach the caller.
ghost use Rattle.std.specs.Prelude.{◌+◌, ◌∷◌, ◌↔◌, [], IsTrue, OnOk, All, map, flat_map};
ghost use Rattle.mc_c_syntax.specs.Ast.Views.{item_of};
ghost use Rattle.mc_c_types.specs.Calls.{item_sites};
ghost use Rattle.mc_c_types.specs.Held.{tables_held};
ghost use Rattle.mc_c_check.specs.Graphs.{IsWithin, NeverRise, edge_of};
ghost use Rattle.mc_c_check.specs.Told.{IsToldWith, IsBehind};

use crate::calls::collect_edges;
use crate::graph::{Edge, leads};
use crate::levels::{find_levels, level_of};
use mc_c_syntax::ast::Item;
use mc_c_types::{Fault, FaultName, FirstFault, NameTables};
use std::alloc::{AllocError, Global};

/// Whether a fault that is known already is known rather than this one.
pub fn is_behind(told: &FirstFault, fault: Fault) -> bool
    ensures { IsTrue result ↔ IsBehind told.now.fault fault }
{
    match told.fault {
        None => false,
        Some(first) => first.is_told(fault),
    }
}

/// Notes that a call can come back to its caller.
fn check_edge(
    alloc: Global,
    told: &mut FirstFault,
    edges: &[Edge],
    count: usize,
    levels: &[usize],
    edge: Edge,
) -> Result<(), AllocError>
    requires within { All (IsWithin (count + 1)) edges.now }
    requires levels { NeverRise edges.now levels.now }
    requires one { IsWithin (count + 1) edge }
    ensures { OnOk result (IsToldWith edges.now (edge ∷ []) told.old.fault told.new.fault) }
{
    let fault = Fault {
        name: FaultName::Recursion,
        place: edge.place,
    };
    if is_behind(told, fault) {
        return Ok(());
    }
    if level_of(levels, edge.callee) < level_of(levels, edge.caller) {
        return Ok(());
    }
    if !leads(alloc, edges, count, edge.callee, edge.caller)? {
        return Ok(());
    }
    told.fault = Some(fault);
    Ok(())
}

/// Notes which of these calls can come back to their callers.
fn check_edges(
    alloc: Global,
    told: &mut FirstFault,
    edges: &[Edge],
    count: usize,
) -> Result<(), AllocError>
    requires { All (IsWithin (count + 1)) edges.now }
    ensures { OnOk result (IsToldWith edges.now edges.now told.old.fault told.new.fault) }
{
    let levels = find_levels(alloc, edges, count.saturating_add(1))?;
    for edge in edges {
        check_edge(alloc, told, edges, count, levels.as_slice(), *edge)?;
    }
    Ok(())
}

/// Notes which calls of a program can come back to their callers.
pub fn check_recursion<'a>(
    alloc: Global,
    told: &mut FirstFault,
    tables: &NameTables<'a>,
    items: &'a [Item],
) -> Result<(), AllocError>
    ensures { OnOk result (let edges = map (edge_of (tables_held tables.now).functions)
        (flat_map item_sites (map item_of items.now)) in IsToldWith edges edges told.old.fault told.new.fault) }
{
    let edges = collect_edges(alloc, tables, items)?;
    check_edges(alloc, told, edges.as_slice(), tables.functions.len())?;
    Ok(())
}
