// Conditions, whose names become numbers; a loop, so that none is too deep.
ghost use Rattle.std.specs.Prelude.{◌≡◌, ◌+◌, ◌<◌, ◌∷◌, IfOk, OnOk, map};
ghost use Rattle.mc_c_syntax.specs.Ast.Views.{condition_of as named_condition, expression_of as named_expression};
ghost use Rattle.mc_semantics.specs.Resolved.Resolving.{resolved_condition};
ghost use Rattle.mc_semantics.specs.Resolved.Views.{condition_of};
ghost use Rattle.mc_semantics.specs.Moves.{condition_place};
ghost use Rattle.mc_c_types.specs.Faults.{first_place};
ghost use Rattle.mc_resolve.specs.Conditions.{condition_steps, denied, linked, link_of, part_steps, tested};
ghost use Rattle.mc_resolve.specs.Named.{IsNumbered, naming_at, visible_at};
ghost use Rattle.mc_resolve.specs.declared.condition.Part.TheVariants as Part;

use crate::expression::resolve_expression;
use crate::naming::NamesHere;
use mc_base::stack::Stack;
use mc_base::text::Place;
use mc_c_syntax::ast as tree;
use mc_semantics::resolved::{Condition, Expression};
use std::alloc::{AllocError, Global};

/// How two conditions are linked.
#[derive(Clone, Copy)]
enum Link {
    Both,
    Either,
}

/// What is still to be made: a whole condition, or one of what is made last.
#[derive(Clone, Copy)]
enum Part<'a> {
    Whole(&'a tree::Condition),
    Not,
    Two(Link),
}

/// The place of the first token of an expression.
fn first_place(expression: &tree::Expression) -> Place
    ensures { result ≡ first_place (named_expression expression.now) }
{
    let mut current = expression;
    loop {
        match current {
            tree::Expression::Number(_, place) => return *place,
            tree::Expression::Null(place) => return *place,
            tree::Expression::Input(place) => return *place,
            tree::Expression::Value(left) => return left.name.place,
            tree::Expression::Minus(place, _) => return *place,
            tree::Expression::Parens(place, _) => return *place,
            tree::Expression::Times(left, _) => current = left,
            tree::Expression::Plus(left, _) => current = left,
            tree::Expression::Difference(left, _) => current = left,
        }
    }
}

/// The place of the first token of a condition.
pub fn condition_place(condition: &tree::Condition) -> Place
    ensures { result ≡ condition_place (named_condition condition.now) }
{
    let mut current = condition;
    loop {
        match current {
            tree::Condition::Plain(value) => return first_place(value),
            tree::Condition::Compare(_, left, _) => return first_place(left),
            tree::Condition::Not(place, _) => return *place,
            tree::Condition::Parens(place, _) => return *place,
            tree::Condition::Both(left, _) => current = left,
            tree::Condition::Either(left, _) => current = left,
        }
    }
}

/// Two conditions, linked.
fn link_two(
    alloc: Global,
    how: Link,
    left: Condition,
    right: Condition,
) -> Result<Condition, AllocError>
    ensures { IfOk result (λ c. condition_of c ≡ link_of how (condition_of left) (condition_of right)) }
{
    let left = Box::new(alloc, left)?;
    let right = Box::new(alloc, right)?;
    Ok(match how {
        Link::Both => Condition::Both(left, right),
        Link::Either => Condition::Either(left, right),
    })
}

/// The last one is denied.
fn deny_last(alloc: Global, made: &mut Stack<Condition>) -> Result<(), AllocError>
    ensures { OnOk result (map condition_of made.new ≡ denied (map condition_of made.old)) }
{
    if let Some(last) = made.pop() {
        made.push(Condition::Not(Box::new(alloc, last)?))?;
    }
    Ok(())
}

/// The last two are linked.
fn link_last(alloc: Global, how: Link, made: &mut Stack<Condition>) -> Result<(), AllocError>
    ensures { OnOk result (map condition_of made.new ≡ linked (link_of how) (map condition_of made.old)) }
{
    let Some(right) = made.pop() else {
        return Ok(());
    };
    match made.pop() {
        Some(left) => made.push(link_two(alloc, how, left, right)?)?,
        None => made.push(right)?,
    }
    Ok(())
}

/// Both parts are next, the left one first, and then they are linked.
fn enter_link<'a>(
    parts: &mut Stack<Part<'a>>,
    how: Link,
    left: &'a tree::Condition,
    right: &'a tree::Condition,
) -> Result<(), AllocError>
    ensures { OnOk result (parts.new ≡ Part.Whole left.entry ∷ Part.Whole right.entry ∷ Part.Two how ∷ parts.old) }
{
    parts.push(Part::Two(how))?;
    parts.push(Part::Whole(right))?;
    parts.push(Part::Whole(left))
}

/// A comparison.
fn resolve_comparison(
    alloc: Global,
    names: NamesHere,
    mark: tree::Comparison,
    left: &tree::Expression,
    right: &tree::Expression,
) -> Result<Condition, AllocError>
    requires { IsNumbered names.naming }
    ensures { IfOk result (λ c. condition_of c
        ≡ resolved_condition (naming_at names.entry) (visible_at names.entry)
        (compare mark (named_expression left.now) (named_expression right.now))) }
{
    let place = first_place(left);
    let left = Box::new(alloc, resolve_expression(alloc, names, left)?)?;
    let right = Box::new(alloc, resolve_expression(alloc, names, right)?)?;
    Ok(Condition::Compare(place, mark, left, right))
}

ghost use Rattle.mc_c_syntax.specs.Ast.Trees.{compare};

/// A condition is made, or its parts are next.
fn enter<'a>(
    alloc: Global,
    names: NamesHere,
    condition: &'a tree::Condition,
    parts: &mut Stack<Part<'a>>,
    made: &mut Stack<Condition>,
) -> Result<(), AllocError>
    requires { IsNumbered names.naming }
    ensures tested { OnOk result (tested (naming_at names.entry) (visible_at names.entry) parts.new
        (map condition_of made.new) ≡ tested (naming_at names.entry) (visible_at names.entry) parts.old
        (resolved_condition (naming_at names.entry) (visible_at names.entry) (named_condition condition.now)
        ∷ map condition_of made.old)) }
    ensures steps { OnOk result (part_steps parts.new < condition_steps (named_condition condition.now) + part_steps parts.old) }
{
    match condition {
        tree::Condition::Plain(value) => {
            let place = first_place(value);
            made.push(Condition::Plain(place, resolve_expression(alloc, names, value)?))?;
        }
        tree::Condition::Compare(mark, left, right) => {
            made.push(resolve_comparison(alloc, names, *mark, left, right)?)?;
        }
        tree::Condition::Not(_, inner) => {
            parts.push(Part::Not)?;
            parts.push(Part::Whole(inner))?;
        }
        tree::Condition::Parens(_, inner) => parts.push(Part::Whole(inner))?,
        tree::Condition::Both(left, right) => enter_link(parts, Link::Both, left, right)?,
        tree::Condition::Either(left, right) => enter_link(parts, Link::Either, left, right)?,
    }
    Ok(())
}

/// What is next is done.
fn step<'a>(
    alloc: Global,
    names: NamesHere,
    next: Part<'a>,
    parts: &mut Stack<Part<'a>>,
    made: &mut Stack<Condition>,
) -> Result<(), AllocError>
    requires { IsNumbered names.naming }
    ensures tested { OnOk result (tested (naming_at names.entry) (visible_at names.entry) parts.new
        (map condition_of made.new) ≡ tested (naming_at names.entry) (visible_at names.entry)
        (next.entry ∷ parts.old) (map condition_of made.old)) }
    ensures steps { OnOk result (part_steps parts.new < part_steps (next.entry ∷ parts.old)) }
{
    match next {
        Part::Whole(condition) => enter(alloc, names, condition, parts, made)?,
        Part::Not => deny_last(alloc, made)?,
        Part::Two(how) => link_last(alloc, how, made)?,
    }
    Ok(())
}

/// The condition with its names resolved.
pub fn resolve_condition(
    alloc: Global,
    names: NamesHere,
    condition: &tree::Condition,
) -> Result<Condition, AllocError>
    requires { IsNumbered names.naming }
    ensures { IfOk result (λ c. condition_of c
        ≡ resolved_condition (naming_at names.entry) (visible_at names.entry) (named_condition condition.now)) }
{
    let mut parts = Stack::new(alloc);
    let mut made = Stack::new(alloc);
    parts.push(Part::Whole(condition))?;
    while let Some(next) = parts.pop() {
        step(alloc, names, next, &mut parts, &mut made)?;
    }
    let Some(whole) = made.pop() else {
        return Ok(Condition::Plain(Place { line: 1, column: 1 }, Expression::Input));
    };
    Ok(whole)
}
