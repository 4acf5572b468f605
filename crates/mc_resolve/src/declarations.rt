// Declarations, and what stands in the parentheses of a `for`; their variables come into the scope.
ghost use Rattle.std.specs.Prelude.{◌≡◌, IfOk, OnOk, map, option_map};
ghost use Rattle.mc_c_syntax.specs.Ast.Views.{condition_of as named_condition, declaration_of, head_of as named_head, initial_of as named_initial, right_of as named_right, simple_of as named_simple, start_of as named_start};
ghost use Rattle.mc_semantics.specs.Moves.{base_place, head_variables};
ghost use Rattle.mc_semantics.specs.Resolved.Resolving.{numbers_in, resolved_condition, resolved_head, resolved_items, resolved_right, resolved_simple, resolved_start};
ghost use Rattle.mc_semantics.specs.Resolved.Views.{condition_of, head_of, initial_of, right_of, simple_of, start_of};
ghost use Rattle.mc_c_types.specs.Held.{variables_held};
ghost use Rattle.mc_c_types.specs.Scopes.{behind_items, behind_start, inside, visible};
ghost use Rattle.mc_c_types.specs.Tables.{Variable};
ghost use Rattle.mc_resolve.specs.Named.{IsNumbered, naming_at, naming_held, visible_at};

use crate::condition::resolve_condition;
use crate::locals::named;
use crate::naming::{NamesHere, Naming};
use crate::right::{resolve_right, resolve_simple};
use mc_base::text::Place;
use mc_c_syntax::ast as tree;
use mc_c_syntax::ast::Base;
use mc_c_types::Named;
use mc_c_walk::Variables;
use mc_semantics::resolved::{Condition, ForHead, ForStart, Initial, RightSide, Simple};
use std::alloc::{AllocError, Global};

/// The first token of a base.
pub fn base_place(base: &Base) -> Place
    ensures { result ≡ base_place base.now }
{
    match base {
        Base::Int(place) => *place,
        Base::Struct(place, _) => *place,
        Base::Alias(name) => name.place,
    }
}

/// The numbers of variables, of which later ones stand last, in the other order.
#[tactic(auto, using(crate::proofs::Seeing::numbers_held))]
pub fn numbers_of(
    alloc: Global,
    naming: Naming,
    variables: &[Named],
) -> Result<Vec<usize>, AllocError>
    ensures { IfOk result (λ numbers. numbers.items ≡ numbers_in (naming_held naming.entry).locals (variables_held variables.now)) }
{
    variables
        .iter()
        .rev()
        .map(|variable| naming.locals.number(variable.place))
        .collect(alloc)
}

/// A right side that may be missing.
pub fn resolve_maybe_right(
    alloc: Global,
    names: NamesHere,
    right: &Option<tree::RightSide>,
) -> Result<Option<RightSide>, AllocError>
    requires { IsNumbered names.naming }
    ensures { IfOk result (λ made. option_map right_of made
        ≡ option_map (resolved_right (naming_at names.entry) (visible_at names.entry))
        (option_map named_right right.now)) }
{
    match right {
        None => Ok(None),
        Some(right) => Ok(Some(resolve_right(alloc, names, right)?)),
    }
}

/// A condition that may be missing.
fn resolve_maybe_condition(
    alloc: Global,
    names: NamesHere,
    condition: &Option<tree::Condition>,
) -> Result<Option<Condition>, AllocError>
    requires { IsNumbered names.naming }
    ensures { IfOk result (λ made. option_map condition_of made
        ≡ option_map (resolved_condition (naming_at names.entry) (visible_at names.entry))
        (option_map named_condition condition.now)) }
{
    match condition {
        None => Ok(None),
        Some(condition) => Ok(Some(resolve_condition(alloc, names, condition)?)),
    }
}

/// A simple statement that may be missing.
fn resolve_maybe_simple(
    alloc: Global,
    names: NamesHere,
    simple: &Option<tree::Simple>,
) -> Result<Option<Simple>, AllocError>
    requires { IsNumbered names.naming }
    ensures { IfOk result (λ made. option_map simple_of made
        ≡ option_map (resolved_simple (naming_at names.entry) (visible_at names.entry))
        (option_map named_simple simple.now)) }
{
    match simple {
        None => Ok(None),
        Some(simple) => Ok(Some(resolve_simple(alloc, names, simple)?)),
    }
}

/// The declarators of a declaration, each visible from its own value on.
pub fn resolve_items<'a>(
    alloc: Global,
    naming: Naming<'_, 'a>,
    scope: &mut Variables<'a>,
    base: &Base,
    items: &'a [tree::Initial],
) -> Result<Vec<Initial>, AllocError>
    requires { IsNumbered naming }
    ensures made { IfOk result (λ made. map initial_of made.items
        ≡ resolved_items (naming_held naming.entry) scope.old base.now (map named_initial items.now)) }
    ensures scope { OnOk result (scope.new
        ≡ behind_items (naming_held naming.entry).tables base.now scope.old (map named_initial items.now)) }
{
    let mut made = Vec::with_capacity(alloc, items.len())?;
    for item in items {
        scope.declare(named(naming.tables, base, &item.declarator))?;
        let names = NamesHere { naming, scope };
        made.push(Initial {
            variable: naming.locals.number(item.declarator.name.place),
            value: resolve_maybe_right(alloc, names, &item.value)?,
        })?;
    }
    Ok(made)
}

/// What a `for` begins with, and the variables that it declares.
#[tactic(auto, using(mc_c_walk::proofs::Keeps::outside_start))]
fn resolve_start<'a>(
    alloc: Global,
    naming: Naming<'_, 'a>,
    scope: &mut Variables<'a>,
    start: &'a tree::ForStart,
) -> Result<(ForStart, Vec<usize>), AllocError>
    requires { IsNumbered naming }
    ensures start { IfOk result (λ made. start_of made.0 ≡ resolved_start (naming_held naming.entry) scope.old (named_start start.now)) }
    ensures variables { IfOk result (λ made. made.1.items
        ≡ numbers_in (naming_held naming.entry).locals
        (head_variables (naming_held naming.entry).tables scope.old (named_start start.now))) }
    ensures scope { OnOk result (scope.new ≡ behind_start (naming_held naming.entry).tables scope.old (named_start start.now)) }
{
    match start {
        tree::ForStart::Nothing => Ok((ForStart::Nothing, Vec::new(alloc))),
        tree::ForStart::Declaration(declaration) => {
            let marks = scope.marks();
            scope.enter();
            let items = declaration.items.as_slice();
            let items = resolve_items(alloc, naming, scope, &declaration.base, items)?;
            let variables = numbers_of(alloc, naming, scope.own())?;
            scope.make_head(marks);
            let place = base_place(&declaration.base);
            Ok((ForStart::Declaration(place, items), variables))
        }
        tree::ForStart::Simple(simple) => {
            let simple = resolve_simple(alloc, NamesHere { naming, scope }, simple)?;
            Ok((ForStart::Simple(simple), Vec::new(alloc)))
        }
    }
}

/// What stands in the parentheses of a `for`.
pub fn resolve_head<'a>(
    alloc: Global,
    naming: Naming<'_, 'a>,
    scope: &mut Variables<'a>,
    head: &'a tree::ForHead,
) -> Result<ForHead, AllocError>
    requires { IsNumbered naming }
    ensures head { IfOk result (λ made. head_of made ≡ resolved_head (naming_held naming.entry) scope.old (named_head head.now)) }
    ensures scope { OnOk result (scope.new ≡ behind_start (naming_held naming.entry).tables scope.old (named_start head.now.start)) }
{
    let (start, variables) = resolve_start(alloc, naming, scope, &head.start)?;
    let names = NamesHere { naming, scope };
    Ok(ForHead {
        place: head.place,
        start,
        condition: resolve_maybe_condition(alloc, names, &head.condition)?,
        last: resolve_maybe_simple(alloc, names, &head.last)?,
        variables,
    })
}
