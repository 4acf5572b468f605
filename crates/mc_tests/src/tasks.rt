// Small programs, built by hand, and what comes of them step by step.
use mc_base::text::{Place, Text};
use mc_run_values::tasks::{Atom, Decided, Next, Target, Work};
use mc_semantics::resolved::{Condition, Expression, Function, Initial, Local, Statement};
use std::alloc::{AllocError, Global};
use std::test::Fail;

const AT: Place = Place { line: 1, column: 1 };

// What is done, or what is seen then.
enum Act {
    /// The next step is of this form.
    Next(&'static str),
    /// The next step tests this number.
    Tests(u32),
    /// The next step takes this result for a `return`.
    Takes(i64),
    Decide(bool),
    Put(usize, i64),
    Holds(usize, Option<i64>),
}

fn form_of(next: Next) -> &'static str {
    match next {
        Next::Done => "done",
        Next::Declare(_, _) => "declare",
        Next::Simple(_) => "simple",
        Next::Free(_, _) => "free",
        Next::AssumeShape(_) => "assume_shape",
        Next::AssertShape(_) => "assert_shape",
        Next::AssertEmpty(_) => "assert_empty",
        Next::Return(_, _) => "return",
        Next::Test(_) => "test",
        Next::Always => "always",
        Next::TakeResult(_, _) => "take",
        Next::Stuck => "stuck",
    }
}

// The number that is tested.
fn tested(next: Next) -> Option<u32> {
    match next {
        Next::Test(Atom::Plain(_, Expression::Number(number))) => Some(*number),
        _ => None,
    }
}

// The result that is taken for a `return`.
fn taken(next: Next) -> Option<i64> {
    match next {
        Next::TakeResult(Target::Returned(_), value) => value,
        _ => None,
    }
}

// Whether an act goes as it says.
fn goes(work: &mut Work, act: &Act) -> Result<bool, AllocError> {
    match act {
        Act::Next(form) => Ok(form_of(work.arrive()?) == *form),
        Act::Tests(number) => Ok(tested(work.arrive()?) == Some(*number)),
        Act::Takes(value) => Ok(taken(work.arrive()?) == Some(*value)),
        Act::Decide(holds) => Ok(work.decide(*holds)? == Decided::GoesOn),
        Act::Put(variable, value) => {
            work.put_value(*variable, Some(*value));
            Ok(true)
        }
        Act::Holds(variable, value) => Ok(work.held(*variable) == *value),
    }
}

// How many of the acts go as they say, up to the first that does not.
fn count(work: &mut Work, acts: &[Act]) -> Result<usize, AllocError> {
    for (number, act) in acts.iter().enumerate() {
        if !goes(work, act)? {
            return Ok(number);
        }
    }
    Ok(acts.len())
}

// The condition that is this number.
fn number(n: u32) -> Condition {
    Condition::Plain(AT, Expression::Number(n))
}

// A block that declares the second variable, and then has this statement.
fn inner_block(alloc: Global, last: Statement) -> Result<Statement, AllocError> {
    let mut items = Vec::new(alloc);
    items.push(Initial {
        variable: 1,
        value: None,
    })?;
    let mut variables = Vec::new(alloc);
    variables.push(1)?;
    let mut parts = Vec::new(alloc);
    parts.push(Statement::Declaration(AT, items))?;
    parts.push(last)?;
    Ok(Statement::Block(variables, parts))
}

// A function of two variables with this body and an empty-heap command after it.
fn function(alloc: Global, first: Statement) -> Result<Function, AllocError> {
    let mut locals = Vec::new(alloc);
    for _ in 0..2 {
        locals.push(Local {
            name: Text::new(alloc),
            place: AT,
            kind: mc_base::Kind::Int,
        })?;
    }
    let mut body = Vec::new(alloc);
    body.push(first)?;
    body.push(Statement::AssertEmpty(AT))?;
    Ok(Function {
        name: Text::new(alloc),
        locals,
        parameters: 1,
        result: None,
        body,
    })
}

// A function that begins with a loop.
fn looping(alloc: Global, condition: Condition, last: Statement) -> Result<Function, AllocError> {
    let body = Box::new(alloc, inner_block(alloc, last)?)?;
    function(alloc, Statement::While(AT, condition, body))
}

// A condition that is false, since the left side of its `&&` is: the loop goes on.
fn not_both(alloc: Global) -> Result<Condition, AllocError> {
    let left = Box::new(alloc, number(0))?;
    let right = Box::new(alloc, number(1))?;
    let both = Box::new(alloc, Condition::Both(left, right))?;
    Ok(Condition::Not(both))
}

static BREAKS: [Act; 9] = [
    Act::Tests(1),
    Act::Decide(true),
    Act::Next("declare"),
    Act::Put(1, 7),
    Act::Holds(1, Some(7)),
    Act::Next("assert_empty"),
    Act::Holds(1, None),
    Act::Next("done"),
    Act::Next("done"),
];

static CONTINUES: [Act; 6] = [
    Act::Tests(0),
    Act::Decide(false),
    Act::Next("declare"),
    Act::Tests(0),
    Act::Decide(false),
    Act::Next("declare"),
];

static CALLED: [Act; 2] = [Act::Holds(0, Some(5)), Act::Holds(1, None)];

static RETURNED: [Act; 3] = [
    Act::Holds(0, Some(3)),
    Act::Takes(8),
    Act::Next("assert_empty"),
];

// `while (1) { int x; break; }` leaves `x` undefined.
#[test]
fn breaks(rt: HostRuntime) -> Result<(), Fail> {
    let function = looping(rt.alloc(), number(1), Statement::Break(AT))?;
    let mut work = Work::start(rt.alloc(), &function)?;
    assert_eq!(rt; count(&mut work, &BREAKS)?, BREAKS.len());
    Ok(())
}

// `while (!(0 && 1)) { int x; continue; }`: the right side of `&&` is not tested, and the loop comes again.
#[test]
fn continues(rt: HostRuntime) -> Result<(), Fail> {
    let condition = not_both(rt.alloc())?;
    let function = looping(rt.alloc(), condition, Statement::Continue(AT))?;
    let mut work = Work::start(rt.alloc(), &function)?;
    assert_eq!(rt; count(&mut work, &CONTINUES)?, CONTINUES.len());
    Ok(())
}

// A call, from which the function goes back.
#[test]
fn calls(rt: HostRuntime) -> Result<(), Fail> {
    let function = function(rt.alloc(), Statement::Empty)?;
    let mut work = Work::start(rt.alloc(), &function)?;
    work.put_value(0, Some(3));
    work.begin_call(&function, &[5], Target::Returned(AT))?;
    assert_eq!(rt; count(&mut work, &CALLED)?, CALLED.len());
    work.go_back(Some(8))?;
    assert_eq!(rt; count(&mut work, &RETURNED)?, RETURNED.len());
    Ok(())
}
