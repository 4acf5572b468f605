// The numbers that a program and its definitions name.
use mc_base::NoMemory;
use mc_flow::defs::{Def, DefAtom};
use mc_semantics::resolved::{
    Action, Argument, Condition, Expression, ForHead, ForStart, Initial, Resolved, RightSide,
    Simple, Statement,
};
use std::alloc::Global;

// How many parts of a program are looked at.
const PARTS: usize = 100_000;

// A part of a program that is to be looked at.
#[derive(Clone, Copy)]
enum Part<'a> {
    Statement(&'a Statement),
    Condition(&'a Condition),
    Expression(&'a Expression),
}

// The parts that are left, and the numbers that were found.
#[derive(Drop)]
struct Constants<'a> {
    left: Vec<Part<'a>>,
    numbers: Vec<i64>,
}

impl<'a> Constants<'a> {
    fn add(&mut self, number: i64) -> Result<(), NoMemory> {
        if !self.numbers.as_slice().contains(&number) {
            self.numbers.push(number)?;
        }
        Ok(())
    }

    fn statement(&mut self, statement: &'a Statement) -> Result<(), NoMemory> {
        self.left.push(Part::Statement(statement))?;
        Ok(())
    }

    fn condition(&mut self, condition: &'a Condition) -> Result<(), NoMemory> {
        self.left.push(Part::Condition(condition))?;
        Ok(())
    }

    fn expression(&mut self, expression: &'a Expression) -> Result<(), NoMemory> {
        self.left.push(Part::Expression(expression))?;
        Ok(())
    }

    fn expressions(&mut self, expressions: &'a [Expression]) -> Result<(), NoMemory> {
        for expression in expressions {
            self.expression(expression)?;
        }
        Ok(())
    }

    fn arguments(&mut self, arguments: &[Argument]) -> Result<(), NoMemory> {
        for argument in arguments {
            if let Argument::Constant(value) = argument {
                self.add(*value)?;
            }
        }
        Ok(())
    }

    fn right(&mut self, right: &'a RightSide) -> Result<(), NoMemory> {
        match right {
            RightSide::Expression(expression) => self.expression(expression),
            RightSide::Call(call) => self.expressions(call.arguments.as_slice()),
            RightSide::Malloc(_, _) => Ok(()),
        }
    }

    fn initials(&mut self, items: &'a [Initial]) -> Result<(), NoMemory> {
        for item in items {
            if let Some(right) = &item.value {
                self.right(right)?;
            }
        }
        Ok(())
    }

    fn simple(&mut self, simple: &'a Simple) -> Result<(), NoMemory> {
        match &simple.action {
            Action::Assign(_, right) => self.right(right),
            Action::Add(_, expression) => self.expression(expression),
            Action::Subtract(_, expression) => self.expression(expression),
            Action::Call(call) => self.expressions(call.arguments.as_slice()),
        }
    }

    fn head(&mut self, head: &'a ForHead) -> Result<(), NoMemory> {
        match &head.start {
            ForStart::Nothing => {}
            ForStart::Declaration(_, items) => self.initials(items.as_slice())?,
            ForStart::Simple(simple) => self.simple(simple)?,
        }
        if let Some(condition) = &head.condition {
            self.condition(condition)?;
        }
        if let Some(last) = &head.last {
            self.simple(last)?;
        }
        Ok(())
    }

    // The parts of a statement.
    fn open_statement(&mut self, statement: &'a Statement) -> Result<(), NoMemory> {
        match statement {
            Statement::Declaration(_, items) => self.initials(items.as_slice()),
            Statement::Block(_, statements) => self.statements(statements.as_slice()),
            Statement::Simple(simple) => self.simple(simple),
            Statement::Free(_, expression) => self.expression(expression),
            Statement::Assert(_, condition) => self.condition(condition),
            Statement::Assume(_, condition) => self.condition(condition),
            Statement::AssumeShape(shape) => self.arguments(shape.arguments.as_slice()),
            Statement::AssertShape(shape) => self.arguments(shape.arguments.as_slice()),
            Statement::If(_, condition, part) => self.guarded(condition, part),
            Statement::While(_, condition, part) => self.guarded(condition, part),
            Statement::Do(_, part, condition) => self.guarded(condition, part),
            Statement::IfElse(_, condition, first, second) => {
                self.guarded(condition, first)?;
                self.statement(second)
            }
            Statement::For(head, part) => {
                self.head(head)?;
                self.statement(part)
            }
            Statement::Return(_, value) => match value {
                Some(right) => self.right(right),
                None => Ok(()),
            },
            Statement::Empty => Ok(()),
            Statement::AssertEmpty(_) => Ok(()),
            Statement::Break(_) => Ok(()),
            Statement::Continue(_) => Ok(()),
        }
    }

    fn guarded(&mut self, condition: &'a Condition, part: &'a Statement) -> Result<(), NoMemory> {
        self.condition(condition)?;
        self.statement(part)
    }

    fn statements(&mut self, statements: &'a [Statement]) -> Result<(), NoMemory> {
        for statement in statements {
            self.statement(statement)?;
        }
        Ok(())
    }

    // The parts of a condition.
    fn open_condition(&mut self, condition: &'a Condition) -> Result<(), NoMemory> {
        match condition {
            Condition::Plain(_, expression) => self.expression(expression),
            Condition::Compare(_, _, first, second) => {
                self.expression(first)?;
                self.expression(second)
            }
            Condition::Not(part) => self.condition(part),
            Condition::Both(first, second) => {
                self.condition(first)?;
                self.condition(second)
            }
            Condition::Either(first, second) => {
                self.condition(first)?;
                self.condition(second)
            }
        }
    }

    fn both(&mut self, first: &'a Expression, second: &'a Expression) -> Result<(), NoMemory> {
        self.expression(first)?;
        self.expression(second)
    }

    fn negated(&mut self, part: &'a Expression) -> Result<(), NoMemory> {
        if let Expression::Number(number) = part {
            self.add(0i64.saturating_sub(i64::from(*number)))?;
        }
        self.expression(part)
    }

    // The parts of an expression.
    fn open_expression(&mut self, expression: &'a Expression) -> Result<(), NoMemory> {
        match expression {
            Expression::Number(number) => self.add(i64::from(*number)),
            Expression::Input => Ok(()),
            Expression::Value(_) => Ok(()),
            Expression::Minus(part) => self.negated(part),
            Expression::Times(first, second) => self.both(first, second),
            Expression::Plus(first, second) => self.both(first, second),
            Expression::Difference(first, second) => self.both(first, second),
        }
    }

    fn open(&mut self, part: Part<'a>) -> Result<(), NoMemory> {
        match part {
            Part::Statement(statement) => self.open_statement(statement),
            Part::Condition(condition) => self.open_condition(condition),
            Part::Expression(expression) => self.open_expression(expression),
        }
    }

    fn open_all(&mut self) -> Result<(), NoMemory> {
        for _ in 0..PARTS {
            let Some(part) = self.left.pop() else {
                return Ok(());
            };
            self.open(part)?;
        }
        Ok(())
    }

    // The numbers of definitions.
    fn definitions(&mut self, defs: &[Def]) -> Result<(), NoMemory> {
        for def in defs {
            for rule in def.rules.as_slice() {
                for atom in rule.atoms.as_slice() {
                    self.atom(*atom)?;
                }
            }
        }
        Ok(())
    }

    fn atom(&mut self, atom: DefAtom) -> Result<(), NoMemory> {
        match atom {
            DefAtom::Eq {
                left: _,
                base: _,
                add,
                fixes: _,
            } => self.add(add),
            DefAtom::Ne {
                left: _,
                base: _,
                add,
            } => self.add(add),
            DefAtom::In { left: _, lo, hi } => {
                self.add(lo)?;
                self.add(hi)
            }
        }
    }
}

/// The numbers that a program and its definitions name.
pub fn constants_of(alloc: Global, program: &Resolved, defs: &[Def]) -> Result<Vec<i64>, NoMemory> {
    let mut constants = Constants {
        left: Vec::new(alloc),
        numbers: Vec::new(alloc),
    };
    for function in program.functions.as_slice() {
        constants.statements(function.body.as_slice())?;
    }
    constants.open_all()?;
    constants.definitions(defs)?;
    Ok(constants.numbers)
}
