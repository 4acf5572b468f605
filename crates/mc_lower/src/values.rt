// The points that compute the values of expressions.
ghost use Rattle.std.specs.Prelude.{List, ◌≡◌, ◌<◌, ◌∷◌, IfOk, OnOk, length, map, pos, suc};
ghost use Rattle.mc_flow.specs.Valid.{field_kind};
ghost use Rattle.mc_lower.specs.Knowns.{Keeps, known};
ghost use Rattle.mc_lower.specs.Ready.{AreReady, HasKind, HaveKinds, IsArgumentReady, IsNamed, IsReady, IsWorkReady};
ghost use Rattle.mc_flow.specs.declared.instr.Operand.TheVariants.{Const};
ghost use Rattle.mc_base.specs.declared.ids.VarId.{VarId};
ghost use Rattle.mc_flow.specs.declared.instr.Operand.{Operand};
ghost use Rattle.mc_lower_spec.specs.Graphs.{Appends, Stage, plain};
ghost use Rattle.mc_lower_spec.specs.Lowering.{IsArgument};
ghost use Rattle.mc_lower_spec.specs.Values.{Evaluates, EvaluatesAll, IsOfKind, Takes, Walks, sets};
ghost use Rattle.mc_semantics.specs.Resolved.Programs.{value};
ghost use Rattle.mc_semantics.specs.Resolved.Views.{argument_of, expression_of, field_of, left_of};
ghost use Rattle.mc_lower.specs.Valued.{Finishes, IsOperand, IsValue, JoinsParts, Made, joined, operation_of, target_of};
ghost use Rattle.mc_lower.specs.Worlds.{Agrees, Leads, World, stage_of};
ghost use Rattle.mc_lower.specs.declared.values.Work.TheVariants.{Join, Whole};

use crate::builder::{BuildFault, Builder, Role};
use mc_base::stack::Stack;
use mc_base::text::Place;
use mc_base::{Kind, PointId, VarId};
use mc_flow::defs::Structs;
use mc_flow::{Instr, Operand};
use mc_semantics::resolved::{Argument, Expression, FieldAt, LeftValue};

/// Where a statement stands: in an occurrence of a function, at a place.
#[derive(Clone, Copy)]
pub struct Site {
    pub occurrence: usize,
    pub place: Place,
}

/// A variable by its number among those of its function, and the fields after it.
#[derive(Clone, Copy)]
pub struct Target<'a> {
    pub variable: usize,
    pub fields: &'a [FieldAt],
}

impl<'a> Target<'a> {
    /// What a left side names.
    pub fn of(left: &'a LeftValue) -> Target<'a>
        ensures { target_of result ≡ left_of left.now }
    {
        Target {
            variable: left.variable,
            fields: left.fields.as_slice(),
        }
    }
}

/// What an instruction sets its variable to: an input, a field after a variable, or what comes of two operands.
#[derive(Clone, Copy)]
pub enum Operation {
    Input,
    Field(VarId, FieldAt),
    Sum(Operand, Operand),
    Difference(Operand, Operand),
    Product(Operand, Operand),
}

impl Operation {
    // The instruction that sets a variable to it.
    fn sets(self, variable: VarId, next: PointId) -> Instr
        ensures { result ≡ sets (operation_of self) variable next }
    {
        match self {
            Operation::Input => Instr::Input(variable, next),
            Operation::Field(base, field) => {
                Instr::Load(variable, base, field.shape, field.field as u64, next)
            }
            Operation::Sum(a, b) => Instr::Add(variable, a, b, next),
            Operation::Difference(a, b) => Instr::Sub(variable, a, b, next),
            Operation::Product(a, b) => Instr::Mul(variable, a, b, next),
        }
    }
}

/// A value: an operand, or what one instruction more comes to.
#[derive(Clone, Copy)]
pub enum Value {
    Ready(Operand),
    Computed(Kind, Operation),
}

/// How two values are joined.
#[derive(Clone, Copy)]
pub enum How {
    Times,
    Plus,
    Difference,
}

impl How {
    /// The operation on two operands.
    pub fn of(self, left: Operand, right: Operand) -> Operation
        ensures { operation_of result ≡ joined self left right }
    {
        match self {
            How::Times => Operation::Product(left, right),
            How::Plus => Operation::Sum(left, right),
            How::Difference => Operation::Difference(left, right),
        }
    }
}

// What is still to be evaluated: a whole expression, or what is done last with its parts.
#[derive(Clone, Copy)]
pub enum Work<'e> {
    Whole(&'e Expression),
    Minus,
    Join(How),
}

// Both parts are next, the left one first, and then they are joined.
fn enter_join<'e>(
    work: &mut Stack<Work<'e>>,
    how: How,
    left: &'e Expression,
    right: &'e Expression,
) -> Result<(), BuildFault>
    ensures { OnOk result (work.new ≡ Whole left.entry ∷ Whole right.entry ∷ Join how ∷ work.old) }
{
    work.push(Work::Join(how))?;
    work.push(Work::Whole(right))?;
    work.push(Work::Whole(left))?;
    Ok(())
}

// The operand that was made last.
fn last_made(made: &mut Stack<Operand>) -> Operand
    requires { 0 < length made.old }
    ensures { made.old ≡ result ∷ made.new }
{
    match made.pop() {
        Some(operand) => operand,
        None => unreachable!(),
    }
}

// The operand that is a number of a program.
fn number_of(number: u32) -> Operand
    ensures { result ≡ Const (pos number) }
{
    Operand::Const(i64::from(number))
}

// The operand that is a constant.
fn constant(value: i64) -> Operand
    ensures { result ≡ Const value }
{
    Operand::Const(value)
}

/// The operand 0.
pub fn nothing() -> Operand
    ensures { result ≡ Const (pos 0) }
{
    Operand::Const(0)
}

// The kind of a field.
fn kind_of(structs: &Structs, field: FieldAt) -> Option<Kind>
    ensures { result ≡ field_kind structs.now field.shape field.field }
{
    let info = structs.list.get(field.shape.0 as usize)?;
    info.fields.get(field.field).map(|field| field.kind)
}

impl<'a> Builder<'a> {
    // A variable is set to what an operation comes to.
    pub fn set(
        &mut self,
        place: Place,
        variable: VarId,
        operation: Operation,
    ) -> Result<(), BuildFault>
        ensures same { OnOk result (Keeps self.old self.new) }
        ensures leads { OnOk result (Leads
            (λ w s u. Appends w.graph plain place
            (λ q. sets (operation_of operation) variable q) s u) self.old self.new) }
    {
        let next = self.next();
        self.append(Role::Plain, place, operation.sets(variable, next.target()))?;
        Ok(())
    }

    /// The next temporary of a statement gets what an operation comes to.
    pub fn take(
        &mut self,
        place: Place,
        kind: Kind,
        operation: Operation,
        temporaries: &mut Vec<VarId>,
    ) -> Result<VarId, BuildFault>
        ensures same { OnOk result (Keeps self.old self.new) }
        ensures leads { IfOk result (λ t. (w : World) → Agrees w self.new → Agrees w self.old
            × Takes w.graph place kind (operation_of operation) temporaries.old.items
            (stage_of w self.old) t temporaries.new.items (stage_of w self.new)) }
    {
        let variable = self.temporary(temporaries.len(), kind)?;
        self.set(place, variable, operation)?;
        temporaries.push(variable)?;
        Ok(variable)
    }

    /// The kind of a field, which is there.
    pub fn field_kind(&self, field: FieldAt) -> Kind
        requires { HasKind (known self.now).source.structs (field_of field) }
        ensures { (w : World) → Agrees w self.now → IsOfKind w.graph (field_of field) result }
    {
        match kind_of(self.structs, field) {
            Some(kind) => kind,
            None => unreachable!(),
        }
    }

    /// From a variable the fields but the last one are loaded: the variable that has the last one, and that field.
    pub fn walk(
        &mut self,
        place: Place,
        start: VarId,
        fields: &[FieldAt],
        temporaries: &mut Vec<VarId>,
    ) -> Result<(VarId, FieldAt), BuildFault>
        requires some { 0 < length fields.now }
        requires kinds { HaveKinds (known self.old).source.structs (map field_of fields.now) }
        ensures same { OnOk result (Keeps self.old self.new) }
        ensures kind { IfOk result (λ r. HasKind (known self.old).source.structs (field_of r.1)) }
        ensures leads { IfOk result (λ r. (w : World) → Agrees w self.new → Agrees w self.old
            × Walks w.graph place start (map field_of fields.now) temporaries.old.items (stage_of w self.old) r.0
            (field_of r.1) temporaries.new.items (stage_of w self.new)) }
    {
        let mut base = start;
        for at in 0..fields.len() {
            if at + 1 == fields.len() {
                return Ok((base, fields[at]));
            }
            let kind = self.field_kind(fields[at]);
            base = self.take(place, kind, Operation::Field(base, fields[at]), temporaries)?;
        }
        unreachable!()
    }

    // The value of a variable, or of fields after it.
    fn place_value(
        &mut self,
        site: Site,
        left: &LeftValue,
        temporaries: &mut Vec<VarId>,
    ) -> Result<Value, BuildFault>
        requires { IsNamed (known self.old) site.occurrence (left_of left.now) }
        ensures same { OnOk result (Keeps self.old self.new) }
        ensures leads { IfOk result (λ v. (w : World) → Agrees w self.new → Agrees w self.old
            × IsValue w.graph (w.out site.occurrence) site.place (value (left_of left.now)) temporaries.old.items
            (stage_of w self.old) v temporaries.new.items (stage_of w self.new)) }
    {
        let variable = self.local(site.occurrence, left.variable);
        if left.fields.is_empty() {
            return Ok(Value::Ready(Operand::Var(variable)));
        }
        let (base, last) = self.walk(site.place, variable, left.fields.as_slice(), temporaries)?;
        let kind = self.field_kind(last);
        Ok(Value::Computed(kind, Operation::Field(base, last)))
    }

    // A value as an operand: what is computed gets a temporary.
    fn operand_of(
        &mut self,
        place: Place,
        known: Value,
        temporaries: &mut Vec<VarId>,
    ) -> Result<Operand, BuildFault>
        ensures same { OnOk result (Keeps self.old self.new) }
        ensures leads { IfOk result (λ o. (w : World) → Agrees w self.new → Agrees w self.old
            × IsOperand w.graph place known temporaries.old.items (stage_of w self.old) o temporaries.new.items
            (stage_of w self.new)) }
    {
        match known {
            Value::Ready(operand) => Ok(operand),
            Value::Computed(kind, operation) => {
                let variable = self.take(place, kind, operation, temporaries)?;
                Ok(Operand::Var(variable))
            }
        }
    }

    // What an operation comes to is made.
    fn make(
        &mut self,
        place: Place,
        operation: Operation,
        made: &mut Stack<Operand>,
        temporaries: &mut Vec<VarId>,
    ) -> Result<(), BuildFault>
        ensures same { OnOk result (Keeps self.old self.new) }
        ensures more { OnOk result (length made.new ≡ suc (length made.old)) }
        ensures leads { OnOk result ((w : World) → Agrees w self.new → Agrees w self.old
            × Made w.graph place (operation_of operation) temporaries.old.items
            (stage_of w self.old) made.old temporaries.new.items (stage_of w self.new) made.new) }
    {
        let variable = self.take(place, Kind::Int, operation, temporaries)?;
        made.push(Operand::Var(variable))?;
        Ok(())
    }

    // An expression is evaluated, or its parts are next.
    fn enter<'e>(
        &mut self,
        site: Site,
        expression: &'e Expression,
        work: &mut Stack<Work<'e>>,
        made: &mut Stack<Operand>,
        temporaries: &mut Vec<VarId>,
    ) -> Result<(), BuildFault>
        requires ready { IsReady (known self.old) site.occurrence (expression_of expression.now) }
        requires others { IsWorkReady (known self.old) site.occurrence work.old (suc (length made.old)) }
        ensures same { OnOk result (Keeps self.old self.new) }
        ensures ready { OnOk result (IsWorkReady (known self.new) site.occurrence work.new (length made.new)) }
        ensures leads { OnOk result ((w : World) (o : Operand) (ts : List VarId) (u : Stage) → Agrees w self.new
            → Finishes w.graph (w.out site.occurrence) site.place work.new made.new temporaries.new.items
            (stage_of w self.new) o ts u → Agrees w self.old
            × Finishes w.graph (w.out site.occurrence) site.place
            (Whole expression.entry ∷ work.old) made.old temporaries.old.items (stage_of w self.old) o ts u) }
    {
        match expression {
            Expression::Number(number) => {
                made.push(number_of(*number))?;
                Ok(())
            }
            Expression::Input => {
                self.make(site.place, Operation::Input, made, temporaries)?;
                Ok(())
            }
            Expression::Value(left) => {
                let value = self.place_value(site, left, temporaries)?;
                let operand = self.operand_of(site.place, value, temporaries)?;
                made.push(operand)?;
                Ok(())
            }
            Expression::Minus(part) => {
                work.push(Work::Minus)?;
                work.push(Work::Whole(part))?;
                Ok(())
            }
            Expression::Times(left, right) => {
                enter_join(work, How::Times, left, right)?;
                Ok(())
            }
            Expression::Plus(left, right) => {
                enter_join(work, How::Plus, left, right)?;
                Ok(())
            }
            Expression::Difference(left, right) => {
                enter_join(work, How::Difference, left, right)?;
                Ok(())
            }
        }
    }

    // What is next is evaluated, or its parts are next.
    fn evaluate_next<'e>(
        &mut self,
        site: Site,
        next: Work<'e>,
        work: &mut Stack<Work<'e>>,
        made: &mut Stack<Operand>,
        temporaries: &mut Vec<VarId>,
    ) -> Result<(), BuildFault>
        requires { IsWorkReady (known self.old) site.occurrence (next ∷ work.old) (length made.old) }
        ensures same { OnOk result (Keeps self.old self.new) }
        ensures ready { OnOk result (IsWorkReady (known self.new) site.occurrence work.new (length made.new)) }
        ensures leads { OnOk result ((w : World) (o : Operand) (ts : List VarId) (u : Stage) → Agrees w self.new
            → Finishes w.graph (w.out site.occurrence) site.place work.new made.new temporaries.new.items
            (stage_of w self.new) o ts u → Agrees w self.old
            × Finishes w.graph (w.out site.occurrence) site.place
            (next.entry ∷ work.old) made.old temporaries.old.items (stage_of w self.old) o ts u) }
    {
        match next {
            Work::Whole(expression) => {
                self.enter(site, expression, work, made, temporaries)?;
                Ok(())
            }
            Work::Minus => {
                let operand = last_made(made);
                let operation = Operation::Difference(nothing(), operand);
                self.make(site.place, operation, made, temporaries)?;
                Ok(())
            }
            Work::Join(how) => {
                let right = last_made(made);
                let left = last_made(made);
                self.make(site.place, how.of(left, right), made, temporaries)?;
                Ok(())
            }
        }
    }

    /// The value of an expression is an operand; a loop, so that none is too deep.
    pub fn evaluate(
        &mut self,
        site: Site,
        expression: &Expression,
        temporaries: &mut Vec<VarId>,
    ) -> Result<Operand, BuildFault>
        requires { IsReady (known self.old) site.occurrence (expression_of expression.now) }
        ensures same { OnOk result (Keeps self.old self.new) }
        ensures leads { IfOk result (λ o. (w : World) → Agrees w self.new → Agrees w self.old
            × Evaluates w.graph (w.out site.occurrence) site.place
            (expression_of expression.now) temporaries.old.items (stage_of w self.old) o temporaries.new.items
            (stage_of w self.new)) }
    {
        let mut work = Stack::new(self.alloc);
        let mut made = Stack::new(self.alloc);
        work.push(Work::Whole(expression))?;
        'parts: for _ in 0..u64::MAX {
            match work.pop() {
                Some(next) => { self.evaluate_next(site, next, &mut work, &mut made, temporaries)? }
                None => {
                    let operand = last_made(&mut made);
                    return Ok(operand);
                }
            }
        }
        Err(BuildFault::NoMemory)
    }

    // Two parts are evaluated, which an operation joins.
    fn compute_join(
        &mut self,
        site: Site,
        how: How,
        left: &Expression,
        right: &Expression,
        temporaries: &mut Vec<VarId>,
    ) -> Result<Value, BuildFault>
        requires left { IsReady (known self.old) site.occurrence (expression_of left.now) }
        requires right { IsReady (known self.old) site.occurrence (expression_of right.now) }
        ensures same { OnOk result (Keeps self.old self.new) }
        ensures leads { IfOk result (λ v. (w : World) → Agrees w self.new → Agrees w self.old
            × JoinsParts w.graph (w.out site.occurrence) site.place how (expression_of left.now)
            (expression_of right.now) temporaries.old.items (stage_of w self.old) v temporaries.new.items
            (stage_of w self.new)) }
    {
        let left = self.evaluate(site, left, temporaries)?;
        let right = self.evaluate(site, right, temporaries)?;
        Ok(Value::Computed(Kind::Int, how.of(left, right)))
    }

    /// The value of an expression but its last instruction.
    pub fn compute(
        &mut self,
        site: Site,
        expression: &Expression,
        temporaries: &mut Vec<VarId>,
    ) -> Result<Value, BuildFault>
        requires { IsReady (known self.old) site.occurrence (expression_of expression.now) }
        ensures same { OnOk result (Keeps self.old self.new) }
        ensures leads { IfOk result (λ v. (w : World) → Agrees w self.new → Agrees w self.old
            × IsValue w.graph (w.out site.occurrence) site.place
            (expression_of expression.now) temporaries.old.items (stage_of w self.old) v temporaries.new.items
            (stage_of w self.new)) }
    {
        match expression {
            Expression::Number(number) => Ok(Value::Ready(number_of(*number))),
            Expression::Input => Ok(Value::Computed(Kind::Int, Operation::Input)),
            Expression::Value(left) => {
                let value = self.place_value(site, left, temporaries)?;
                Ok(value)
            }
            Expression::Minus(part) => {
                let operand = self.evaluate(site, part, temporaries)?;
                let operation = Operation::Difference(nothing(), operand);
                Ok(Value::Computed(Kind::Int, operation))
            }
            Expression::Times(left, right) => {
                let value = self.compute_join(site, How::Times, left, right, temporaries)?;
                Ok(value)
            }
            Expression::Plus(left, right) => {
                let value = self.compute_join(site, How::Plus, left, right, temporaries)?;
                Ok(value)
            }
            Expression::Difference(left, right) => {
                let value = self.compute_join(site, How::Difference, left, right, temporaries)?;
                Ok(value)
            }
        }
    }

    /// Expressions from left to right.
    pub fn evaluate_all(
        &mut self,
        site: Site,
        expressions: &[Expression],
        temporaries: &mut Vec<VarId>,
    ) -> Result<Vec<Operand>, BuildFault>
        requires { AreReady (known self.old) site.occurrence (map expression_of expressions.now) }
        ensures same { OnOk result (Keeps self.old self.new) }
        ensures count { IfOk result (λ os. length os.items ≡ length expressions.now) }
        ensures leads { IfOk result (λ os. (w : World) → Agrees w self.new → Agrees w self.old
            × EvaluatesAll w.graph (w.out site.occurrence) site.place
            (map expression_of expressions.now) temporaries.old.items
            (stage_of w self.old) os.items temporaries.new.items (stage_of w self.new)) }
    {
        let mut operands = Vec::new(self.alloc);
        for at in 0..expressions.len() {
            let operand = self.evaluate(site, &expressions[at], temporaries)?;
            operands.push(operand)?;
        }
        Ok(operands)
    }

    // The operand of a shape's argument.
    pub fn argument(&self, occurrence: usize, argument: Argument) -> Operand
        requires { IsArgumentReady (known self.now) occurrence (argument_of argument) }
        ensures { (w : World) → Agrees w self.now
            → IsArgument w.graph (w.out occurrence) (stage_of w self.now) (argument_of argument) result }
    {
        match argument {
            Argument::Variable(number) => {
                let variable = self.local(occurrence, number);
                Operand::Var(variable)
            }
            Argument::Constant(value) => constant(value),
        }
    }
}
