// The types and the faults of expressions.
use crate::faults::FaultName;
use crate::scope::Visible;
use crate::tables::NameTables;
use crate::told::FirstFault;
use crate::types::{ValueType, VariableType};
use mc_base::stack::Stack;
use mc_base::text::Place;
use mc_c_syntax::ast::{Expression, LeftValue, Name};
use std::alloc::{AllocError, Global};

/// What names mean at one point of a program.
#[derive(Clone, Copy)]
pub struct VisibleNames<'s, 'a> {
    pub tables: &'s NameTables<'a>,
    pub scope: &'s Visible<'a>,
}

ghost use Rattle.std.specs.Prelude.{◌≡◌};
ghost use Rattle.mc_c_syntax.specs.Ast.Views.{expression_of};
ghost use Rattle.mc_c_types.specs.Faults.{first_place};

/// The place of the first token of an expression.
pub fn first_place(expression: &Expression) -> Place
    ensures { result ≡ first_place (expression_of expression.now) }
{
    let mut current = expression;
    loop {
        match current {
            Expression::Number(_, place) => return *place,
            Expression::Null(place) => return *place,
            Expression::Input(place) => return *place,
            Expression::Value(left) => return left.name.place,
            Expression::Minus(place, _) => return *place,
            Expression::Parens(place, _) => return *place,
            Expression::Times(left, _) => current = left,
            Expression::Plus(left, _) => current = left,
            Expression::Difference(left, _) => current = left,
        }
    }
}

impl<'s, 'a> VisibleNames<'s, 'a> {
    ghost use Rattle.std.specs.Prelude.{OnOk, [], ◌∷◌, ◌++◌, ◌+◌, ◌<◌};
    ghost use Rattle.mc_c_syntax.specs.Ast.Views.{left_of};
    ghost use Rattle.mc_c_types.specs.Faults.{variable_type, variable_faults, left_type, left_faults, value_type, no_int, no_pointer, no_fit, expression_faults, behind_fields, field_faults};
    ghost use Rattle.mc_c_types.specs.First.{told_of};
    ghost use Rattle.mc_c_types.specs.Held.{tables_held, variables_held, expressions_faults};
    ghost use Rattle.mc_c_types.specs.Sizes.{expression_size, expressions_size};

    /// The type of a variable.
    pub fn variable_type(&self, name: &Name) -> VariableType
        ensures { result ≡ variable_type (variables_held self.now.scope.now) name.now }
    {
        match self.scope.type_in(&name.text) {
            None => VariableType::Anything,
            Some(found) => found,
        }
    }

    /// Notes that a variable is not visible.
    pub fn check_variable(&self, told: &mut FirstFault, name: &Name)
        ensures { told.new.fault ≡ told_of told.old.fault (variable_faults (variables_held self.now.scope.now) name.now) }
    {
        told.unless(
            self.scope.type_in(&name.text).is_some(),
            FaultName::Unknown,
            name.place,
        );
    }

    /// The type after a field, and anything where it is not there.
    fn behind_field(&self, pointer: VariableType, field: &Name) -> VariableType
        ensures { result ≡ behind_fields (tables_held self.now.tables.now) pointer (field.now ∷ []) }
    {
        match self.tables.field_in(pointer, &field.text) {
            None => VariableType::Anything,
            Some(found) => found,
        }
    }

    /// The type after all these fields.
    fn behind_fields(&self, start: VariableType, fields: &[Name]) -> VariableType
        ensures { result ≡ behind_fields (tables_held self.now.tables.now) start fields.now }
    {
        let mut found = start;
        for field in fields {
            found = self.behind_field(found, field);
        }
        found
    }

    /// Notes which of these fields are not there.
    fn check_fields(&self, told: &mut FirstFault, start: VariableType, fields: &[Name])
        ensures { told.new.fault ≡ told_of told.old.fault (field_faults (tables_held self.now.tables.now) start fields.now) }
    {
        let mut found = start;
        for field in fields {
            told.unless(
                self.tables.field_in(found, &field.text).is_some(),
                FaultName::Unknown,
                field.place,
            );
            found = self.behind_field(found, field);
        }
    }

    /// The type of a variable or of a field after it.
    pub fn left_type(&self, left: &LeftValue) -> VariableType
        ensures { result ≡ left_type (tables_held self.now.tables.now) (variables_held self.now.scope.now) (left_of left.now) }
    {
        self.behind_fields(self.variable_type(&left.name), left.fields.as_slice())
    }

    /// Notes that a variable is not visible, and that fields are not there.
    pub fn check_left(&self, told: &mut FirstFault, left: &LeftValue)
        ensures { told.new.fault ≡ told_of told.old.fault
            (left_faults (tables_held self.now.tables.now) (variables_held self.now.scope.now) (left_of left.now)) }
    {
        self.check_variable(told, &left.name);
        self.check_fields(told, self.variable_type(&left.name), left.fields.as_slice());
    }

    /// What an expression can be.
    pub fn value_type(&self, expression: &Expression) -> ValueType
        ensures { result ≡ value_type (tables_held self.now.tables.now) (variables_held self.now.scope.now) (expression_of expression.now) }
    {
        let mut current = expression;
        loop {
            match current {
                Expression::Number(number, _) => return ValueType::of_number(*number),
                Expression::Null(_) => return ValueType::Null,
                Expression::Input(_) => return ValueType::Typed(VariableType::Int),
                Expression::Value(left) => return ValueType::Typed(self.left_type(left)),
                Expression::Minus(_, _) => return ValueType::Typed(VariableType::Int),
                Expression::Parens(_, inner) => current = inner,
                Expression::Times(_, _) => return ValueType::Typed(VariableType::Int),
                Expression::Plus(_, _) => return ValueType::Typed(VariableType::Int),
                Expression::Difference(_, _) => return ValueType::Typed(VariableType::Int),
            }
        }
    }

    /// Notes that an expression is no `int`.
    pub fn want_int(&self, told: &mut FirstFault, expression: &Expression)
        ensures { told.new.fault ≡ told_of told.old.fault
            (no_int (tables_held self.now.tables.now) (variables_held self.now.scope.now)
            (expression_of expression.now)) }
    {
        if !self.value_type(expression).is_int() {
            told.note(FaultName::Mismatch, first_place(expression));
        }
    }

    /// Notes that an expression is no pointer.
    pub fn want_pointer(&self, told: &mut FirstFault, expression: &Expression)
        ensures { told.new.fault ≡ told_of told.old.fault
            (no_pointer (tables_held self.now.tables.now) (variables_held self.now.scope.now)
            (expression_of expression.now)) }
    {
        if !self.value_type(expression).is_pointer() {
            told.note(FaultName::Mismatch, first_place(expression));
        }
    }

    /// Notes that an expression does not fit where a type is wanted.
    pub fn want_type(&self, told: &mut FirstFault, wanted: VariableType, expression: &Expression)
        ensures { told.new.fault ≡ told_of told.old.fault
            (no_fit (tables_held self.now.tables.now) (variables_held self.now.scope.now) wanted
            (expression_of expression.now)) }
    {
        if !wanted.takes(self.value_type(expression)) {
            told.note(FaultName::Mismatch, first_place(expression));
        }
    }

    /// Notes that operands are no `int`s, and keeps them for later.
    fn visit_operands<'e>(
        &self,
        told: &mut FirstFault,
        stack: &mut Stack<&'e Expression>,
        left: &'e Expression,
        right: &'e Expression,
    ) -> Result<(), AllocError>
        ensures told { told.new.fault ≡ told_of
            (told_of told.old.fault (no_int (tables_held self.now.tables.now) (variables_held self.now.scope.now)
            (expression_of left.now)))
            (no_int (tables_held self.now.tables.now) (variables_held self.now.scope.now) (expression_of right.now)) }
        ensures kept { OnOk result (stack.new ≡ left.entry ∷ right.entry ∷ stack.old) }
    {
        self.want_int(told, left);
        self.want_int(told, right);
        stack.push(right)?;
        stack.push(left)
    }

    /// Notes the faults of an expression itself, and keeps what is in it for later.
    fn visit<'e>(
        &self,
        told: &mut FirstFault,
        stack: &mut Stack<&'e Expression>,
        current: &'e Expression,
    ) -> Result<(), AllocError>
        ensures told { OnOk result (told_of told.new.fault
            (expressions_faults (tables_held self.now.tables.now) (variables_held self.now.scope.now) stack.new)
            ≡ told_of told.old.fault (expression_faults (tables_held self.now.tables.now)
            (variables_held self.now.scope.now) (expression_of current.now) ++ expressions_faults
            (tables_held self.now.tables.now) (variables_held self.now.scope.now) stack.old)) }
        ensures less { OnOk result (expressions_size stack.new < expression_size (expression_of current.now) + expressions_size stack.old) }
    {
        match current {
            Expression::Number(_, _) => Ok(()),
            Expression::Null(_) => Ok(()),
            Expression::Input(_) => Ok(()),
            Expression::Value(left) => {
                self.check_left(told, left);
                Ok(())
            }
            Expression::Minus(_, inner) => {
                self.want_int(told, inner);
                stack.push(inner)?;
                Ok(())
            }
            Expression::Parens(_, inner) => {
                stack.push(inner)?;
                Ok(())
            }
            Expression::Times(left, right) => {
                self.visit_operands(told, stack, left, right)?;
                Ok(())
            }
            Expression::Plus(left, right) => {
                self.visit_operands(told, stack, left, right)?;
                Ok(())
            }
            Expression::Difference(left, right) => {
                self.visit_operands(told, stack, left, right)?;
                Ok(())
            }
        }
    }

    /// Notes the faults of an expression.
    pub fn check_expression(
        &self,
        alloc: Global,
        told: &mut FirstFault,
        expression: &Expression,
    ) -> Result<(), AllocError>
        ensures { OnOk result (told.new.fault
            ≡ told_of told.old.fault
            (expression_faults (tables_held self.now.tables.now) (variables_held self.now.scope.now)
            (expression_of expression.now))) }
    {
        let mut stack = Stack::new(alloc);
        stack.push(expression)?;
        while let Some(current) = stack.pop() {
            self.visit(told, &mut stack, current)?;
        }
        Ok(())
    }
}
