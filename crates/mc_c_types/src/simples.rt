// The faults of simple statements, and of the parts of other statements.
use crate::expressions::VisibleNames;
use crate::faults::FaultName;
use crate::told::FirstFault;
use crate::types::{ValueType, VariableType};
use mc_base::text::Place;
use mc_c_syntax::ast::{Argument, Condition, Expression, LeftValue, RightSide, Simple};
use std::alloc::{AllocError, Global};

impl<'s, 'a> VisibleNames<'s, 'a> {
    ghost use Rattle.std.specs.Prelude.{◌≡◌, OnOk, flat_map, option_map};
    ghost use Rattle.mc_c_syntax.specs.Ast.Trees.{assign, add};
    ghost use Rattle.mc_c_syntax.specs.Ast.Views.{expression_of, condition_of, left_of, right_of, simple_of};
    ghost use Rattle.mc_c_types.specs.Faults.{changed_faults, simple_faults, value_faults, return_faults, shape_argument_faults, maybe_condition_faults, maybe_simple_faults};
    ghost use Rattle.mc_c_types.specs.First.{told_of};
    ghost use Rattle.mc_c_types.specs.Held.{tables_held, variables_held};

    /// Notes that what `++` and the like change is no `int`.
    fn check_changed(&self, told: &mut FirstFault, left: &LeftValue)
        ensures { told.new.fault ≡ told_of told.old.fault
            (changed_faults (tables_held self.now.tables.now) (variables_held self.now.scope.now)
            (left_of left.now)) }
    {
        self.check_left(told, left);
        told.unless(
            ValueType::Typed(self.left_type(left)).is_int(),
            FaultName::Mismatch,
            left.name.place,
        );
    }

    /// Notes the faults of an assignment.
    fn check_assignment(
        &self,
        alloc: Global,
        told: &mut FirstFault,
        left: &LeftValue,
        right: &RightSide,
    ) -> Result<(), AllocError>
        ensures { OnOk result (told.new.fault
            ≡ told_of told.old.fault
            (simple_faults (tables_held self.now.tables.now) (variables_held self.now.scope.now)
            (assign (left_of left.now) (right_of right.now)))) }
    {
        self.check_left(told, left);
        self.check_right(alloc, told, self.left_type(left), right)?;
        Ok(())
    }

    /// Notes the faults of `+=` and `-=`.
    fn check_addition(
        &self,
        alloc: Global,
        told: &mut FirstFault,
        left: &LeftValue,
        expression: &Expression,
    ) -> Result<(), AllocError>
        ensures { OnOk result (told.new.fault
            ≡ told_of told.old.fault
            (simple_faults (tables_held self.now.tables.now) (variables_held self.now.scope.now)
            (add (left_of left.now) (expression_of expression.now)))) }
    {
        self.check_changed(told, left);
        self.check_expression(alloc, told, expression)?;
        self.want_int(told, expression);
        Ok(())
    }

    /// Notes the faults of a simple statement.
    pub fn check_simple(
        &self,
        alloc: Global,
        told: &mut FirstFault,
        simple: &Simple,
    ) -> Result<(), AllocError>
        ensures { OnOk result (told.new.fault
            ≡ told_of told.old.fault
            (simple_faults (tables_held self.now.tables.now) (variables_held self.now.scope.now)
            (simple_of simple.now))) }
    {
        match simple {
            Simple::Assign(left, right) => self.check_assignment(alloc, told, left, right),
            Simple::Add(left, expression) => self.check_addition(alloc, told, left, expression),
            Simple::Subtract(left, expression) => {
                self.check_addition(alloc, told, left, expression)
            }
            Simple::Increment(left) => {
                self.check_changed(told, left);
                Ok(())
            }
            Simple::Decrement(left) => {
                self.check_changed(told, left);
                Ok(())
            }
            Simple::IncrementFirst(_, left) => {
                self.check_changed(told, left);
                Ok(())
            }
            Simple::DecrementFirst(_, left) => {
                self.check_changed(told, left);
                Ok(())
            }
            Simple::Call(call) => self.check_call(alloc, told, call),
        }
    }

    /// Notes the faults of the first value of a variable, if it has one.
    pub fn check_first_value(
        &self,
        alloc: Global,
        told: &mut FirstFault,
        wanted: VariableType,
        value: &Option<RightSide>,
    ) -> Result<(), AllocError>
        ensures { OnOk result (told.new.fault
            ≡ told_of told.old.fault
            (value_faults (tables_held self.now.tables.now) (variables_held self.now.scope.now) wanted
            (option_map right_of value.now))) }
    {
        match value {
            None => Ok(()),
            Some(right) => self.check_right(alloc, told, wanted, right),
        }
    }

    /// Notes the faults of a `return` in a function with this result.
    pub fn check_return(
        &self,
        alloc: Global,
        told: &mut FirstFault,
        returned: Option<VariableType>,
        place: Place,
        value: &Option<RightSide>,
    ) -> Result<(), AllocError>
        ensures { OnOk result (told.new.fault
            ≡ told_of told.old.fault
            (return_faults (tables_held self.now.tables.now) (variables_held self.now.scope.now) returned place
            (option_map right_of value.now))) }
    {
        match value {
            None => {
                if returned.is_some() {
                    told.note(FaultName::Mismatch, place);
                }
                Ok(())
            }
            Some(right) => match returned {
                None => {
                    told.note(FaultName::Mismatch, place);
                    Ok(())
                }
                Some(wanted) => self.check_right(alloc, told, wanted, right),
            },
        }
    }

    /// Notes that a name among the arguments of a shape command is not visible.
    pub fn check_argument(&self, told: &mut FirstFault, argument: &Argument)
        ensures { told.new.fault ≡ told_of told.old.fault (shape_argument_faults (variables_held self.now.scope.now) argument.now) }
    {
        match argument {
            Argument::Name(name) => self.check_variable(told, name),
            Argument::Null(_) => {}
            Argument::Number(_, _) => {}
            Argument::Negative(_, _) => {}
        }
    }

    /// Notes the faults of a condition that may be missing.
    pub fn check_maybe_condition(
        &self,
        alloc: Global,
        told: &mut FirstFault,
        condition: &Option<Condition>,
    ) -> Result<(), AllocError>
        ensures { OnOk result (told.new.fault
            ≡ told_of told.old.fault
            (maybe_condition_faults (tables_held self.now.tables.now) (variables_held self.now.scope.now)
            (option_map condition_of condition.now))) }
    {
        match condition {
            None => Ok(()),
            Some(condition) => self.check_condition(alloc, told, condition),
        }
    }

    /// Notes the faults of a simple statement that may be missing.
    pub fn check_maybe_simple(
        &self,
        alloc: Global,
        told: &mut FirstFault,
        simple: &Option<Simple>,
    ) -> Result<(), AllocError>
        ensures { OnOk result (told.new.fault
            ≡ told_of told.old.fault
            (maybe_simple_faults (tables_held self.now.tables.now) (variables_held self.now.scope.now)
            (option_map simple_of simple.now))) }
    {
        match simple {
            None => Ok(()),
            Some(simple) => self.check_simple(alloc, told, simple),
        }
    }
}
