// The faults of calls and of right sides.
ghost use Rattle.std.specs.Prelude.{◌≡◌};
ghost use Rattle.mc_c_syntax.specs.Ast.Views.{function_of};
ghost use Rattle.mc_c_types.specs.Tables.{listed_parameters};
ghost use Rattle.mc_c_types.specs.Faults.{size_place};

use crate::expressions::VisibleNames;
use crate::faults::FaultName;
use crate::tables::NameTables;
use crate::told::FirstFault;
use crate::types::{BaseType, ValueType, VariableType};
use mc_base::text::Place;
use mc_c_syntax::ast::{
    Base, Call, Cast, Expression, Function, Malloc, Name, Parameter, Parameters, Returned,
    RightSide, Size,
};
use std::alloc::{AllocError, Global};

/// The parameters of a function.
pub fn parameters(function: &Function) -> &[Parameter]
    ensures { result.now ≡ listed_parameters (function_of function.now).parameters }
{
    match &function.parameters {
        Parameters::Empty => &[],
        Parameters::Void(_) => &[],
        Parameters::Listed(listed) => listed.as_slice(),
    }
}

/// The place of the token `sizeof`.
fn size_place(size: &Size) -> Place
    ensures { result ≡ size_place size.now }
{
    match size {
        Size::OfType(place, _) => *place,
        Size::OfParens(place, _) => *place,
        Size::OfValue(place, _) => *place,
    }
}

impl<'a> NameTables<'a> {
    ghost use Rattle.mc_c_types.specs.Tables.{returned_type};
    ghost use Rattle.mc_c_types.specs.Held.{tables_held};
    ghost use Rattle.mc_c_types.specs.Faults.{base_faults, type_faults, cast_faults};
    ghost use Rattle.mc_c_types.specs.First.{told_of};

    /// The type of a function's result, if it has one.
    pub fn returned_type(&self, returned: &Returned) -> Option<VariableType>
        ensures { result ≡ returned_type (tables_held self.now) returned.now }
    {
        match returned {
            Returned::Void(_) => None,
            Returned::Value(base, star) => Some(self.declared(base, *star)),
        }
    }

    /// Notes that a base is not known, or what a pointer points to is not defined.
    pub fn check_base(&self, told: &mut FirstFault, base: &Base, star: Option<Place>)
        ensures { told.new.fault ≡ told_of told.old.fault (base_faults (tables_held self.now) base.now star) }
    {
        match base {
            Base::Int(_) => {}
            Base::Struct(_, name) => {
                told.unless(self.is_known(base, star), FaultName::Unknown, name.place);
            }
            Base::Alias(name) => {
                told.unless(self.is_known(base, star), FaultName::Unknown, name.place);
            }
        }
    }

    /// Notes that a base and perhaps a `*` can't be the type of something.
    pub fn check_type(&self, told: &mut FirstFault, base: &Base, star: Option<Place>, place: Place)
        ensures { told.new.fault ≡ told_of told.old.fault (type_faults (tables_held self.now) base.now star place) }
    {
        self.check_base(told, base, star);
        told.unless(
            self.meaning(base).is_declarable(star),
            FaultName::Mismatch,
            place,
        );
    }

    /// Notes that a cast has not the wanted type.
    pub fn check_cast(&self, told: &mut FirstFault, wanted: VariableType, cast: &Option<Cast>)
        ensures { told.new.fault ≡ told_of told.old.fault (cast_faults (tables_held self.now) wanted cast.now) }
    {
        match cast {
            None => {}
            Some(cast) => {
                self.check_base(told, &cast.base, cast.pointer);
                let meaning = self.meaning(&cast.base);
                told.unless(
                    meaning.is_declarable(cast.pointer)
                        && wanted.agrees(meaning.declared(cast.pointer)),
                    FaultName::Mismatch,
                    cast.place,
                );
            }
        }
    }
}

impl<'s, 'a> VisibleNames<'s, 'a> {
    ghost use Rattle.std.specs.Prelude.{OnOk, map, flat_map, option_map};
    ghost use Rattle.std.specs.Option.{option_copied};
    ghost use Rattle.mc_c_syntax.specs.Ast.Views.{expression_of, call_of, right_of};
    ghost use Rattle.mc_c_syntax.specs.Ast.Trees.{expression as used, result_of, allocation};
    ghost use Rattle.mc_c_types.specs.Faults.{argument_faults, callee_faults, call_faults, call_fits, expression_faults, right_faults, size_meaning, pointed_faults, size_faults};
    ghost use Rattle.mc_c_types.specs.First.{told_of};
    ghost use Rattle.mc_c_types.specs.Held.{tables_held, variables_held};

    /// Notes which arguments do not fit their parameters.
    fn check_arguments(
        &self,
        told: &mut FirstFault,
        parameters: &[Parameter],
        arguments: &[Expression],
    )
        ensures { told.new.fault ≡ told_of told.old.fault
            (argument_faults (tables_held self.now.tables.now) (variables_held self.now.scope.now) parameters.now
            (map expression_of arguments.now)) }
    {
        for (i, argument) in arguments.iter().enumerate() {
            if i < parameters.len() {
                let parameter = &parameters[i];
                let wanted = self
                    .tables
                    .declared(&parameter.base, parameter.declarator.pointer);
                self.want_type(told, wanted, argument);
            }
        }
    }

    /// Notes the faults of expressions.
    fn check_expressions(
        &self,
        alloc: Global,
        told: &mut FirstFault,
        expressions: &[Expression],
    ) -> Result<(), AllocError>
        ensures { OnOk result (told.new.fault
            ≡ told_of told.old.fault (flat_map
            (expression_faults (tables_held self.now.tables.now) (variables_held self.now.scope.now))
            (map expression_of expressions.now))) }
    {
        for expression in expressions {
            self.check_expression(alloc, told, expression)?;
        }
        Ok(())
    }

    /// Notes that a called function is not there, or has other parameters.
    fn check_callee(&self, told: &mut FirstFault, call: &Call, callee: Option<&Function>)
        ensures { told.new.fault ≡ told_of told.old.fault
            (callee_faults (tables_held self.now.tables.now) (variables_held self.now.scope.now) (call_of call.now)
            (option_map function_of (option_copied callee.entry))) }
    {
        match callee {
            None => told.note(FaultName::Unknown, call.function.place),
            Some(function) => {
                let listed = parameters(function);
                let arguments = call.arguments.as_slice();
                told.unless(
                    arguments.len() == listed.len(),
                    FaultName::Arity,
                    call.function.place,
                );
                self.check_arguments(told, listed, arguments);
            }
        }
    }

    /// Notes the faults of a call.
    pub fn check_call(
        &self,
        alloc: Global,
        told: &mut FirstFault,
        call: &Call,
    ) -> Result<(), AllocError>
        ensures { OnOk result (told.new.fault
            ≡ told_of told.old.fault
            (call_faults (tables_held self.now.tables.now) (variables_held self.now.scope.now)
            (call_of call.now))) }
    {
        let callee = self.tables.called_function(&call.function.text);
        self.check_callee(told, call, callee);
        self.check_expressions(alloc, told, call.arguments.as_slice())?;
        Ok(())
    }

    /// Whether the result of a called function fits where a type is wanted.
    fn call_fits(&self, wanted: VariableType, callee: Option<&Function>) -> bool
        ensures { result ≡ call_fits (tables_held self.now.tables.now) wanted (option_map function_of (option_copied callee.entry)) }
    {
        match callee {
            None => true,
            Some(function) => wanted.takes_result(self.tables.returned_type(&function.returned)),
        }
    }

    /// Notes the faults of a call whose result is used.
    fn check_result(
        &self,
        alloc: Global,
        told: &mut FirstFault,
        wanted: VariableType,
        call: &Call,
    ) -> Result<(), AllocError>
        ensures { OnOk result (told.new.fault
            ≡ told_of told.old.fault
            (right_faults (tables_held self.now.tables.now) (variables_held self.now.scope.now) wanted
            (result_of (call_of call.now)))) }
    {
        self.check_call(alloc, told, call)?;
        let callee = self.tables.called_function(&call.function.text);
        told.unless(
            self.call_fits(wanted, callee),
            FaultName::Mismatch,
            call.function.place,
        );
        Ok(())
    }

    /// Notes the faults of an expression that is used where a type is wanted.
    fn check_value(
        &self,
        alloc: Global,
        told: &mut FirstFault,
        wanted: VariableType,
        expression: &Expression,
    ) -> Result<(), AllocError>
        ensures { OnOk result (told.new.fault
            ≡ told_of told.old.fault
            (right_faults (tables_held self.now.tables.now) (variables_held self.now.scope.now) wanted
            (used (expression_of expression.now)))) }
    {
        self.check_expression(alloc, told, expression)?;
        self.want_type(told, wanted, expression);
        Ok(())
    }

    /// What it is that is allocated.
    fn size_meaning(&self, size: &Size) -> BaseType
        ensures { result ≡ size_meaning (tables_held self.now.tables.now) (variables_held self.now.scope.now) size.now }
    {
        match size {
            Size::OfType(_, base) => self.tables.meaning(base),
            Size::OfParens(_, name) => self.variable_type(name).pointed(),
            Size::OfValue(_, name) => self.variable_type(name).pointed(),
        }
    }

    /// Notes that a name is no visible pointer.
    fn check_pointed(&self, told: &mut FirstFault, name: &Name)
        ensures { told.new.fault ≡ told_of told.old.fault (pointed_faults (variables_held self.now.scope.now) name.now) }
    {
        self.check_variable(told, name);
        told.unless(
            ValueType::Typed(self.variable_type(name)).is_pointer(),
            FaultName::Mismatch,
            name.place,
        );
    }

    /// Notes the faults of a size.
    fn check_size(&self, told: &mut FirstFault, size: &Size)
        ensures { told.new.fault ≡ told_of told.old.fault
            (size_faults (tables_held self.now.tables.now) (variables_held self.now.scope.now) size.now) }
    {
        match size {
            Size::OfType(place, base) => self.tables.check_base(told, base, Some(*place)),
            Size::OfParens(_, name) => self.check_pointed(told, name),
            Size::OfValue(_, name) => self.check_pointed(told, name),
        }
    }

    /// Notes the faults of `malloc`.
    fn check_malloc(&self, told: &mut FirstFault, wanted: VariableType, malloc: &Malloc)
        ensures { told.new.fault ≡ told_of told.old.fault
            (right_faults (tables_held self.now.tables.now) (variables_held self.now.scope.now) wanted
            (allocation malloc.now)) }
    {
        self.tables.check_cast(told, wanted, &malloc.cast);
        self.check_size(told, &malloc.size);
        told.unless(
            wanted.takes_memory(self.size_meaning(&malloc.size)),
            FaultName::BadSizeof,
            size_place(&malloc.size),
        );
    }

    /// Notes the faults of a right side where a type is wanted.
    pub fn check_right(
        &self,
        alloc: Global,
        told: &mut FirstFault,
        wanted: VariableType,
        right: &RightSide,
    ) -> Result<(), AllocError>
        ensures { OnOk result (told.new.fault
            ≡ told_of told.old.fault
            (right_faults (tables_held self.now.tables.now) (variables_held self.now.scope.now) wanted
            (right_of right.now))) }
    {
        match right {
            RightSide::Expression(expression) => {
                self.check_value(alloc, told, wanted, expression)
            }
            RightSide::Call(call) => self.check_result(alloc, told, wanted, call),
            RightSide::Malloc(malloc) => {
                self.check_malloc(told, wanted, malloc);
                Ok(())
            }
        }
    }
}
