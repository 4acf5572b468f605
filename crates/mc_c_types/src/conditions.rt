// The faults of conditions.
use crate::expressions::{VisibleNames, first_place};
use crate::faults::FaultName;
use crate::told::FirstFault;
use mc_base::stack::Stack;
use mc_c_syntax::ast::{Comparison, Condition, Expression};
use std::alloc::{AllocError, Global};

impl<'s, 'a> VisibleNames<'s, 'a> {
    ghost use Rattle.std.specs.Prelude.{◌≡◌, ◌∷◌, ◌++◌, ◌+◌, ◌<◌, OnOk};
    ghost use Rattle.mc_c_syntax.specs.declared.ast.trees.Comparison.TheVariants.{Equal, Below};
    ghost use Rattle.mc_c_syntax.specs.Ast.Trees.{compare};
    ghost use Rattle.mc_c_syntax.specs.Ast.Views.{expression_of, condition_of};
    ghost use Rattle.mc_c_types.specs.Faults.{comparison_faults, condition_faults};
    ghost use Rattle.mc_c_types.specs.First.{told_of};
    ghost use Rattle.mc_c_types.specs.Held.{tables_held, variables_held, conditions_faults};
    ghost use Rattle.mc_c_types.specs.Sizes.{condition_size, conditions_size};

    /// Notes that two expressions can't be compared by `==`.
    fn want_comparable(&self, told: &mut FirstFault, left: &Expression, right: &Expression)
        ensures { told.new.fault ≡ told_of told.old.fault
            (comparison_faults (tables_held self.now.tables.now) (variables_held self.now.scope.now) Equal
            (expression_of left.now) (expression_of right.now)) }
    {
        if !self.value_type(left).is_comparable(self.value_type(right)) {
            told.note(FaultName::Mismatch, first_place(right));
        }
    }

    /// Notes that two expressions are no `int`s.
    fn want_ints(&self, told: &mut FirstFault, left: &Expression, right: &Expression)
        ensures { told.new.fault ≡ told_of told.old.fault
            (comparison_faults (tables_held self.now.tables.now) (variables_held self.now.scope.now) Below
            (expression_of left.now) (expression_of right.now)) }
    {
        self.want_int(told, left);
        self.want_int(told, right);
    }

    /// Notes that two expressions can't be compared so.
    fn check_comparison(
        &self,
        told: &mut FirstFault,
        comparison: Comparison,
        left: &Expression,
        right: &Expression,
    )
        ensures { told.new.fault ≡ told_of told.old.fault
            (comparison_faults (tables_held self.now.tables.now) (variables_held self.now.scope.now) comparison
            (expression_of left.now) (expression_of right.now)) }
    {
        match comparison {
            Comparison::Equal => self.want_comparable(told, left, right),
            Comparison::Unequal => self.want_comparable(told, left, right),
            Comparison::Below => self.want_ints(told, left, right),
            Comparison::AtMost => self.want_ints(told, left, right),
            Comparison::Above => self.want_ints(told, left, right),
            Comparison::AtLeast => self.want_ints(told, left, right),
        }
    }

    /// Notes the faults of a comparison.
    fn check_compared(
        &self,
        alloc: Global,
        told: &mut FirstFault,
        comparison: Comparison,
        left: &Expression,
        right: &Expression,
    ) -> Result<(), AllocError>
        ensures { OnOk result (told.new.fault
            ≡ told_of told.old.fault
            (condition_faults (tables_held self.now.tables.now) (variables_held self.now.scope.now)
            (compare comparison (expression_of left.now) (expression_of right.now)))) }
    {
        self.check_expression(alloc, told, left)?;
        self.check_expression(alloc, told, right)?;
        self.check_comparison(told, comparison, left, right);
        Ok(())
    }

    /// Notes the faults of a condition itself, and keeps what is in it for later.
    fn visit_condition<'c>(
        &self,
        alloc: Global,
        told: &mut FirstFault,
        stack: &mut Stack<&'c Condition>,
        current: &'c Condition,
    ) -> Result<(), AllocError>
        ensures told { OnOk result (told_of told.new.fault
            (conditions_faults (tables_held self.now.tables.now) (variables_held self.now.scope.now) stack.new)
            ≡ told_of told.old.fault (condition_faults (tables_held self.now.tables.now)
            (variables_held self.now.scope.now) (condition_of current.now) ++ conditions_faults
            (tables_held self.now.tables.now) (variables_held self.now.scope.now) stack.old)) }
        ensures less { OnOk result (conditions_size stack.new < condition_size (condition_of current.now) + conditions_size stack.old) }
    {
        match current {
            Condition::Plain(expression) => {
                self.check_expression(alloc, told, expression)?;
                Ok(())
            }
            Condition::Compare(comparison, left, right) => {
                self.check_compared(alloc, told, *comparison, left, right)?;
                Ok(())
            }
            Condition::Not(_, inner) => {
                stack.push(inner)?;
                Ok(())
            }
            Condition::Parens(_, inner) => {
                stack.push(inner)?;
                Ok(())
            }
            Condition::Both(left, right) => {
                keep_both(stack, left, right)?;
                Ok(())
            }
            Condition::Either(left, right) => {
                keep_both(stack, left, right)?;
                Ok(())
            }
        }
    }

    /// Notes the faults of a condition.
    pub fn check_condition(
        &self,
        alloc: Global,
        told: &mut FirstFault,
        condition: &Condition,
    ) -> Result<(), AllocError>
        ensures { OnOk result (told.new.fault
            ≡ told_of told.old.fault
            (condition_faults (tables_held self.now.tables.now) (variables_held self.now.scope.now)
            (condition_of condition.now))) }
    {
        let mut stack = Stack::new(alloc);
        stack.push(condition)?;
        while let Some(current) = stack.pop() {
            self.visit_condition(alloc, told, &mut stack, current)?;
        }
        Ok(())
    }
}

ghost use Rattle.std.specs.Prelude.{◌≡◌, ◌∷◌, OnOk};

/// Keeps two conditions, the left one on top.
fn keep_both<'c>(
    stack: &mut Stack<&'c Condition>,
    left: &'c Condition,
    right: &'c Condition,
) -> Result<(), AllocError>
    ensures { OnOk result (stack.new ≡ left.entry ∷ right.entry ∷ stack.old) }
{
    stack.push(right)?;
    stack.push(left)
}
