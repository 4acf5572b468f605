// Statements that are lowered at once: no statement stands inside, and nothing of them may be a call.
ghost use Rattle.std.specs.Prelude.{◌≡◌, [], IfOk, IsSome, OnOk, map};
ghost use Rattle.mc_lower_spec.specs.Length.Lengths.{declared};
ghost use Rattle.mc_flow.specs.declared.instr.Instr.TheVariants.{AssertEmpty as EmptinessAsserted};
ghost use Rattle.mc_lower_spec.specs.Graphs.{Appends, plain};
ghost use Rattle.mc_lower_spec.specs.Lowering.{AreArguments, Lowers};
ghost use Rattle.mc_semantics.specs.Resolved.Programs.{assert_shape, assume_shape, break_loop, continue_loop};
ghost use Rattle.mc_semantics.specs.Resolved.Views.{argument_of, condition_of, statement_of};
ghost use Rattle.mc_lower.specs.Left.{Checks, IsCommand, around_of};
ghost use Rattle.mc_lower.specs.Knowns.{IsOpen, IsThere, Keeps, known};
ghost use Rattle.mc_lower.specs.Ready.{AreArgumentsReady, FitsStatement, IsArgumentReady, IsTestReady};
ghost use Rattle.mc_lower.specs.Worlds.{Agrees, Leads, World, role_of, settled, stage_of};

use crate::builder::{BuildFault, Builder, Role};
use crate::conditions::Ways;
use crate::tasks::Context;
use crate::values::Site;
use mc_base::Items;
use mc_base::text::Place;
use mc_flow::{Instr, Operand};
use mc_semantics::resolved::{Argument, AssertShape, AssumeShape, Condition, Statement};

impl<'a> Builder<'a> {
    // Where the condition is false, there is a Fail, or an End that is a stop.
    fn check(
        &mut self,
        place: Place,
        condition: &Condition,
        role: Role,
        otherwise: Instr,
        occurrence: usize,
    ) -> Result<(), BuildFault>
        requires { IsTestReady (known self.old) occurrence (condition_of condition.now) }
        ensures same { OnOk result (Keeps self.old self.new) }
        ensures leads { OnOk result (Leads
            (λ w s u. Checks w.graph (w.out occurrence) (role_of role) place (settled w.at otherwise)
            (condition_of condition.now) s u) self.old self.new) }
    {
        let yes = self.label()?;
        let no = self.label()?;
        self.test(occurrence, condition, Ways { yes, no })?;
        self.put_last(role, place, otherwise)?;
        Ok(())
    }

    // The operands of a shape's arguments.
    fn arguments(
        &self,
        occurrence: usize,
        arguments: &[Argument],
    ) -> Result<Items<Operand>, BuildFault>
        requires { AreArgumentsReady (known self.now) occurrence (map argument_of arguments.now) }
        ensures { IfOk result (λ os. (w : World) → Agrees w self.now
            → AreArguments w.graph (w.out occurrence) (stage_of w self.now) (map argument_of arguments.now) os) }
    {
        let mut operands = Vec::new(self.alloc);
        for at in 0..arguments.len() {
            let operand = self.argument(occurrence, arguments[at]);
            operands.push(operand)?;
        }
        Ok(Items::of(operands))
    }

    // `assume_shape`.
    fn assume_shape(&mut self, shape: &AssumeShape, context: Context<'a>) -> Result<(), BuildFault>
        requires there { IsThere (known self.old) context.occurrence shape.now.variable }
        requires arguments { AreArgumentsReady (known self.old) context.occurrence (map argument_of shape.now.arguments.items) }
        ensures same { OnOk result (Keeps self.old self.new) }
        ensures leads { OnOk result (Leads
            (λ w s u. Lowers w.graph (around_of w context.entry)
            (assume_shape shape.now.place shape.now.predicate shape.now.variable
            (map argument_of shape.now.arguments.items)) s u) self.old self.new) }
    {
        let occurrence = context.occurrence;
        let variable = self.local(occurrence, shape.variable);
        let operands = self.arguments(occurrence, shape.arguments.as_slice())?;
        let next = self.next();
        let code = Instr::AssumeShape(shape.predicate, variable, operands, next.target());
        self.append(Role::Plain, shape.place, code)?;
        Ok(())
    }

    // `assert_shape`.
    fn assert_shape(&mut self, shape: &AssertShape, context: Context<'a>) -> Result<(), BuildFault>
        requires start { IsArgumentReady (known self.old) context.occurrence (argument_of shape.now.start) }
        requires arguments { AreArgumentsReady (known self.old) context.occurrence (map argument_of shape.now.arguments.items) }
        ensures same { OnOk result (Keeps self.old self.new) }
        ensures leads { OnOk result (Leads
            (λ w s u. Lowers w.graph (around_of w context.entry)
            (assert_shape shape.now.place shape.now.predicate (argument_of shape.now.start)
            (map argument_of shape.now.arguments.items)) s u) self.old self.new) }
    {
        let occurrence = context.occurrence;
        let start = self.argument(occurrence, shape.start);
        let operands = self.arguments(occurrence, shape.arguments.as_slice())?;
        let next = self.next();
        let code = Instr::AssertShape(shape.predicate, start, operands, next.target());
        self.append(Role::Plain, shape.place, code)?;
        Ok(())
    }

    // `assert_empty`.
    fn assert_empty(&mut self, place: Place) -> Result<(), BuildFault>
        ensures same { OnOk result (Keeps self.old self.new) }
        ensures leads { OnOk result (Leads (λ w s u. Appends w.graph plain place (λ q. EmptinessAsserted q) s u) self.old self.new) }
    {
        let next = self.next();
        self.append(Role::Plain, place, Instr::AssertEmpty(next.target()))?;
        Ok(())
    }

    // `break` and `continue`: the variables of the blocks that are left become undefined.
    fn break_loop(&mut self, place: Place, context: Context<'a>) -> Result<(), BuildFault>
        requires turns { IsSome context.turns }
        requires open { IsOpen (known self.old) context.block }
        ensures same { OnOk result (Keeps self.old self.new) }
        ensures leads { OnOk result (Leads
            (λ w s u. Lowers w.graph (around_of w context.entry) (break_loop place) s u) self.old self.new) }
    {
        let Some(turns) = context.turns else {
            unreachable!();
        };
        self.leave_blocks(place, context.occurrence, context.block)?;
        self.go(turns.exit)?;
        Ok(())
    }

    fn continue_loop(&mut self, place: Place, context: Context<'a>) -> Result<(), BuildFault>
        requires turns { IsSome context.turns }
        requires open { IsOpen (known self.old) context.block }
        ensures same { OnOk result (Keeps self.old self.new) }
        ensures leads { OnOk result (Leads
            (λ w s u. Lowers w.graph (around_of w context.entry) (continue_loop place) s u) self.old self.new) }
    {
        let Some(turns) = context.turns else {
            unreachable!();
        };
        self.leave_blocks(place, context.occurrence, context.block)?;
        self.go(turns.turn)?;
        Ok(())
    }

    /// A statement that needs nothing else is lowered.
    pub fn command(&mut self, statement: &Statement, context: Context<'a>) -> Result<(), BuildFault>
        requires is_command { IsCommand (statement_of statement.now) }
        requires fits { FitsStatement (known self.old) context (statement_of statement.now) }
        ensures none { OnOk result (declared (statement_of statement.now) ≡ []) }
        ensures same { OnOk result (Keeps self.old self.new) }
        ensures leads { OnOk result (Leads
            (λ w s u. Lowers w.graph (around_of w context.entry)
            (statement_of statement.now) s u) self.old self.new) }
    {
        let occurrence = context.occurrence;
        match statement {
            Statement::Free(place, pointer) => {
                let site = Site {
                    occurrence,
                    place: *place,
                };
                self.free(site, pointer)?;
                Ok(())
            }
            Statement::Assert(place, condition) => {
                self.check(*place, condition, Role::Plain, Instr::Fail, occurrence)?;
                Ok(())
            }
            Statement::Assume(place, condition) => {
                self.check(*place, condition, Role::Stop, Instr::End, occurrence)?;
                Ok(())
            }
            Statement::AssumeShape(shape) => {
                self.assume_shape(shape, context)?;
                Ok(())
            }
            Statement::AssertShape(shape) => {
                self.assert_shape(shape, context)?;
                Ok(())
            }
            Statement::AssertEmpty(place) => {
                self.assert_empty(*place)?;
                Ok(())
            }
            Statement::Break(place) => {
                self.break_loop(*place, context)?;
                Ok(())
            }
            Statement::Continue(place) => {
                self.continue_loop(*place, context)?;
                Ok(())
            }
            _ => unreachable!(),
        }
    }
}
