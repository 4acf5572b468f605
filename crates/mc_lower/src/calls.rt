// Calls, simple statements and declarations are lowered, or what they are made of is next.
ghost use Rattle.std.specs.Prelude.{ℕ, Some, ◌≡◌, ◌<◌, ◌≤◌, [], ◌∷◌, Option, IfOk, IsSome, OnOk, length, map, slice_get};
ghost use Rattle.mc_base.specs.declared.plain.Kind.{Kind};
ghost use Rattle.mc_lower_spec.specs.Length.Lengths.{all_declared, items_declared};
ghost use Rattle.mc_lower_spec.specs.Graphs.{Stage};
ghost use Rattle.mc_lower_spec.specs.Lowering.{Awaits, Declares, LowersAll, Lowers, Passes, Performs, Receives};
ghost use Rattle.mc_semantics.specs.Resolved.Programs.{assign, call as performs_call, result_of, returns};
ghost use Rattle.mc_semantics.specs.Resolved.Views.{action_of, call_of, expression_of, function_of, initial_of, right_of};
ghost use Rattle.mc_lower.specs.Left.{AnswersResult, Begins, DeclaresFirst, EndsCall, IsEntered, PassesAll, Rest, TakesResult, around_of};
ghost use Rattle.mc_lower.specs.Knowns.{IsAnswered, IsThere, Keeps, Known, known, with_next, with_owners};
ghost use Rattle.mc_lower.specs.Ready.{AreReady, FitsAll, FitsItems, IsActionReady, IsBegun, IsCallReady, IsNamed, IsRightReady, Later, Needs, Ready, functions_in, locals_to, with_awaited};
ghost use Rattle.mc_lower.specs.Valued.{target_of};
ghost use Rattle.mc_lower.specs.declared.lines.Awaited.TheVariants.{Out};
ghost use Rattle.mc_lower.specs.declared.tasks.Task.TheVariants.{EndCall};
ghost use Rattle.mc_lower.specs.Worlds.{Agrees, GoesTo, Leads, World, stage_of};

use crate::builder::{BuildFault, Builder, Role};
use crate::tasks::{Context, Task, push};
use crate::values::{How, Site, Target};
use mc_base::stack::Stack;
use mc_base::text::Place;
use mc_base::{Items, VarId};
use mc_flow::{Instr, Operand};
use mc_semantics::resolved::{Action, Call, Function, Initial, RightSide, Simple};

/// A call whose body is next: where the body stands, and the variable for its result.
#[derive(Clone, Copy)]
pub struct Entered<'a> {
    pub callee: Context<'a>,
    pub answer: Option<VarId>,
}

impl<'a> Builder<'a> {
    /// A function by its number.
    pub fn function(&self, number: usize) -> &'a Function
        requires { number < length (functions_in (known self.now).source) }
        ensures there { slice_get (functions_in (known self.now).source) number ≡ Some (function_of result.now) }
        ensures seen { (w : World) → Agrees w self.now → slice_get w.graph.program.functions number ≡ Some (function_of result.now) }
    {
        let Some(function) = self.program.functions.get(number) else {
            unreachable!();
        };
        function
    }

    // A variable is made for each parameter of an occurrence of a function.
    fn receive(&mut self, function: &Function, occurrence: usize) -> Result<Vec<VarId>, BuildFault>
        requires low { function.now.parameters ≤ length function.now.locals.items }
        requires new { (x : ℕ) → IsThere (known self.old) occurrence x → ⊥ }
        ensures count { IfOk result (λ vs. length vs.items ≡ function.now.parameters) }
        ensures same { OnOk result (known self.new ≡ with_owners (locals_to occurrence function.now.parameters) (known self.old)) }
        ensures leads { IfOk result (λ vs. (w : World) → Agrees w self.new → Agrees w self.old
            × Receives w.graph (function_of function.now) (w.out occurrence) 0 function.now.parameters
            (stage_of w self.old) vs.items (stage_of w self.new)) }
    {
        let mut parameters = Vec::new(self.alloc);
        for number in 0..function.parameters {
            let variable = self.create_local(function, occurrence, number)?;
            parameters.push(variable)?;
        }
        Ok(parameters)
    }

    // The arguments are copied to the parameters.
    fn pass(
        &mut self,
        place: Place,
        parameters: &[VarId],
        operands: &[Operand],
    ) -> Result<(), BuildFault>
        requires { length parameters.now ≡ length operands.now }
        ensures same { OnOk result (Keeps self.old self.new) }
        ensures leads { OnOk result (Leads (λ w s u. Passes w.graph place parameters.now operands.now s u) self.old self.new) }
    {
        for at in 0..parameters.len() {
            self.copy(place, parameters[at], operands[at])?;
        }
        Ok(())
    }

    // The arguments are evaluated, and copied to the parameters.
    fn give(&mut self, site: Site, call: &Call, parameters: &[VarId]) -> Result<(), BuildFault>
        requires many { length call.now.arguments.items ≡ length parameters.now }
        requires ready { AreReady (known self.old) site.occurrence (map expression_of call.now.arguments.items) }
        ensures same { OnOk result (Keeps self.old self.new) }
        ensures leads { OnOk result (Leads
            (λ w s u. PassesAll w.graph (w.out site.occurrence) site.place
            (map expression_of call.now.arguments.items) parameters.now s u) self.old self.new) }
    {
        let mut temporaries = Vec::new(self.alloc);
        let operands = self.evaluate_all(site, call.arguments.as_slice(), &mut temporaries)?;
        self.pass(site.place, parameters, operands.as_slice())?;
        self.undefine(site.place, temporaries.as_slice())?;
        Ok(())
    }

    // A variable for the result, where the function has one, undefined at the begin.
    fn await_result(
        &mut self,
        place: Place,
        function: &Function,
        occurrence: usize,
    ) -> Result<Option<VarId>, BuildFault>
        requires { IsAnswered (known self.old) occurrence → ⊥ }
        ensures answered { IfOk result (λ r. IsSome function.now.result → IsSome r) }
        ensures same { OnOk result (known self.new ≡ with_awaited occurrence function.now.result (known self.old)) }
        ensures leads { IfOk result (λ r. (w : World) → Agrees w self.new → Agrees w self.old
            × Awaits w.graph (w.out occurrence) place function.now.result (stage_of w self.old) r
            (stage_of w self.new)) }
    {
        match function.result {
            Some(kind) => {
                let result = self.create_result(occurrence, kind)?;
                self.undefine_all(place, &[result])?;
                Ok(Some(result))
            }
            None => Ok(None),
        }
    }

    // The parameters and arguments of a call, whose body is next.
    fn enter_call(
        &mut self,
        place: Place,
        call: &Call,
        context: Context<'a>,
    ) -> Result<Entered<'a>, BuildFault>
        requires { (r : Option Kind) × IsCallReady (known self.old) context.occurrence r (call_of call.now) }
        ensures begun { IfOk result (λ e. IsBegun (known self.old) (call_of call.now) e (known self.new)) }
        ensures leads { IfOk result (λ e. (w : World) → Agrees w self.new → Agrees w self.old
            × IsEntered w place (call_of call.now) context.entry e (stage_of w self.old) (stage_of w self.new)) }
    {
        let function = self.function(call.function);
        let occurrence = self.occur()?;
        let parameters = self.receive(function, occurrence)?;
        let site = Site {
            occurrence: context.occurrence,
            place,
        };
        self.give(site, call, parameters.as_slice())?;
        let answer = self.await_result(place, function, occurrence)?;
        let callee = Context {
            function,
            occurrence,
            block: None,
            turns: None,
        };
        Ok(Entered { callee, answer })
    }

    /// The body of a call is after: its variables become undefined.
    pub fn end_call(&mut self, place: Place, callee: Context<'a>) -> Result<(), BuildFault>
        requires occurs { callee.occurrence < (known self.old).state.occurrences }
        requires waits { (k : Known) × (known self.old ≡ with_next (Out callee.occurrence) k) }
        ensures rest { OnOk result (known self.old ≡ with_next (Out callee.entry.occurrence) (known self.new)) }
        ensures leads { OnOk result (Leads
            (λ w s u. EndsCall w.graph (w.out callee.entry.occurrence) place
            (length (function_of callee.entry.function.now).locals) s u) self.old self.new) }
    {
        let made = self.made_below(callee.occurrence, callee.function.locals.len())?;
        let next = self.next();
        let code = Instr::Undef(Items::of(made), next.target());
        self.land(Role::Plain, place, code)?;
        Ok(())
    }

    /// A result is put into a variable or a field.
    pub fn take_result(
        &mut self,
        site: Site,
        target: Target,
        answer: Option<VarId>,
    ) -> Result<(), BuildFault>
        requires named { IsNamed (known self.old) site.occurrence (target_of target) }
        requires some { IsSome answer }
        ensures same { OnOk result (Keeps self.old self.new) }
        ensures leads { OnOk result (Leads
            (λ w s u. TakesResult w.graph
            (w.out site.occurrence) site.place target.entry answer s u) self.old self.new) }
    {
        let Some(returned) = answer else {
            unreachable!();
        };
        let mut temporaries = Vec::new(self.alloc);
        self.put_into(site, target, Operand::Var(returned), &mut temporaries)?;
        self.undefine(site.place, &[returned])?;
        Ok(())
    }

    /// A result is returned on.
    pub fn answer_result(
        &mut self,
        site: Site,
        own: VarId,
        answer: Option<VarId>,
    ) -> Result<(), BuildFault>
        requires occurs { site.occurrence < (known self.old).state.occurrences }
        requires some { IsSome answer }
        ensures same { OnOk result (Keeps self.old self.new) }
        ensures leads { OnOk result (Leads
            (λ w s u. AnswersResult w.graph (w.out site.occurrence) site.place own answer s u) self.old self.new) }
    {
        let Some(returned) = answer else {
            unreachable!();
        };
        self.copy(site.place, own, Operand::Var(returned))?;
        self.undefine(site.place, &[returned])?;
        self.go_out(site.occurrence)?;
        Ok(())
    }

    /// What was made goes on where `return` goes.
    pub fn go_out(&mut self, occurrence: usize) -> Result<(), BuildFault>
        requires { occurrence < (known self.old).state.occurrences }
        ensures same { OnOk result (Keeps self.old self.new) }
        ensures leads { OnOk result (Leads (λ w s u. GoesTo (w.out occurrence) s u) self.old self.new) }
    {
        let last = self.out(occurrence);
        self.go(last)?;
        Ok(())
    }
}

// The body of a call is next.
fn push_body<'a>(
    tasks: &mut Stack<Task<'a>>,
    place: Place,
    callee: Context<'a>,
) -> Result<(), BuildFault>
    ensures ready { OnOk result ((k m : Known) → k ≡ with_next (Out callee.entry.occurrence) m
        → FitsAll k callee.entry (function_of callee.entry.function.now).body
        → Needs k (EndCall place callee.entry)
        → Later m callee.entry.occurrence (all_declared (function_of callee.entry.function.now).body) tasks.old
        → Ready k tasks.new) }
    ensures leads { OnOk result ((w : World) (s u : Stage) → Rest w tasks.new s u → (m : Stage)
        × LowersAll w.graph (around_of w callee.entry) (function_of callee.entry.function.now).body s m
        × ((n : Stage) × EndsCall w.graph (w.out callee.entry.occurrence) place
        (length (function_of callee.entry.function.now).locals) m n × Rest w tasks.old n u)) }
{
    push(tasks, Task::EndCall(place, callee))?;
    push(
        tasks,
        Task::Statements(callee.function.body.as_slice(), callee),
    )?;
    Ok(())
}

impl<'a> Builder<'a> {
    // A call whose result is not used.
    fn call_for_nothing(
        &mut self,
        tasks: &mut Stack<Task<'a>>,
        place: Place,
        call: &Call,
        context: Context<'a>,
    ) -> Result<(), BuildFault>
        requires { (r : Option Kind) × IsCallReady (known self.old) context.occurrence r (call_of call.now) }
        ensures source { OnOk result ((known self.new).source ≡ (known self.old).source) }
        ensures ready { OnOk result (Later (known self.old) context.entry.occurrence [] tasks.old → Ready (known self.new) tasks.new) }
        ensures leads { OnOk result (Begins
            (λ w s m. Performs w.graph (w.out context.entry.occurrence) place
            (performs_call (call_of call.now)) s m) self.old tasks.old self.new tasks.new) }
    {
        let entered = self.enter_call(place, call, context)?;
        push_body(tasks, place, entered.callee)?;
        Ok(())
    }

    // A call whose result is put into a variable or a field.
    fn call_into(
        &mut self,
        tasks: &mut Stack<Task<'a>>,
        place: Place,
        target: Target<'a>,
        call: &Call,
        context: Context<'a>,
    ) -> Result<(), BuildFault>
        requires call { (kind : Kind) × IsCallReady (known self.old) context.occurrence (Some kind) (call_of call.now) }
        requires named { IsNamed (known self.old) context.occurrence (target_of target) }
        ensures source { OnOk result ((known self.new).source ≡ (known self.old).source) }
        ensures ready { OnOk result (Later (known self.old) context.entry.occurrence [] tasks.old → Ready (known self.new) tasks.new) }
        ensures leads { OnOk result (Begins
            (λ w s m. Performs w.graph (w.out context.entry.occurrence) place
            (assign (target_of target.entry)
            (result_of (call_of call.now))) s m) self.old tasks.old self.new tasks.new) }
    {
        let entered = self.enter_call(place, call, context)?;
        push(
            tasks,
            Task::Take(place, target, entered.answer, context.occurrence),
        )?;
        push_body(tasks, place, entered.callee)?;
        Ok(())
    }

    /// A call whose result is returned on.
    pub fn call_and_return(
        &mut self,
        tasks: &mut Stack<Task<'a>>,
        place: Place,
        call: &Call,
        context: Context<'a>,
    ) -> Result<(), BuildFault>
        requires answered { IsAnswered (known self.old) context.occurrence }
        requires call { (kind : Kind) × IsCallReady (known self.old) context.occurrence (Some kind) (call_of call.now) }
        requires occurs { context.occurrence < (known self.old).state.occurrences }
        ensures source { OnOk result ((known self.new).source ≡ (known self.old).source) }
        ensures ready { OnOk result (Later (known self.old) context.entry.occurrence [] tasks.old → Ready (known self.new) tasks.new) }
        ensures leads { OnOk result (Begins
            (λ w s m. Lowers w.graph (around_of w context.entry)
            (returns place (Some (result_of (call_of call.now)))) s m) self.old tasks.old self.new tasks.new) }
    {
        let own = self.own_result(context.occurrence);
        let entered = self.enter_call(place, call, context)?;
        push(
            tasks,
            Task::Answer(place, own, entered.answer, context.occurrence),
        )?;
        push_body(tasks, place, entered.callee)?;
        Ok(())
    }

    // A value is put into a variable or a field.
    fn assign_right(
        &mut self,
        tasks: &mut Stack<Task<'a>>,
        place: Place,
        target: Target<'a>,
        right: &'a RightSide,
        context: Context<'a>,
    ) -> Result<(), BuildFault>
        requires named { IsNamed (known self.old) context.occurrence (target_of target) }
        requires right { IsRightReady (known self.old) context.occurrence (right_of right.now) }
        ensures source { OnOk result ((known self.new).source ≡ (known self.old).source) }
        ensures ready { OnOk result (Later (known self.old) context.entry.occurrence [] tasks.old → Ready (known self.new) tasks.new) }
        ensures leads { OnOk result (Begins
            (λ w s m. Performs w.graph (w.out context.entry.occurrence) place
            (assign (target_of target.entry) (right_of right.now)) s m) self.old tasks.old self.new tasks.new) }
    {
        let site = Site {
            occurrence: context.occurrence,
            place,
        };
        match right {
            RightSide::Call(call) => {
                self.call_into(tasks, place, target, call, context)?;
                Ok(())
            }
            RightSide::Expression(_) => {
                self.assign(site, target, right)?;
                Ok(())
            }
            RightSide::Malloc(_, _) => {
                self.assign(site, target, right)?;
                Ok(())
            }
        }
    }

    /// A simple statement.
    pub fn perform(
        &mut self,
        tasks: &mut Stack<Task<'a>>,
        simple: &'a Simple,
        context: Context<'a>,
    ) -> Result<(), BuildFault>
        requires { IsActionReady (known self.old) context.occurrence (action_of simple.now.action) }
        ensures source { OnOk result ((known self.new).source ≡ (known self.old).source) }
        ensures ready { OnOk result (Later (known self.old) context.entry.occurrence [] tasks.old → Ready (known self.new) tasks.new) }
        ensures leads { OnOk result (Begins
            (λ w s m. Performs w.graph (w.out context.entry.occurrence) simple.now.place
            (action_of simple.now.action) s m) self.old tasks.old self.new tasks.new) }
    {
        let place = simple.place;
        let site = Site {
            occurrence: context.occurrence,
            place,
        };
        match &simple.action {
            Action::Assign(left, right) => {
                self.assign_right(tasks, place, Target::of(left), right, context)?;
                Ok(())
            }
            Action::Call(call) => {
                self.call_for_nothing(tasks, place, call, context)?;
                Ok(())
            }
            Action::Add(left, expression) => {
                self.change(site, How::Plus, left, expression)?;
                Ok(())
            }
            Action::Subtract(left, expression) => {
                self.change(site, How::Difference, left, expression)?;
                Ok(())
            }
        }
    }

    // A declarator makes its variable, which is undefined or gets a value.
    fn declare_one(
        &mut self,
        tasks: &mut Stack<Task<'a>>,
        place: Place,
        item: &'a Initial,
        context: Context<'a>,
    ) -> Result<(), BuildFault>
        requires { FitsItems (known self.old) context (initial_of item.now ∷ []) }
        ensures source { OnOk result ((known self.new).source ≡ (known self.old).source) }
        ensures ready { OnOk result (Later (known self.old) context.entry.occurrence
            (item.now.variable ∷ []) tasks.old → Ready (known self.new) tasks.new) }
        ensures leads { OnOk result (Begins
            (λ w s m. DeclaresFirst w context.entry place
            (initial_of item.now) s m) self.old tasks.old self.new tasks.new) }
    {
        let variable = self.create_local(context.function, context.occurrence, item.variable)?;
        match &item.value {
            None => {
                self.undefine_all(place, &[variable])?;
                Ok(())
            }
            Some(right) => {
                let target = Target {
                    variable: item.variable,
                    fields: &[],
                };
                self.assign_right(tasks, place, target, right, context)?;
                Ok(())
            }
        }
    }

    /// Declarators make their variables.
    pub fn declare(
        &mut self,
        tasks: &mut Stack<Task<'a>>,
        place: Place,
        items: &'a [Initial],
        context: Context<'a>,
    ) -> Result<(), BuildFault>
        requires { FitsItems (known self.old) context (map initial_of items.now) }
        ensures source { OnOk result ((known self.new).source ≡ (known self.old).source) }
        ensures ready { OnOk result (Later (known self.old) context.entry.occurrence
            (items_declared (map initial_of items.now)) tasks.old → Ready (known self.new) tasks.new) }
        ensures leads { OnOk result (Begins
            (λ w s m. Declares w.graph (function_of context.entry.function.now)
            (w.out context.entry.occurrence) place
            (map initial_of items.now) s m) self.old tasks.old self.new tasks.new) }
    {
        let [first, more @ ..] = items else {
            return Ok(());
        };
        push(tasks, Task::Declare(place, more, context))?;
        self.declare_one(tasks, place, first, context)?;
        Ok(())
    }
}
