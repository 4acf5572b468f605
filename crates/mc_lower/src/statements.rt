// Statements are lowered, or what they are made of is next.
ghost use Rattle.std.specs.Prelude.{Some, ◌≡◌, ◌<◌, [], ◌∷◌, OnOk, map, option_map};
ghost use Rattle.mc_lower_spec.specs.Length.Lengths.{all_declared, declared};
ghost use Rattle.mc_lower_spec.specs.Length.Waiting.{IsOuter};
ghost use Rattle.mc_lower_spec.specs.Lowering.{Lowers, LowersAll};
ghost use Rattle.mc_semantics.specs.Resolved.Programs.{block, do_loop, for_loop, if_else, if_only, returns, while_loop};
ghost use Rattle.mc_semantics.specs.Resolved.Views.{condition_of, head_of, right_of, statement_of, stmts_of};
ghost use Rattle.mc_lower.specs.Left.{Begins, EndsDo, EndsFor, EntersFor, ExitsTo, IsBehind, Merges, Met, Otherwise, TurnsFor, around_of};
ghost use Rattle.mc_lower.specs.Knowns.{IsAnswered, Keeps, Known, known, with_all, with_label};
ghost use Rattle.mc_lower.specs.Ready.{FitsAll, FitsFor, FitsStatement, IsLastReady, IsPlainReady, IsReturnReady, IsRightReady, IsTestReady, Later, Needs, Ready, makes, takes};
ghost use Rattle.mc_lower.specs.Worlds.{Leads};

use crate::builder::{BuildFault, Builder, Label, NOWHERE, Role};
use crate::conditions::Ways;
use crate::tasks::{Context, Task, Turns, push};
use crate::values::Site;
use mc_base::stack::Stack;
use mc_base::text::Place;
use mc_flow::Instr;
use mc_semantics::resolved::{Condition, ForHead, ForStart, RightSide, Statement};

impl<'a> Builder<'a> {
    // ---- statements with statements inside
    // A block is entered.
    fn block(
        &mut self,
        tasks: &mut Stack<Task<'a>>,
        numbers: &'a [usize],
        statements: &'a [Statement],
        context: Context<'a>,
    ) -> Result<(), BuildFault>
        requires { FitsStatement (known self.old) context (block numbers.now (stmts_of (map statement_of statements.now))) }
        ensures source { OnOk result ((known self.new).source ≡ (known self.old).source) }
        ensures ready { OnOk result (Later (known self.old) context.entry.occurrence
            (declared (block numbers.now (stmts_of (map statement_of statements.now)))) tasks.old
            → Ready (known self.new) tasks.new) }
        ensures leads { OnOk result (Begins
            (λ w s m. Lowers w.graph (around_of w context.entry)
            (block numbers.now
            (stmts_of (map statement_of statements.now))) s m) self.old tasks.old self.new tasks.new) }
    {
        let block = self.open(numbers, context.block)?;
        push(tasks, Task::EndBlock(numbers, context.occurrence))?;
        push(tasks, Task::Statements(statements, context.in_block(block)))?;
        Ok(())
    }

    // `if` without `else`.
    fn if_only(
        &mut self,
        tasks: &mut Stack<Task<'a>>,
        place: Place,
        condition: &Condition,
        part: &'a Statement,
        context: Context<'a>,
    ) -> Result<(), BuildFault>
        requires { FitsStatement (known self.old) context (if_only place (condition_of condition.now) (statement_of part.now)) }
        ensures source { OnOk result ((known self.new).source ≡ (known self.old).source) }
        ensures ready { OnOk result (Later (known self.old) context.entry.occurrence
            (declared (if_only place (condition_of condition.now) (statement_of part.now))) tasks.old
            → Ready (known self.new) tasks.new) }
        ensures leads { OnOk result (Begins
            (λ w s m. Lowers w.graph (around_of w context.entry)
            (if_only place (condition_of condition.now)
            (statement_of part.now)) s m) self.old tasks.old self.new tasks.new) }
    {
        let merge = self.label()?;
        self.test_or(context.occurrence, condition, merge)?;
        push(tasks, Task::Merge(place, merge))?;
        push(tasks, Task::Statement(part, context))?;
        Ok(())
    }

    // `if` with `else`.
    fn if_else(
        &mut self,
        tasks: &mut Stack<Task<'a>>,
        place: Place,
        condition: &Condition,
        first: &'a Statement,
        second: &'a Statement,
        context: Context<'a>,
    ) -> Result<(), BuildFault>
        requires { FitsStatement (known self.old) context
            (if_else place (condition_of condition.now) (statement_of first.now) (statement_of second.now)) }
        ensures source { OnOk result ((known self.new).source ≡ (known self.old).source) }
        ensures ready { OnOk result (Later (known self.old) context.entry.occurrence
            (declared (if_else place (condition_of condition.now) (statement_of first.now)
            (statement_of second.now))) tasks.old → Ready (known self.new) tasks.new) }
        ensures leads { OnOk result (Begins
            (λ w s m. Lowers w.graph (around_of w context.entry)
            (if_else place (condition_of condition.now) (statement_of first.now)
            (statement_of second.now)) s m) self.old tasks.old self.new tasks.new) }
    {
        let merge = self.label()?;
        let no = self.label()?;
        self.test_or(context.occurrence, condition, no)?;
        push(tasks, Task::Merge(place, merge))?;
        push(tasks, Task::Statement(second, context))?;
        push(tasks, Task::Otherwise(no, merge))?;
        push(tasks, Task::Statement(first, context))?;
        Ok(())
    }

    // The second part of an `if` begins.
    fn otherwise(&mut self, no: Label, merge: Label) -> Result<(), BuildFault>
        requires { (k : Known) × (known self.old ≡ with_label no k) }
        ensures rest { OnOk result (known self.old ≡ with_label no (known self.new)) }
        ensures leads { OnOk result (Leads (λ w s u. Otherwise (w.at no.0) (w.at merge.0) s u) self.old self.new) }
    {
        self.go_last(merge)?;
        Ok(())
    }

    // The ways of an `if` meet at a Skip.
    fn merge(&mut self, place: Place, merge: Label) -> Result<(), BuildFault>
        requires { (k : Known) × (known self.old ≡ with_label merge k) }
        ensures rest { OnOk result (known self.old ≡ with_label merge (known self.new)) }
        ensures leads { OnOk result (Leads (λ w s u. Merges w.graph place (w.at merge.0) s u) self.old self.new) }
    {
        let next = self.next();
        self.land(Role::Merge, place, Instr::Skip(next.target()))?;
        Ok(())
    }

    // `while`.
    fn while_loop(
        &mut self,
        tasks: &mut Stack<Task<'a>>,
        place: Place,
        condition: &Condition,
        body: &'a Statement,
        context: Context<'a>,
    ) -> Result<(), BuildFault>
        requires { FitsStatement (known self.old) context (while_loop place (condition_of condition.now) (statement_of body.now)) }
        ensures source { OnOk result ((known self.new).source ≡ (known self.old).source) }
        ensures ready { OnOk result (Later (known self.old) context.entry.occurrence
            (declared (while_loop place (condition_of condition.now) (statement_of body.now))) tasks.old
            → Ready (known self.new) tasks.new) }
        ensures leads { OnOk result (Begins
            (λ w s m. Lowers w.graph (around_of w context.entry)
            (while_loop place (condition_of condition.now)
            (statement_of body.now)) s m) self.old tasks.old self.new tasks.new) }
    {
        let head = self.lines.goal;
        self.skip(Role::Head, place)?;
        let exit = self.label()?;
        self.test_or(context.occurrence, condition, exit)?;
        push(tasks, Task::EndWhile(place, head, exit))?;
        push(tasks, Task::Statement(body, context.in_loop(exit, head)))?;
        Ok(())
    }

    // The body of a `while` goes to the head.
    fn end_while(&mut self, place: Place, head: Label, exit: Label) -> Result<(), BuildFault>
        requires { (k : Known) × (known self.old ≡ with_label exit k) }
        ensures rest { OnOk result (known self.old ≡ with_label exit (known self.new)) }
        ensures leads { OnOk result (Leads (λ w s u. ExitsTo w.graph place (w.at head.0) (w.at exit.0) s u) self.old self.new) }
    {
        self.go_last(head)?;
        self.skip(Role::Plain, place)?;
        Ok(())
    }

    // `do`.
    fn do_loop(
        &mut self,
        tasks: &mut Stack<Task<'a>>,
        place: Place,
        body: &'a Statement,
        condition: &'a Condition,
        context: Context<'a>,
    ) -> Result<(), BuildFault>
        requires { FitsStatement (known self.old) context (do_loop place (statement_of body.now) (condition_of condition.now)) }
        ensures source { OnOk result ((known self.new).source ≡ (known self.old).source) }
        ensures ready { OnOk result (Later (known self.old) context.entry.occurrence
            (declared (do_loop place (statement_of body.now) (condition_of condition.now))) tasks.old
            → Ready (known self.new) tasks.new) }
        ensures leads { OnOk result (Begins
            (λ w s m. Lowers w.graph (around_of w context.entry)
            (do_loop place (statement_of body.now)
            (condition_of condition.now)) s m) self.old tasks.old self.new tasks.new) }
    {
        let head = self.lines.goal;
        self.skip(Role::Head, place)?;
        let exit = self.label()?;
        let turn = self.label()?;
        push(
            tasks,
            Task::EndDo(
                place,
                condition,
                head,
                Turns { exit, turn },
                context.occurrence,
            ),
        )?;
        push(tasks, Task::Statement(body, context.in_loop(exit, turn)))?;
        Ok(())
    }

    // The point for `continue`, the condition, and the exit.
    fn end_do(
        &mut self,
        place: Place,
        condition: &Condition,
        head: Label,
        turns: Turns,
        occurrence: usize,
    ) -> Result<(), BuildFault>
        requires ready { IsTestReady (known self.old) occurrence (condition_of condition.now) }
        requires waits { (k : Known) × (known self.old ≡ with_label turns.turn (with_label turns.exit k)) }
        ensures rest { OnOk result (known self.old ≡ with_label turns.turn (with_label turns.exit (known self.new))) }
        ensures leads { OnOk result (Leads
            (λ w s u. EndsDo w.graph (w.out occurrence) place (condition_of condition.now) (w.at head.0)
            (w.at turns.turn.0) (w.at turns.exit.0) s u) self.old self.new) }
    {
        let next = self.next();
        self.land(Role::Plain, place, Instr::Skip(next.target()))?;
        let ways = Ways {
            yes: head,
            no: turns.exit,
        };
        self.test(occurrence, condition, ways)?;
        self.skip(Role::Plain, place)?;
        Ok(())
    }

    // `for`: its first part is next.
    fn for_loop(
        &mut self,
        tasks: &mut Stack<Task<'a>>,
        head: &'a ForHead,
        body: &'a Statement,
        context: Context<'a>,
    ) -> Result<(), BuildFault>
        requires { FitsStatement (known self.old) context (for_loop (head_of head.now) (statement_of body.now)) }
        ensures source { OnOk result ((known self.new).source ≡ (known self.old).source) }
        ensures ready { OnOk result (Later (known self.old) context.entry.occurrence
            (declared (for_loop (head_of head.now) (statement_of body.now))) tasks.old
            → Ready (known self.new) tasks.new) }
        ensures leads { OnOk result (Begins
            (λ w s m. Lowers w.graph (around_of w context.entry)
            (for_loop (head_of head.now) (statement_of body.now)) s m) self.old tasks.old self.new tasks.new) }
    {
        push(tasks, Task::For(head, body, context))?;
        match &head.start {
            ForStart::Nothing => Ok(()),
            ForStart::Declaration(place, items) => {
                push(tasks, Task::Declare(*place, items.as_slice(), context))?;
                Ok(())
            }
            ForStart::Simple(simple) => {
                push(tasks, Task::Simple(simple, context))?;
                Ok(())
            }
        }
    }

    // The head of a `for` and its condition; its body is next.
    fn enter_for(
        &mut self,
        tasks: &mut Stack<Task<'a>>,
        head: &'a ForHead,
        body: &'a Statement,
        context: Context<'a>,
    ) -> Result<(), BuildFault>
        requires { FitsFor (known self.old) context (head_of head.now) (statement_of body.now) }
        ensures source { OnOk result ((known self.new).source ≡ (known self.old).source) }
        ensures ready { OnOk result (Later (known self.old) context.entry.occurrence
            (declared (statement_of body.now)) tasks.old → Ready (known self.new) tasks.new) }
        ensures leads { OnOk result (Begins
            (λ w s m. EntersFor w.graph (around_of w context.entry) (head_of head.now)
            (statement_of body.now) s m) self.old tasks.old self.new tasks.new) }
    {
        let begin = self.lines.goal;
        self.skip(Role::Head, head.place)?;
        let exit = self.label()?;
        let turn = self.label()?;
        self.test_perhaps(context.occurrence, head.condition.as_ref(), exit)?;
        push(
            tasks,
            Task::ForTurn(head, begin, Turns { exit, turn }, context),
        )?;
        push(tasks, Task::Statement(body, context.in_loop(exit, turn)))?;
        Ok(())
    }

    // The point for `continue`; the last part is next.
    fn turn_for(
        &mut self,
        tasks: &mut Stack<Task<'a>>,
        head: &'a ForHead,
        begin: Label,
        turns: Turns,
        context: Context<'a>,
    ) -> Result<(), BuildFault>
        requires ready { IsLastReady (known self.old) context.occurrence (head_of head.now).last }
        requires waits { (k : Known) × (known self.old ≡ with_label turns.turn (with_label turns.exit k)) }
        ensures source { OnOk result ((known self.new).source ≡ (known self.old).source) }
        ensures ready { OnOk result ((k : Known) → known self.old ≡ with_label turns.turn (with_label turns.exit k)
            → Later k context.entry.occurrence [] tasks.old → Ready (known self.new) tasks.new) }
        ensures leads { OnOk result (Begins
            (λ w s m. TurnsFor w.graph (w.out context.entry.occurrence) (head_of head.now) (w.at begin.0)
            (w.at turns.turn.0) (w.at turns.exit.0) s m) self.old tasks.old self.new tasks.new) }
    {
        let next = self.next();
        self.land(Role::Plain, head.place, Instr::Skip(next.target()))?;
        push(
            tasks,
            Task::EndFor(head, begin, turns.exit, context.occurrence),
        )?;
        match &head.last {
            None => Ok(()),
            Some(simple) => {
                push(tasks, Task::Simple(simple, context))?;
                Ok(())
            }
        }
    }

    // The last part goes to the head; after the exit the variables of the head become undefined.
    fn end_for(
        &mut self,
        head: &'a ForHead,
        begin: Label,
        exit: Label,
        occurrence: usize,
    ) -> Result<(), BuildFault>
        requires { (k : Known) × (known self.old ≡ with_label exit k) }
        ensures rest { OnOk result (known self.old ≡ with_label exit (known self.new)) }
        ensures leads { OnOk result (Leads
            (λ w s u. EndsFor w.graph (w.out occurrence) (head_of head.now) (w.at begin.0)
            (w.at exit.0) s u) self.old self.new) }
    {
        self.go_last(begin)?;
        self.skip(Role::Plain, head.place)?;
        self.leave(NOWHERE, occurrence, head.variables.as_slice())?;
        Ok(())
    }

    // ---- returns
    // `return` with a value that is no call's.
    fn return_value(
        &mut self,
        place: Place,
        right: &RightSide,
        context: Context<'a>,
    ) -> Result<(), BuildFault>
        requires answered { IsAnswered (known self.old) context.occurrence }
        requires occurs { context.occurrence < (known self.old).state.occurrences }
        requires right { IsPlainReady (known self.old) context.occurrence (right_of right.now) }
        ensures same { OnOk result (Keeps self.old self.new) }
        ensures leads { OnOk result (Leads
            (λ w s u. Lowers w.graph (around_of w context.entry)
            (returns place (Some (right_of right.now))) s u) self.old self.new) }
    {
        let site = Site {
            occurrence: context.occurrence,
            place,
        };
        let variable = self.own_result(site.occurrence);
        self.set_to(site, variable, right)?;
        self.go_out(site.occurrence)?;
        Ok(())
    }

    // `return` with a value.
    fn return_right(
        &mut self,
        tasks: &mut Stack<Task<'a>>,
        place: Place,
        right: &'a RightSide,
        context: Context<'a>,
    ) -> Result<(), BuildFault>
        requires answered { IsAnswered (known self.old) context.occurrence }
        requires occurs { context.occurrence < (known self.old).state.occurrences }
        requires right { IsRightReady (known self.old) context.occurrence (right_of right.now) }
        ensures source { OnOk result ((known self.new).source ≡ (known self.old).source) }
        ensures ready { OnOk result (Later (known self.old) context.entry.occurrence [] tasks.old → Ready (known self.new) tasks.new) }
        ensures leads { OnOk result (Begins
            (λ w s m. Lowers w.graph (around_of w context.entry)
            (returns place (Some (right_of right.now))) s m) self.old tasks.old self.new tasks.new) }
    {
        match right {
            RightSide::Call(call) => {
                self.call_and_return(tasks, place, call, context)?;
                Ok(())
            }
            RightSide::Expression(_) => {
                self.return_value(place, right, context)?;
                Ok(())
            }
            RightSide::Malloc(_, _) => {
                self.return_value(place, right, context)?;
                Ok(())
            }
        }
    }

    // `return`, perhaps with a value.
    fn returns(
        &mut self,
        tasks: &mut Stack<Task<'a>>,
        place: Place,
        value: Option<&'a RightSide>,
        context: Context<'a>,
    ) -> Result<(), BuildFault>
        requires occurs { context.occurrence < (known self.old).state.occurrences }
        requires value { IsReturnReady (known self.old) context.occurrence (option_map (λ r. right_of r.now) value) }
        ensures source { OnOk result ((known self.new).source ≡ (known self.old).source) }
        ensures ready { OnOk result (Later (known self.old) context.entry.occurrence [] tasks.old → Ready (known self.new) tasks.new) }
        ensures leads { OnOk result (Begins
            (λ w s m. Lowers w.graph (around_of w context.entry)
            (returns place
            (option_map (λ r. right_of r.now) value.entry)) s m) self.old tasks.old self.new tasks.new) }
    {
        match value {
            None => {
                self.go_out(context.occurrence)?;
                Ok(())
            }
            Some(right) => {
                self.return_right(tasks, place, right, context)?;
                Ok(())
            }
        }
    }

    // A statement with statements inside: these are next.
    fn outer(
        &mut self,
        tasks: &mut Stack<Task<'a>>,
        statement: &'a Statement,
        context: Context<'a>,
    ) -> Result<(), BuildFault>
        requires outer { IsOuter (statement_of statement.now) }
        requires fits { FitsStatement (known self.old) context (statement_of statement.now) }
        ensures source { OnOk result ((known self.new).source ≡ (known self.old).source) }
        ensures ready { OnOk result (Later (known self.old) context.entry.occurrence
            (declared (statement_of statement.now)) tasks.old → Ready (known self.new) tasks.new) }
        ensures leads { OnOk result (Begins
            (λ w s m. Lowers w.graph (around_of w context.entry)
            (statement_of statement.now) s m) self.old tasks.old self.new tasks.new) }
    {
        match statement {
            Statement::Block(numbers, inner) => {
                self.block(tasks, numbers.as_slice(), inner.as_slice(), context)?;
                Ok(())
            }
            Statement::If(place, condition, part) => {
                self.if_only(tasks, *place, condition, part, context)?;
                Ok(())
            }
            Statement::IfElse(place, condition, first, second) => {
                self.if_else(tasks, *place, condition, first, second, context)?;
                Ok(())
            }
            Statement::While(place, condition, body) => {
                self.while_loop(tasks, *place, condition, body, context)?;
                Ok(())
            }
            Statement::Do(place, body, condition) => {
                self.do_loop(tasks, *place, body, condition, context)?;
                Ok(())
            }
            Statement::For(head, body) => {
                self.for_loop(tasks, head, body, context)?;
                Ok(())
            }
            _ => unreachable!(),
        }
    }

    // A statement is lowered, or what is inside it is next.
    fn statement(
        &mut self,
        tasks: &mut Stack<Task<'a>>,
        statement: &'a Statement,
        context: Context<'a>,
    ) -> Result<(), BuildFault>
        requires { FitsStatement (known self.old) context (statement_of statement.now) }
        ensures source { OnOk result ((known self.new).source ≡ (known self.old).source) }
        ensures ready { OnOk result (Later (known self.old) context.entry.occurrence
            (declared (statement_of statement.now)) tasks.old → Ready (known self.new) tasks.new) }
        ensures leads { OnOk result (Begins
            (λ w s m. Lowers w.graph (around_of w context.entry)
            (statement_of statement.now) s m) self.old tasks.old self.new tasks.new) }
    {
        match statement {
            Statement::Declaration(place, items) => {
                push(tasks, Task::Declare(*place, items.as_slice(), context))?;
                Ok(())
            }
            Statement::Empty => Ok(()),
            Statement::Simple(simple) => {
                push(tasks, Task::Simple(simple, context))?;
                Ok(())
            }
            Statement::Return(place, value) => {
                self.returns(tasks, *place, value.as_ref(), context)?;
                Ok(())
            }
            Statement::Block(_, _)
            | Statement::If(_, _, _)
            | Statement::IfElse(_, _, _, _)
            | Statement::While(_, _, _)
            | Statement::Do(_, _, _)
            | Statement::For(_, _) => {
                self.outer(tasks, statement, context)?;
                Ok(())
            }
            Statement::Free(_, _)
            | Statement::Assert(_, _)
            | Statement::Assume(_, _)
            | Statement::AssumeShape(_)
            | Statement::AssertShape(_)
            | Statement::AssertEmpty(_)
            | Statement::Break(_)
            | Statement::Continue(_) => {
                self.command(statement, context)?;
                Ok(())
            }
        }
    }

    // The first of these statements is next, and then the others.
    fn statements(
        &mut self,
        tasks: &mut Stack<Task<'a>>,
        statements: &'a [Statement],
        context: Context<'a>,
    ) -> Result<(), BuildFault>
        requires { FitsAll (known self.old) context (stmts_of (map statement_of statements.now)) }
        ensures source { OnOk result ((known self.new).source ≡ (known self.old).source) }
        ensures ready { OnOk result (Later (known self.old) context.entry.occurrence
            (all_declared (stmts_of (map statement_of statements.now))) tasks.old
            → Ready (known self.new) tasks.new) }
        ensures leads { OnOk result (Begins
            (λ w s m. LowersAll w.graph (around_of w context.entry)
            (stmts_of (map statement_of statements.now)) s m) self.old tasks.old self.new tasks.new) }
    {
        let [first, more @ ..] = statements else {
            return Ok(());
        };
        push(tasks, Task::Statements(more, context))?;
        push(tasks, Task::Statement(first, context))?;
        Ok(())
    }

    // What stands after the parts of a statement or of a call is lowered.
    fn behind(&mut self, task: Task<'a>) -> Result<(), BuildFault>
        requires is_behind { IsBehind task }
        requires needs { Needs (known self.old) task }
        requires waits { (k : Known) × (known self.old ≡ with_all (takes task) k) }
        ensures none { OnOk result (makes task.entry ≡ []) }
        ensures rest { OnOk result (known self.old ≡ with_all (takes task.entry) (known self.new)) }
        ensures leads { OnOk result (Leads (λ w s u. Met w task.entry s u) self.old self.new) }
    {
        match task {
            Task::EndBlock(numbers, occurrence) => {
                self.leave(NOWHERE, occurrence, numbers)?;
                Ok(())
            }
            Task::Otherwise(no, merge) => {
                self.otherwise(no, merge)?;
                Ok(())
            }
            Task::Merge(place, merge) => {
                self.merge(place, merge)?;
                Ok(())
            }
            Task::EndWhile(place, head, exit) => {
                self.end_while(place, head, exit)?;
                Ok(())
            }
            Task::EndDo(place, condition, head, turns, occurrence) => {
                self.end_do(place, condition, head, turns, occurrence)?;
                Ok(())
            }
            Task::EndFor(head, begin, exit, occurrence) => {
                self.end_for(head, begin, exit, occurrence)?;
                Ok(())
            }
            Task::EndCall(place, callee) => {
                self.end_call(place, callee)?;
                Ok(())
            }
            Task::Take(place, target, answer, occurrence) => {
                self.take_result(Site { occurrence, place }, target, answer)?;
                Ok(())
            }
            Task::Answer(place, own, answer, occurrence) => {
                self.answer_result(Site { occurrence, place }, own, answer)?;
                Ok(())
            }
            _ => unreachable!(),
        }
    }

    /// What is next is lowered, or what it is made of is next.
    pub fn step(&mut self, tasks: &mut Stack<Task<'a>>, task: Task<'a>) -> Result<(), BuildFault>
        requires { Ready (known self.old) (task ∷ tasks.old) }
        ensures source { OnOk result ((known self.new).source ≡ (known self.old).source) }
        ensures ready { OnOk result (Ready (known self.new) tasks.new) }
        ensures leads { OnOk result (Begins (λ w s m. Met w task.entry s m) self.old tasks.old self.new tasks.new) }
    {
        match task {
            Task::Statements(statements, context) => {
                self.statements(tasks, statements, context)?;
                Ok(())
            }
            Task::Statement(statement, context) => {
                self.statement(tasks, statement, context)?;
                Ok(())
            }
            Task::Simple(simple, context) => {
                self.perform(tasks, simple, context)?;
                Ok(())
            }
            Task::Declare(place, items, context) => {
                self.declare(tasks, place, items, context)?;
                Ok(())
            }
            Task::For(head, body, context) => {
                self.enter_for(tasks, head, body, context)?;
                Ok(())
            }
            Task::ForTurn(head, begin, turns, context) => {
                self.turn_for(tasks, head, begin, turns, context)?;
                Ok(())
            }
            Task::EndBlock(_, _)
            | Task::Otherwise(_, _)
            | Task::Merge(_, _)
            | Task::EndWhile(_, _, _)
            | Task::EndDo(_, _, _, _, _)
            | Task::EndFor(_, _, _, _)
            | Task::EndCall(_, _)
            | Task::Take(_, _, _, _)
            | Task::Answer(_, _, _, _) => {
                self.behind(task)?;
                Ok(())
            }
        }
    }
}
