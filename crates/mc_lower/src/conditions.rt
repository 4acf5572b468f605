// The points that test conditions.
ghost use Rattle.std.specs.Prelude.{ℕ, ◌≡◌, ◌∷◌, OnOk, length, option_map};
ghost use Rattle.mc_lower_spec.specs.Graphs.{Undefines, plain, point, stage};
ghost use Rattle.mc_lower_spec.specs.Values.{Compares, decides};
ghost use Rattle.mc_semantics.specs.Resolved.Programs.{compare, plain as plain_condition};
ghost use Rattle.mc_semantics.specs.Resolved.Views.{condition_of, expression_of};
ghost use Rattle.mc_lower.specs.Knowns.{Keeps, Known, Waits, known, with_all, with_label};
ghost use Rattle.mc_lower.specs.Ready.{AreTestsReady, IsReady, IsTestReady, IsTestReadyPerhaps};
ghost use Rattle.mc_lower.specs.Valued.{Testing, TestsOn, TestsPerhapsOn, TestsTo, froms};
ghost use Rattle.mc_lower.specs.Worlds.{Agrees, Leads, World, stage_of};

use crate::builder::{BuildFault, Builder, Label, Role};
use crate::values::{Site, nothing};
use mc_base::VarId;
use mc_base::stack::Stack;
use mc_base::text::Place;
use mc_c_syntax::ast::Comparison;
use mc_flow::{Instr, Operand};
use mc_semantics::resolved::{Condition, Expression};

/// Where a condition goes to where it is true, and where it is false.
#[derive(Clone, Copy)]
pub struct Ways {
    pub yes: Label,
    pub no: Label,
}

// What is still to be tested: a condition from a label on.
#[derive(Clone, Copy)]
pub struct Work<'c> {
    pub from: Label,
    pub condition: &'c Condition,
    pub ways: Ways,
}

// The test that goes the one way where the comparison is true, else the other.
fn decides(comparison: Comparison, left: Operand, right: Operand, ways: Ways) -> Instr
    ensures { result ≡ decides comparison left right (point ways.yes.0) (point ways.no.0) }
{
    let yes = ways.yes.target();
    let no = ways.no.target();
    match comparison {
        Comparison::Equal => Instr::TestEq(left, right, yes, no),
        Comparison::Unequal => Instr::TestEq(left, right, no, yes),
        Comparison::AtMost => Instr::TestLe(left, right, yes, no),
        Comparison::Above => Instr::TestLe(left, right, no, yes),
        Comparison::AtLeast => Instr::TestLe(right, left, yes, no),
        Comparison::Below => Instr::TestLe(right, left, no, yes),
    }
}

// A condition is next, from a label on.
fn push<'c>(
    work: &mut Stack<Work<'c>>,
    from: Label,
    condition: &'c Condition,
    ways: Ways,
) -> Result<(), BuildFault>
    ensures { OnOk result (work.new ≡ record { from = from; condition = condition.entry; ways = ways } ∷ work.old) }
{
    work.push(Work {
        from,
        condition,
        ways,
    })?;
    Ok(())
}

impl<'a> Builder<'a> {
    // Temporaries become undefined, and what was made goes on to a label; the label that waits first is the goal then.
    fn clear(&mut self, place: Place, temporaries: &[VarId], to: Label) -> Result<(), BuildFault>
        requires { Waits (known self.old) }
        ensures rest { OnOk result (known self.old ≡ with_label self.new.lines.goal (known self.new)) }
        ensures leads { OnOk result ((w : World) → Agrees w self.new → Agrees w self.old
            × Undefines w.graph place temporaries.now (stage_of w self.old)
            (stage (w.at to.0) (length self.new.lines.points.items) (length self.new.variables.list.items))) }
    {
        self.undefine(place, temporaries)?;
        self.go_last(to)?;
        Ok(())
    }

    // Two operands are compared, and after the test the temporaries become undefined on both ways.
    fn compare(
        &mut self,
        place: Place,
        comparison: Comparison,
        left: Operand,
        right: Operand,
        temporaries: &[VarId],
        ways: Ways,
    ) -> Result<(), BuildFault>
        requires { Waits (known self.old) }
        ensures rest { OnOk result (known self.old ≡ with_label self.new.lines.goal (known self.new)) }
        ensures leads { OnOk result ((w : World) → Agrees w self.new → Agrees w self.old
            × Compares w.graph place comparison left right temporaries.now (stage_of w self.old) (w.at ways.yes.0)
            (w.at ways.no.0) (length self.new.lines.points.items) (length self.new.variables.list.items)) }
    {
        let no = self.label()?;
        let yes = self.label()?;
        let code = decides(comparison, left, right, Ways { yes, no });
        self.put_last(Role::Plain, place, code)?;
        self.clear(place, temporaries, ways.yes)?;
        self.clear(place, temporaries, ways.no)?;
        Ok(())
    }

    // An expression is not 0 or null.
    fn test_plain(
        &mut self,
        site: Site,
        expression: &Expression,
        ways: Ways,
    ) -> Result<(), BuildFault>
        requires ready { IsReady (known self.old) site.occurrence (expression_of expression.now) }
        requires waits { Waits (known self.old) }
        ensures rest { OnOk result (known self.old ≡ with_label self.new.lines.goal (known self.new)) }
        ensures leads { OnOk result ((w : World) → Agrees w self.new → Agrees w self.old
            × TestsTo w site.occurrence
            (plain_condition site.place (expression_of expression.now)) ways self.old self.new) }
    {
        let mut temporaries = Vec::new(self.alloc);
        let operand = self.evaluate(site, expression, &mut temporaries)?;
        self.compare(
            site.place,
            Comparison::Unequal,
            operand,
            nothing(),
            temporaries.as_slice(),
            ways,
        )?;
        Ok(())
    }

    // Two expressions compare so.
    fn test_comparison(
        &mut self,
        site: Site,
        comparison: Comparison,
        left: &Expression,
        right: &Expression,
        ways: Ways,
    ) -> Result<(), BuildFault>
        requires left { IsReady (known self.old) site.occurrence (expression_of left.now) }
        requires right { IsReady (known self.old) site.occurrence (expression_of right.now) }
        requires waits { Waits (known self.old) }
        ensures rest { OnOk result (known self.old ≡ with_label self.new.lines.goal (known self.new)) }
        ensures leads { OnOk result ((w : World) → Agrees w self.new → Agrees w self.old
            × TestsTo w site.occurrence
            (compare site.place comparison (expression_of left.now)
            (expression_of right.now)) ways self.old self.new) }
    {
        let mut temporaries = Vec::new(self.alloc);
        let left = self.evaluate(site, left, &mut temporaries)?;
        let right = self.evaluate(site, right, &mut temporaries)?;
        self.compare(
            site.place,
            comparison,
            left,
            right,
            temporaries.as_slice(),
            ways,
        )?;
        Ok(())
    }

    // A condition is tested from the goal on, or its parts are next.
    fn enter_condition<'c>(
        &mut self,
        occurrence: usize,
        condition: &'c Condition,
        ways: Ways,
        work: &mut Stack<Work<'c>>,
    ) -> Result<(), BuildFault>
        requires ready { IsTestReady (known self.old) occurrence (condition_of condition.now) }
        requires others { AreTestsReady (known self.old) occurrence work.old }
        requires waits { Waits (known self.old) }
        ensures rest { OnOk result ((k : Known) → known self.old ≡ with_all (froms work.old) k
            → with_all (froms work.new) k ≡ with_label self.new.lines.goal (known self.new)) }
        ensures ready { OnOk result (AreTestsReady (known self.new) occurrence work.new) }
        ensures leads { OnOk result ((w : World) (n k : ℕ) → Agrees w self.new
            → Testing w occurrence work.new (length self.new.lines.points.items)
            (length self.new.variables.list.items) n k → Agrees w self.old
            × Testing w occurrence
            (record { from = self.old.lines.goal; condition = condition.entry; ways = ways } ∷ work.old)
            (length self.old.lines.points.items) (length self.old.variables.list.items) n k) }
    {
        let from = self.lines.goal;
        match condition {
            Condition::Plain(place, expression) => {
                let site = Site {
                    occurrence,
                    place: *place,
                };
                self.test_plain(site, expression, ways)?;
                Ok(())
            }
            Condition::Compare(place, comparison, left, right) => {
                let site = Site {
                    occurrence,
                    place: *place,
                };
                self.test_comparison(site, *comparison, left, right, ways)?;
                Ok(())
            }
            Condition::Not(part) => {
                let swapped = Ways {
                    yes: ways.no,
                    no: ways.yes,
                };
                push(work, from, part, swapped)?;
                Ok(())
            }
            Condition::Both(first, second) => {
                let middle = self.label()?;
                let before = Ways {
                    yes: middle,
                    no: ways.no,
                };
                push(work, middle, second, ways)?;
                push(work, from, first, before)?;
                Ok(())
            }
            Condition::Either(first, second) => {
                let middle = self.label()?;
                let before = Ways {
                    yes: ways.yes,
                    no: middle,
                };
                push(work, middle, second, ways)?;
                push(work, from, first, before)?;
                Ok(())
            }
        }
    }

    // What is next is tested from the goal on, or its parts are next.
    fn test_next<'c>(
        &mut self,
        occurrence: usize,
        next: Work<'c>,
        work: &mut Stack<Work<'c>>,
    ) -> Result<(), BuildFault>
        requires from { next.from ≡ self.old.lines.goal }
        requires ready { IsTestReady (known self.old) occurrence (condition_of next.condition.now) }
        requires others { AreTestsReady (known self.old) occurrence work.old }
        requires waits { Waits (known self.old) }
        ensures rest { OnOk result ((k : Known) → known self.old ≡ with_all (froms work.old) k
            → with_all (froms work.new) k ≡ with_label self.new.lines.goal (known self.new)) }
        ensures ready { OnOk result (AreTestsReady (known self.new) occurrence work.new) }
        ensures leads { OnOk result ((w : World) (n k : ℕ) → Agrees w self.new
            → Testing w occurrence work.new (length self.new.lines.points.items)
            (length self.new.variables.list.items) n k → Agrees w self.old
            × Testing w occurrence (next.entry ∷ work.old) (length self.old.lines.points.items)
            (length self.old.variables.list.items) n k) }
    {
        self.enter_condition(occurrence, next.condition, next.ways, work)?;
        Ok(())
    }

    /// A condition goes one way where it is true, else the other; a loop, so that none is too deep. The label that waits first is
    /// the goal then.
    pub fn test(
        &mut self,
        occurrence: usize,
        condition: &Condition,
        ways: Ways,
    ) -> Result<(), BuildFault>
        requires ready { IsTestReady (known self.old) occurrence (condition_of condition.now) }
        requires waits { Waits (known self.old) }
        ensures rest { OnOk result (known self.old ≡ with_label self.new.lines.goal (known self.new)) }
        ensures leads { OnOk result ((w : World) → Agrees w self.new → Agrees w self.old
            × TestsTo w occurrence (condition_of condition.now) ways self.old self.new) }
    {
        let mut work = Stack::new(self.alloc);
        push(&mut work, self.lines.goal, condition, ways)?;
        'parts: for _ in 0..u64::MAX {
            match work.pop() {
                Some(next) => self.test_next(occurrence, next, &mut work)?,
                None => return Ok(()),
            }
        }
        Err(BuildFault::NoMemory)
    }

    /// A condition that goes on where it is true, and else to a label.
    pub fn test_or(
        &mut self,
        occurrence: usize,
        condition: &Condition,
        no: Label,
    ) -> Result<(), BuildFault>
        requires { IsTestReady (known self.old) occurrence (condition_of condition.now) }
        ensures same { OnOk result (Keeps self.old self.new) }
        ensures leads { OnOk result (Leads
            (λ w s u. TestsOn w.graph (w.out occurrence) (condition_of condition.now)
            (w.at no.0) s u) self.old self.new) }
    {
        let yes = self.label()?;
        self.test(occurrence, condition, Ways { yes, no })?;
        Ok(())
    }

    /// A condition that may be missing, which goes on where it is true, and else to a label.
    pub fn test_perhaps(
        &mut self,
        occurrence: usize,
        condition: Option<&Condition>,
        no: Label,
    ) -> Result<(), BuildFault>
        requires { IsTestReadyPerhaps (known self.old) occurrence (option_map (λ c. condition_of c.now) condition) }
        ensures same { OnOk result (Keeps self.old self.new) }
        ensures leads { OnOk result (Leads
            (λ w s u. TestsPerhapsOn w.graph (w.out occurrence)
            (option_map (λ c. condition_of c.now) condition.entry) (w.at no.0) s u) self.old self.new) }
    {
        match condition {
            Some(condition) => {
                self.test_or(occurrence, condition, no)?;
                Ok(())
            }
            None => Ok(()),
        }
    }
}
