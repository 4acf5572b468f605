// The points of assignments without calls.
ghost use Rattle.std.specs.Prelude.{[], ℕ, ◌≡◌, ◌<◌, OnOk, length, map};
ghost use Rattle.mc_flow.specs.declared.instr.Instr.TheVariants.{Free, Malloc, Store};
ghost use Rattle.mc_flow.specs.declared.instr.Operand.TheVariants.{Var};
ghost use Rattle.mc_lower_spec.specs.Graphs.{Appends, Stage, plain};
ghost use Rattle.mc_lower_spec.specs.Lowering.{Assigns, Changes, SetsTo};
ghost use Rattle.mc_lower_spec.specs.Values.{Evaluates, Puts};
ghost use Rattle.mc_semantics.specs.Resolved.Programs.{Expr, allocation, expression as value_of};
ghost use Rattle.mc_semantics.specs.Resolved.Views.{expression_of, left_of, right_of};
ghost use Rattle.mc_flow.specs.Steps.{field_count};
ghost use Rattle.mc_lower.specs.Knowns.{IsThere, Keeps, known};
ghost use Rattle.mc_lower.specs.Ready.{HaveKinds, IsNamed, IsPlainReady, IsReady};
ghost use Rattle.mc_lower.specs.Valued.{Frees, PutsField, joined, target_of};
ghost use Rattle.mc_lower.specs.Worlds.{Agrees, Leads, World, stage_of};

use crate::builder::{BuildFault, Builder, Role};
use crate::values::{How, Operation, Site, Target, Value};
use mc_base::text::Place;
use mc_base::{Kind, StructId, VarId};
use mc_flow::{Instr, Operand};
use mc_semantics::resolved::{Expression, FieldAt, LeftValue, RightSide};

impl<'a> Builder<'a> {
    // A variable gets new memory.
    fn allocate(&mut self, place: Place, variable: VarId, shape: StructId) -> Result<(), BuildFault>
        ensures same { OnOk result (Keeps self.old self.new) }
        ensures leads { OnOk result (Leads (λ w s u. Appends w.graph plain place (λ q. Malloc variable shape q) s u) self.old self.new) }
    {
        let next = self.next();
        self.append(
            Role::Plain,
            place,
            Instr::Malloc(variable, shape, next.target()),
        )?;
        Ok(())
    }

    // A field of the block to which a variable points gets an operand.
    fn store(
        &mut self,
        place: Place,
        base: VarId,
        field: FieldAt,
        operand: Operand,
    ) -> Result<(), BuildFault>
        ensures same { OnOk result (Keeps self.old self.new) }
        ensures leads { OnOk result (Leads
            (λ w s u. Appends w.graph plain place
            (λ q. Store base field.shape field.field operand q) s u) self.old self.new) }
    {
        let next = self.next();
        self.append(
            Role::Plain,
            place,
            Instr::Store(
                base,
                field.shape,
                field.field as u64,
                operand,
                next.target(),
            ),
        )?;
        Ok(())
    }

    // A variable is set to the value of an expression: by its last instruction, or by a Copy.
    fn set_to_value(
        &mut self,
        site: Site,
        variable: VarId,
        expression: &Expression,
    ) -> Result<(), BuildFault>
        requires { IsReady (known self.old) site.occurrence (expression_of expression.now) }
        ensures same { OnOk result (Keeps self.old self.new) }
        ensures leads { OnOk result (Leads
            (λ w s u. SetsTo w.graph (w.out site.occurrence) site.place variable
            (value_of (expression_of expression.now)) s u) self.old self.new) }
    {
        let mut temporaries = Vec::new(self.alloc);
        match self.compute(site, expression, &mut temporaries)? {
            Value::Ready(operand) => {
                self.copy(site.place, variable, operand)?;
                Ok(())
            }
            Value::Computed(_, operation) => {
                self.set(site.place, variable, operation)?;
                self.undefine(site.place, temporaries.as_slice())?;
                Ok(())
            }
        }
    }

    // A variable is set to new memory.
    fn set_to_new(
        &mut self,
        place: Place,
        variable: VarId,
        shape: StructId,
        count: usize,
    ) -> Result<(), BuildFault>
        requires { field_count (known self.old).source.structs shape ≡ count }
        ensures same { OnOk result (Keeps self.old self.new) }
        ensures leads { OnOk result ((i : ℕ)
            → Leads
            (λ w s u. SetsTo w.graph (w.out i) place variable (allocation shape.0 count) s u) self.old self.new) }
    {
        self.allocate(place, variable, shape)?;
        Ok(())
    }

    /// A variable of the flow graph is set to an expression or to new memory.
    pub fn set_to(
        &mut self,
        site: Site,
        variable: VarId,
        right: &RightSide,
    ) -> Result<(), BuildFault>
        requires { IsPlainReady (known self.old) site.occurrence (right_of right.now) }
        ensures same { OnOk result (Keeps self.old self.new) }
        ensures leads { OnOk result (Leads
            (λ w s u. SetsTo w.graph (w.out site.occurrence) site.place variable
            (right_of right.now) s u) self.old self.new) }
    {
        match right {
            RightSide::Expression(expression) => {
                self.set_to_value(site, variable, expression)?;
                Ok(())
            }
            RightSide::Malloc(shape, count) => {
                self.set_to_new(site.place, variable, *shape, *count)?;
                Ok(())
            }
            RightSide::Call(_) => unreachable!(),
        }
    }

    // An operand is put into a variable.
    fn put_into_variable(
        &mut self,
        site: Site,
        number: usize,
        operand: Operand,
        temporaries: &[VarId],
    ) -> Result<(), BuildFault>
        requires { IsThere (known self.old) site.occurrence number }
        ensures same { OnOk result (Keeps self.old self.new) }
        ensures leads { OnOk result (Leads
            (λ w s u. Puts w.graph (w.out site.occurrence) site.place
            (record { variable = number; fields = [] }) operand temporaries.now s u) self.old self.new) }
    {
        let variable = self.local(site.occurrence, number);
        self.copy(site.place, variable, operand)?;
        self.undefine(site.place, temporaries)?;
        Ok(())
    }

    // An operand is put into a field.
    fn put_into_field(
        &mut self,
        site: Site,
        target: Target,
        operand: Operand,
        temporaries: &mut Vec<VarId>,
    ) -> Result<(), BuildFault>
        requires some { 0 < length target.fields.now }
        requires named { IsNamed (known self.old) site.occurrence (target_of target) }
        ensures same { OnOk result (Keeps self.old self.new) }
        ensures leads { OnOk result (Leads
            (λ w s u. PutsField w.graph (w.out site.occurrence) site.place
            (target_of target.entry) operand temporaries.old.items s u) self.old self.new) }
    {
        let variable = self.local(site.occurrence, target.variable);
        let (base, last) = self.walk(site.place, variable, target.fields, temporaries)?;
        self.store(site.place, base, last, operand)?;
        self.undefine(site.place, temporaries.as_slice())?;
        Ok(())
    }

    /// An operand is put into a variable or a field, and the temporaries become undefined.
    pub fn put_into(
        &mut self,
        site: Site,
        target: Target,
        operand: Operand,
        temporaries: &mut Vec<VarId>,
    ) -> Result<(), BuildFault>
        requires { IsNamed (known self.old) site.occurrence (target_of target) }
        ensures same { OnOk result (Keeps self.old self.new) }
        ensures leads { OnOk result (Leads
            (λ w s u. Puts w.graph (w.out site.occurrence) site.place
            (target_of target.entry) operand temporaries.old.items s u) self.old self.new) }
    {
        if target.fields.is_empty() {
            self.put_into_variable(site, target.variable, operand, temporaries.as_slice())?;
            return Ok(());
        }
        self.put_into_field(site, target, operand, temporaries)?;
        Ok(())
    }

    // The value of an expression is put into a field.
    fn assign_value(
        &mut self,
        site: Site,
        target: Target,
        expression: &Expression,
    ) -> Result<(), BuildFault>
        requires some { 0 < length target.fields.now }
        requires named { IsNamed (known self.old) site.occurrence (target_of target) }
        requires ready { IsReady (known self.old) site.occurrence (expression_of expression.now) }
        ensures same { OnOk result (Keeps self.old self.new) }
        ensures leads { OnOk result (Leads
            (λ w s u. Assigns w.graph (w.out site.occurrence) site.place (target_of target.entry)
            (value_of (expression_of expression.now)) s u) self.old self.new) }
    {
        let mut temporaries = Vec::new(self.alloc);
        let operand = self.evaluate(site, expression, &mut temporaries)?;
        self.put_into_field(site, target, operand, &mut temporaries)?;
        Ok(())
    }

    // New memory is put into a field.
    fn assign_new(
        &mut self,
        site: Site,
        target: Target,
        shape: StructId,
        count: usize,
    ) -> Result<(), BuildFault>
        requires some { 0 < length target.fields.now }
        requires named { IsNamed (known self.old) site.occurrence (target_of target) }
        requires count { field_count (known self.old).source.structs shape ≡ count }
        ensures same { OnOk result (Keeps self.old self.new) }
        ensures leads { OnOk result (Leads
            (λ w s u. Assigns w.graph (w.out site.occurrence) site.place (target_of target.entry)
            (allocation shape.0 count) s u) self.old self.new) }
    {
        let variable = self.temporary(0, Kind::Ptr)?;
        self.allocate(site.place, variable, shape)?;
        let mut temporaries = Vec::new(self.alloc);
        temporaries.push(variable)?;
        self.put_into_field(site, target, Operand::Var(variable), &mut temporaries)?;
        Ok(())
    }

    // A value or new memory is put into a field.
    fn assign_field(
        &mut self,
        site: Site,
        target: Target,
        right: &RightSide,
    ) -> Result<(), BuildFault>
        requires some { 0 < length target.fields.now }
        requires named { IsNamed (known self.old) site.occurrence (target_of target) }
        requires right { IsPlainReady (known self.old) site.occurrence (right_of right.now) }
        ensures same { OnOk result (Keeps self.old self.new) }
        ensures leads { OnOk result (Leads
            (λ w s u. Assigns w.graph (w.out site.occurrence) site.place (target_of target.entry)
            (right_of right.now) s u) self.old self.new) }
    {
        match right {
            RightSide::Expression(expression) => {
                self.assign_value(site, target, expression)?;
                Ok(())
            }
            RightSide::Malloc(shape, count) => {
                self.assign_new(site, target, *shape, *count)?;
                Ok(())
            }
            RightSide::Call(_) => unreachable!(),
        }
    }

    /// A value or new memory is put into a variable or a field.
    pub fn assign(
        &mut self,
        site: Site,
        target: Target,
        right: &RightSide,
    ) -> Result<(), BuildFault>
        requires named { IsNamed (known self.old) site.occurrence (target_of target) }
        requires right { IsPlainReady (known self.old) site.occurrence (right_of right.now) }
        ensures same { OnOk result (Keeps self.old self.new) }
        ensures leads { OnOk result (Leads
            (λ w s u. Assigns w.graph (w.out site.occurrence) site.place (target_of target.entry)
            (right_of right.now) s u) self.old self.new) }
    {
        if target.fields.is_empty() {
            let variable = self.local(site.occurrence, target.variable);
            self.set_to(site, variable, right)?;
            return Ok(());
        }
        self.assign_field(site, target, right)?;
        Ok(())
    }

    // A variable is changed by an operand.
    fn change_variable(
        &mut self,
        site: Site,
        how: How,
        number: usize,
        operand: Operand,
        temporaries: &[VarId],
    ) -> Result<(), BuildFault>
        requires { IsThere (known self.old) site.occurrence number }
        ensures same { OnOk result (Keeps self.old self.new) }
        ensures leads { OnOk result (Leads
            (λ w s u. (e : Expr) (r : Stage)
            → Evaluates w.graph (w.out site.occurrence) site.place e [] r operand temporaries.now s
            → Changes w.graph (w.out site.occurrence) site.place (joined how)
            (record { variable = number; fields = [] }) e r u) self.old self.new) }
    {
        let variable = self.local(site.occurrence, number);
        self.set(
            site.place,
            variable,
            how.of(Operand::Var(variable), operand),
        )?;
        self.undefine(site.place, temporaries)?;
        Ok(())
    }

    // A field is loaded, computed and stored.
    fn change_field(
        &mut self,
        site: Site,
        how: How,
        left: &LeftValue,
        operand: Operand,
        temporaries: &mut Vec<VarId>,
    ) -> Result<(), BuildFault>
        requires some { 0 < length left.now.fields.items }
        requires named { IsNamed (known self.old) site.occurrence (left_of left.now) }
        ensures same { OnOk result (Keeps self.old self.new) }
        ensures leads { OnOk result (Leads
            (λ w s u. (e : Expr) (r : Stage)
            → Evaluates w.graph (w.out site.occurrence) site.place e [] r operand temporaries.old.items s
            → Changes w.graph (w.out site.occurrence) site.place (joined how)
            (left_of left.now) e r u) self.old self.new) }
    {
        let variable = self.local(site.occurrence, left.variable);
        let (base, last) = self.walk(site.place, variable, left.fields.as_slice(), temporaries)?;
        let kind = self.field_kind(last);
        let loaded = Operation::Field(base, last);
        let old = self.take(site.place, kind, loaded, temporaries)?;
        let changed = how.of(Operand::Var(old), operand);
        let new = self.take(site.place, Kind::Int, changed, temporaries)?;
        self.store(site.place, base, last, Operand::Var(new))?;
        self.undefine(site.place, temporaries.as_slice())?;
        Ok(())
    }

    /// `+=` and `-=`.
    pub fn change(
        &mut self,
        site: Site,
        how: How,
        left: &LeftValue,
        expression: &Expression,
    ) -> Result<(), BuildFault>
        requires named { IsNamed (known self.old) site.occurrence (left_of left.now) }
        requires ready { IsReady (known self.old) site.occurrence (expression_of expression.now) }
        ensures same { OnOk result (Keeps self.old self.new) }
        ensures leads { OnOk result (Leads
            (λ w s u. Changes w.graph (w.out site.occurrence) site.place (joined how) (left_of left.now)
            (expression_of expression.now) s u) self.old self.new) }
    {
        let mut temporaries = Vec::new(self.alloc);
        let operand = self.evaluate(site, expression, &mut temporaries)?;
        if left.fields.is_empty() {
            self.change_variable(site, how, left.variable, operand, temporaries.as_slice())?;
            return Ok(());
        }
        self.change_field(site, how, left, operand, &mut temporaries)?;
        Ok(())
    }

    // A block is freed.
    fn release(&mut self, place: Place, operand: Operand) -> Result<(), BuildFault>
        ensures same { OnOk result (Keeps self.old self.new) }
        ensures leads { OnOk result (Leads (λ w s u. Appends w.graph plain place (λ q. Free operand q) s u) self.old self.new) }
    {
        let next = self.next();
        self.append(Role::Plain, place, Instr::Free(operand, next.target()))?;
        Ok(())
    }

    /// `free`.
    pub fn free(&mut self, site: Site, pointer: &Expression) -> Result<(), BuildFault>
        requires { IsReady (known self.old) site.occurrence (expression_of pointer.now) }
        ensures same { OnOk result (Keeps self.old self.new) }
        ensures leads { OnOk result (Leads
            (λ w s u. Frees w.graph (w.out site.occurrence) site.place
            (expression_of pointer.now) s u) self.old self.new) }
    {
        let mut temporaries = Vec::new(self.alloc);
        let operand = self.evaluate(site, pointer, &mut temporaries)?;
        self.release(site.place, operand)?;
        self.undefine(site.place, temporaries.as_slice())?;
        Ok(())
    }
}
