// A flow graph while it is made: its points go on to labels, which become points at the end.
ghost use Rattle.std.specs.Prelude.{[], ◌≡◌, ◌<◌, ◌++◌, OnOk, IfOk};
ghost use Rattle.mc_lower_spec.specs.Graphs.{Appends, Undefines, plain, point};
ghost use Rattle.mc_flow.specs.declared.instr.Instr.TheVariants.{Skip, Copy, Undef};
ghost use Rattle.mc_lower.specs.declared.lines.Awaited.{Awaited};
ghost use Rattle.mc_lower.specs.Knowns.{IsOpen, Keeps, Known, Waits, known, nothing_known, with_block, with_label, with_next, with_occurrence};
ghost use Rattle.mc_lower.specs.Lines.{label_of};
ghost use Rattle.mc_lower.specs.Worlds.{GoesTo, World, Agrees, IsPut, Lands, Lays, Leads, blocks_in, role_of};

use crate::lines::Lines;
use crate::variables::Variables;
use mc_base::text::Place;
use mc_base::{Items, PointId, VarId};
use mc_flow::defs::Structs;
use mc_flow::{Instr, Operand};
use mc_semantics::resolved::Resolved;
use std::alloc::{AllocError, AllocFailed, Global};

/// The most points that a flow graph has.
pub const MAX_POINTS: usize = 10000;

/// The place of a point that has none of its own.
pub const NOWHERE: Place = Place { line: 1, column: 1 };

/// Why no flow graph is made.
#[derive(Clone, Copy, Debug, PartialEq, Eq)]
pub enum BuildFault {
    NoMemory,
}

impl From<AllocError> for BuildFault {
    fn from(_: AllocError) -> BuildFault {
        BuildFault::NoMemory
    }
}

impl<T: Drop> From<AllocFailed<T>> for BuildFault {
    fn from(_e: AllocFailed<T>) -> BuildFault {
        BuildFault::NoMemory
    }
}

/// A point that may not be known yet.
#[derive(Clone, Copy, Debug, PartialEq, Eq)]
pub struct Label(pub u64);

impl Label {
    /// The label as the target of an instruction, until labels become points.
    pub fn target(self) -> PointId
        ensures { result ≡ point self.0 }
    {
        PointId(self.0)
    }
}

/// What is known of a label: its point, or that it is the point of another.
#[derive(Clone, Copy)]
pub enum Mark {
    At(Label, usize),
    Same(Label, Label),
}

/// What a point is: a loop's head, where the ways of an `if` meet, an End that counts as a stop, or none of these.
#[derive(Clone, Copy, Debug, PartialEq, Eq)]
pub enum Role {
    Plain,
    Head,
    Merge,
    Stop,
}

/// A point whose targets are labels.
#[derive(Drop)]
pub struct Draft {
    pub role: Role,
    pub code: Instr,
    pub place: Place,
}

/// A flow graph so far.
#[derive(Drop)]
pub struct Builder<'a> {
    pub alloc: Global,
    pub program: &'a Resolved,
    pub structs: &'a Structs,
    pub lines: Lines,
    pub variables: Variables,
    /// The variables of each block and of those around it in the same loop.
    pub blocks: Vec<Vec<usize>>,
}

impl<'a> Builder<'a> {
    /// The empty flow graph, whose goal is its first point.
    pub fn new(alloc: Global, program: &'a Resolved, structs: &'a Structs) -> Builder<'a>
        ensures points { result.lines.points.items ≡ [] }
        ensures variables { result.variables.list.items ≡ [] }
        ensures known { known result ≡ nothing_known program.now structs.now }
        ensures program { result.program.now ≡ program.now }
        ensures structs { result.structs.now ≡ structs.now }
    {
        Builder {
            alloc,
            program,
            structs,
            lines: Lines::new(alloc),
            variables: Variables::new(alloc),
            blocks: Vec::new(alloc),
        }
    }

    /// The label that is new next.
    pub fn next(&self) -> Label
        ensures { result ≡ record { 0 = self.now.lines.labels } }
    {
        self.lines.next()
    }

    /// A new label, which waits first.
    pub fn label(&mut self) -> Result<Label, BuildFault>
        ensures known { IfOk result (λ l. known self.new ≡ with_label l (known self.old)) }
        ensures kept { OnOk result (Leads (λ w s u. s ≡ u) self.old self.new) }
        ensures goal { OnOk result (self.new.lines.goal ≡ self.old.lines.goal) }
    {
        let label = self.lines.wait()?;
        Ok(label)
    }

    /// A new occurrence of a function; where its `return` goes waits first.
    pub fn occur(&mut self) -> Result<usize, BuildFault>
        ensures leads { OnOk result (Leads (λ w s u. s ≡ u) self.old self.new) }
        ensures last { IfOk result (λ i. i ≡ (known self.old).state.occurrences) }
        ensures same { OnOk result (known self.new ≡ with_occurrence (known self.old)) }
    {
        let occurrence = self.lines.occur()?;
        Ok(occurrence)
    }

    /// Where the `return` of an occurrence goes.
    pub fn out(&self, occurrence: usize) -> Label
        requires { occurrence < (known self.now).state.occurrences }
        ensures { (w : World) → Agrees w self.now → w.at result.0 ≡ w.out occurrence }
    {
        match self.lines.outs.get(occurrence) {
            Some(label) => *label,
            None => unreachable!(),
        }
    }

    // The variables of a block and of those around it in the same loop.
    fn numbers_of(&self, block: usize) -> Result<Vec<usize>, BuildFault>
        requires { block < (known self.now).state.blocks }
        ensures { IfOk result (λ xs. (w : World) → Agrees w self.now → xs.items ≡ w.blocks block) }
    {
        match self.blocks.get(block) {
            Some(numbers) => {
                let again = Vec::from_slice(self.alloc, numbers.as_slice())?;
                Ok(again)
            }
            None => unreachable!(),
        }
    }

    /// The variables of a block, if any, and of those around it in the same loop.
    pub fn numbers_in(&self, block: Option<usize>) -> Result<Vec<usize>, BuildFault>
        requires { IsOpen (known self.now) block }
        ensures { IfOk result (λ xs. (w : World) → Agrees w self.now → xs.items ≡ blocks_in w block) }
    {
        match block {
            Some(number) => self.numbers_of(number),
            None => Ok(Vec::new(self.alloc)),
        }
    }

    // A block with these variables, those around it among them.
    fn open_all(&mut self, numbers: Vec<usize>) -> Result<usize, BuildFault>
        ensures kept { OnOk result (Leads (λ w s u. s ≡ u) self.old self.new) }
        ensures opened { IfOk result (λ i. (w : World) → Agrees w self.new → w.blocks i ≡ numbers.items) }
        ensures last { IfOk result (λ i. i ≡ (known self.old).state.blocks) }
        ensures same { OnOk result (known self.new ≡ with_block (known self.old)) }
    {
        let block = self.blocks.len();
        self.blocks.push(numbers)?;
        Ok(block)
    }

    /// A block with these variables, inside another one.
    pub fn open(&mut self, numbers: &[usize], around: Option<usize>) -> Result<usize, BuildFault>
        requires { IsOpen (known self.old) around }
        ensures kept { OnOk result (Leads (λ w s u. s ≡ u) self.old self.new) }
        ensures opened { IfOk result (λ i. (w : World) → Agrees w self.new → w.blocks i ≡ numbers.now ++ blocks_in w around) }
        ensures last { IfOk result (λ i. i ≡ (known self.old).state.blocks) }
        ensures same { OnOk result (known self.new ≡ with_block (known self.old)) }
    {
        let outer = self.numbers_in(around)?;
        let mut all = Vec::from_slice(self.alloc, numbers)?;
        all.extend_from_slice(outer.as_slice())?;
        let block = self.open_all(all)?;
        Ok(block)
    }

    /// What was made goes on to this label, and what is made next is reached from elsewhere alone.
    pub fn go(&mut self, label: Label) -> Result<(), BuildFault>
        ensures same { OnOk result (Keeps self.old self.new) }
        ensures leads { OnOk result (Leads (λ w s u. GoesTo (w.at label.0) s u) self.old self.new) }
    {
        self.lines.go(label)?;
        Ok(())
    }

    /// What was made goes on to this label; the label that waits first is the goal then.
    pub fn go_last(&mut self, label: Label) -> Result<(), BuildFault>
        requires { Waits (known self.old) }
        ensures rest { OnOk result (known self.old ≡ with_label self.new.lines.goal (known self.new)) }
        ensures leads { OnOk result (Leads (λ w s u. GoesTo (w.at label.0) s u) self.old self.new) }
    {
        self.lines.go_last(label)?;
        Ok(())
    }

    /// A point at the goal that goes on to the label that is new next, which is the goal then. The points of a program are
    /// counted before, so they are few.
    pub fn append(&mut self, role: Role, place: Place, code: Instr) -> Result<(), BuildFault>
        ensures same { OnOk result (Keeps self.old self.new) }
        ensures leads { OnOk result (Leads (λ w s u. Lays w role place code (record { 0 = self.old.lines.labels }) s u) self.old self.new) }
    {
        self.lines.put(Draft { role, code, place })?;
        Ok(())
    }

    /// A point at the goal; the label that waits first is the goal then.
    pub fn put_last(&mut self, role: Role, place: Place, code: Instr) -> Result<(), BuildFault>
        requires { Waits (known self.old) }
        ensures rest { OnOk result (known self.old ≡ with_label self.new.lines.goal (known self.new)) }
        ensures leads { OnOk result ((w : World) → Agrees w self.new → Agrees w self.old × IsPut w role place code self.old self.new) }
    {
        self.lines.put_last(Draft { role, code, place })?;
        Ok(())
    }

    /// What was made goes on to the label that waits first, and there is this point, which goes on to the label that is new next.
    pub fn land(&mut self, role: Role, place: Place, code: Instr) -> Result<(), BuildFault>
        requires { (a : Awaited) × (k : Known) × (known self.old ≡ with_next a k) }
        ensures rest { OnOk result ((a : Awaited) (k : Known) → known self.old ≡ with_next a k → known self.new ≡ k) }
        ensures leads { OnOk result ((a : Awaited) (k : Known) → known self.old ≡ with_next a k
            → Leads (λ w s u. Lands w (w.at (label_of self.old.lines.outs.items a).0) role place code
            (record { 0 = self.old.lines.labels }) s u) self.old self.new) }
    {
        self.lines.land(Draft { role, code, place })?;
        Ok(())
    }

    /// A Skip.
    pub fn skip(&mut self, role: Role, place: Place) -> Result<(), BuildFault>
        ensures same { OnOk result (Keeps self.old self.new) }
        ensures leads { OnOk result (Leads (λ w s u. Appends w.graph (role_of role) place (λ q. Skip q) s u) self.old self.new) }
    {
        let next = self.next();
        self.append(role, place, Instr::Skip(next.target()))?;
        Ok(())
    }

    /// A Copy.
    pub fn copy(
        &mut self,
        place: Place,
        variable: VarId,
        operand: Operand,
    ) -> Result<(), BuildFault>
        ensures same { OnOk result (Keeps self.old self.new) }
        ensures leads { OnOk result (Leads (λ w s u. Appends w.graph plain place (λ q. Copy variable operand q) s u) self.old self.new) }
    {
        let next = self.next();
        self.append(
            Role::Plain,
            place,
            Instr::Copy(variable, operand, next.target()),
        )?;
        Ok(())
    }

    /// Variables become undefined by one point, though there may be none.
    pub fn undefine_all(&mut self, place: Place, variables: &[VarId]) -> Result<(), BuildFault>
        ensures same { OnOk result (Keeps self.old self.new) }
        ensures leads { OnOk result (Leads (λ w s u. Appends w.graph plain place (λ q. Undef variables.now q) s u) self.old self.new) }
    {
        let next = self.next();
        let list = Items::of(Vec::from_slice(self.alloc, variables)?);
        self.append(Role::Plain, place, Instr::Undef(list, next.target()))?;
        Ok(())
    }

    /// Variables become undefined by one point, where there are any.
    pub fn undefine(&mut self, place: Place, variables: &[VarId]) -> Result<(), BuildFault>
        ensures same { OnOk result (Keeps self.old self.new) }
        ensures leads { OnOk result (Leads (λ w s u. Undefines w.graph place variables.now s u) self.old self.new) }
    {
        if variables.is_empty() {
            return Ok(());
        }
        self.undefine_all(place, variables)?;
        Ok(())
    }
}
