// The variables of a flow graph, found by whose they are.
ghost use Rattle.std.specs.Prelude.{◌≡◌, ◌<◌, ◌↔◌, IfOk, IfSome, OnOk, IsTrue, Contains, length};
ghost use Rattle.mc_lower_spec.specs.Graphs.{Creates, IsMade, AreMade, Leaves, Uses, local, result as result_of};
ghost use Rattle.mc_lower_spec.specs.Lowering.{result_info};
ghost use Rattle.mc_semantics.specs.Resolved.Views.{function_of};
ghost use Rattle.mc_lower.specs.Knowns.{IsAnswered, IsOpen, IsThere, Keeps, known, lasting, owners_of, with_local, with_owners, with_result};
ghost use Rattle.mc_lower.specs.Once.{IsNew};
ghost use Rattle.mc_lower.specs.Owned.{CreatesLocal, IsFirst, IsLocalOf};
ghost use Rattle.mc_lower.specs.Worlds.{Agrees, Leads, World, blocks_in, owner_of, stage_of};

use crate::builder::{BuildFault, Builder};
use crate::variables::{Owner, Variable};
use mc_base::text::Place;
use mc_base::{Items, Kind, VarId, VarInfo};
use mc_semantics::resolved::{Function, Local};
use std::alloc::Global;

/// The number of the variable of this owner.
pub fn find(variables: &[Variable], owner: Owner) -> Option<usize>
    ensures { IsFirst variables.now owner result }
{
    variables
        .iter()
        .position(|variable| variable.owner == owner)
}

// The name and kind of a variable in the flow graph.
fn info_of(alloc: Global, local: &Local) -> Result<VarInfo, BuildFault>
    ensures name { IfOk result (λ info. info.name ≡ local.now.name) }
    ensures kind { IfOk result (λ info. info.kind ≡ local.now.kind) }
{
    let name = Items::of(Vec::from_slice(alloc, local.name.as_slice())?);
    Ok(VarInfo {
        name,
        kind: local.kind,
    })
}

// Whether a variable is one of these of an occurrence.
fn is_among(owner: Owner, occurrence: usize, numbers: &[usize]) -> bool
    ensures { IsTrue result ↔ IsLocalOf (λ x. Contains numbers.now x) occurrence owner }
{
    match owner {
        Owner::Local(of, number) => of == occurrence && numbers.contains(&number),
        Owner::Result(_) => false,
        Owner::Temporary(_, _) => false,
    }
}

// Whether a variable is one of the first so many of an occurrence.
fn is_below(owner: Owner, occurrence: usize, count: usize) -> bool
    ensures { IsTrue result ↔ IsLocalOf (λ x. x < count) occurrence owner }
{
    match owner {
        Owner::Local(of, number) => of == occurrence && number < count,
        Owner::Result(_) => false,
        Owner::Temporary(_, _) => false,
    }
}

impl<'a> Builder<'a> {
    // The variable of this owner.
    fn owned(&self, owner: Owner) -> Option<VarId>
        ensures none { result ≡ None → Contains (owners_of self.now.variables.list.items) owner → ⊥ }
        ensures new { result ≡ None → IsNew self.now.variables.list.items owner }
        ensures made { IfSome result (λ v. (w : World) → Agrees w self.now
            → IsMade w.graph (owner_of w.out owner) v (stage_of w self.now)) }
    {
        match find(self.variables.list.as_slice(), owner) {
            Some(number) => Some(VarId(number as u64)),
            None => None,
        }
    }

    // The next variable, for an owner who has none.
    fn create(&mut self, owner: Owner, info: VarInfo) -> Result<VarId, BuildFault>
        requires { IsNew self.old.variables.list.items owner }
        ensures same { OnOk result (known self.new ≡ with_owners (lasting owner) (known self.old)) }
        ensures leads { IfOk result (λ v. (w : World) → Agrees w self.new → Agrees w self.old
            × Creates w.graph (owner_of w.out owner) info (stage_of w self.old) v (stage_of w self.new)) }
    {
        let variable = VarId(self.variables.list.len() as u64);
        self.variables.add(Variable { owner, info })?;
        Ok(variable)
    }

    /// A variable of an occurrence, which is made.
    pub fn local(&self, occurrence: usize, number: usize) -> VarId
        requires { IsThere (known self.now) occurrence number }
        ensures { (w : World) → Agrees w self.now → IsMade w.graph (local (w.out occurrence) number) result (stage_of w self.now) }
    {
        match self.owned(Owner::Local(occurrence, number)) {
            Some(variable) => variable,
            None => unreachable!(),
        }
    }

    /// The result of an occurrence.
    pub fn own_result(&self, occurrence: usize) -> VarId
        requires { IsAnswered (known self.now) occurrence }
        ensures { (w : World) → Agrees w self.now → IsMade w.graph (result_of (w.out occurrence)) result (stage_of w self.now) }
    {
        match self.owned(Owner::Result(occurrence)) {
            Some(variable) => variable,
            None => unreachable!(),
        }
    }

    /// Makes a variable of an occurrence of a function.
    pub fn create_local(
        &mut self,
        function: &Function,
        occurrence: usize,
        number: usize,
    ) -> Result<VarId, BuildFault>
        requires low { number < length function.now.locals.items }
        requires new { IsThere (known self.old) occurrence number → ⊥ }
        ensures same { OnOk result (known self.new ≡ with_local occurrence number (known self.old)) }
        ensures leads { IfOk result (λ v. (w : World) → Agrees w self.new → Agrees w self.old
            × CreatesLocal w.graph (function_of function.now) (w.out occurrence) number (stage_of w self.old) v
            (stage_of w self.new)) }
    {
        let Some(local) = function.locals.get(number) else {
            unreachable!();
        };
        let info = info_of(self.alloc, local)?;
        let variable = self.create(Owner::Local(occurrence, number), info)?;
        Ok(variable)
    }

    /// Makes the result of an occurrence.
    pub fn create_result(&mut self, occurrence: usize, kind: Kind) -> Result<VarId, BuildFault>
        requires { IsAnswered (known self.old) occurrence → ⊥ }
        ensures same { OnOk result (known self.new ≡ with_result occurrence (known self.old)) }
        ensures leads { IfOk result (λ v. (w : World) → Agrees w self.new → Agrees w self.old
            × Creates w.graph (result_of (w.out occurrence)) (result_info kind) (stage_of w self.old) v
            (stage_of w self.new)) }
    {
        let name = Items::of(Vec::from_slice(self.alloc, b"$ret")?);
        let variable = self.create(Owner::Result(occurrence), VarInfo { name, kind })?;
        Ok(variable)
    }

    /// The temporary of this number and kind, made at its first use.
    pub fn temporary(&mut self, number: usize, kind: Kind) -> Result<VarId, BuildFault>
        ensures same { OnOk result (Keeps self.old self.new) }
        ensures leads { IfOk result (λ v. (w : World) → Agrees w self.new → Agrees w self.old
            × Uses w.graph number kind (stage_of w self.old) v (stage_of w self.new)) }
    {
        if let Some(variable) = self.owned(Owner::Temporary(number, kind)) {
            return Ok(variable);
        }
        let name = Items::new(self.alloc);
        let variable = self.create(Owner::Temporary(number, kind), VarInfo { name, kind })?;
        Ok(variable)
    }

    // Those of these variables of an occurrence that are made by now, ascending.
    fn made_among(&self, occurrence: usize, numbers: &[usize]) -> Result<Vec<VarId>, BuildFault>
        ensures { IfOk result (λ vs. (w : World) → Agrees w self.now
            → AreMade w.graph (w.out occurrence) (λ x. Contains numbers.now x) (stage_of w self.now) vs.items) }
    {
        let mut made = Vec::new(self.alloc);
        for number in 0..self.variables.list.len() {
            if is_among(self.variables.list[number].owner, occurrence, numbers) {
                made.push(VarId(number as u64))?;
            }
        }
        Ok(made)
    }

    /// Those of the first so many variables of an occurrence that are made by now, ascending.
    pub fn made_below(&self, occurrence: usize, count: usize) -> Result<Vec<VarId>, BuildFault>
        ensures { IfOk result (λ vs. (w : World) → Agrees w self.now
            → AreMade w.graph (w.out occurrence) (λ x. x < count) (stage_of w self.now) vs.items) }
    {
        let mut made = Vec::new(self.alloc);
        for number in 0..self.variables.list.len() {
            if is_below(self.variables.list[number].owner, occurrence, count) {
                made.push(VarId(number as u64))?;
            }
        }
        Ok(made)
    }

    /// Of these variables of an occurrence, those that are made by now become undefined.
    pub fn leave(
        &mut self,
        place: Place,
        occurrence: usize,
        numbers: &[usize],
    ) -> Result<(), BuildFault>
        ensures same { OnOk result (Keeps self.old self.new) }
        ensures leads { OnOk result (Leads (λ w s u. Leaves w.graph (w.out occurrence) place numbers.now s u) self.old self.new) }
    {
        let made = self.made_among(occurrence, numbers)?;
        self.undefine(place, made.as_slice())?;
        Ok(())
    }

    /// Of the variables of a block and of those around it in the same loop, those that are made by now become undefined.
    pub fn leave_blocks(
        &mut self,
        place: Place,
        occurrence: usize,
        block: Option<usize>,
    ) -> Result<(), BuildFault>
        requires { IsOpen (known self.old) block }
        ensures same { OnOk result (Keeps self.old self.new) }
        ensures leads { OnOk result (Leads (λ w s u. Leaves w.graph (w.out occurrence) place (blocks_in w block) s u) self.old self.new) }
    {
        let numbers = self.numbers_in(block)?;
        self.leave(place, occurrence, numbers.as_slice())?;
        Ok(())
    }
}
