// The items of a rule, judged in their order.
ghost use Rattle.mc_def_read.specs.Judging.{Context, arguments, call_at, call_with, call, bounded, item, items, Finds};
ghost use Rattle.mc_def_read.specs.Scopes.{scope_of, body_of, setting_of};
ghost use Rattle.std.specs.Prelude.{◌≡◌, [], Bool, length, map};

use crate::kept::Scope;
use crate::scope::{at, value};
use mc_base::text::Text;
use mc_base::{Args, Items, Kind, PredId};
use mc_c_syntax::ast::Name;
use mc_c_syntax::names::Names;
use mc_def_parse::{
    Bound, Cause, DefFault, DefText, Item, Number, Parameter, Refusal, Relation, Sum,
};
use mc_flow::defs::{Call, DefAtom, StructInfo};
use std::alloc::Global;

const LEAST: i64 = -2147483648;

const GREATEST: i64 = 2147483647;

/// What the rules of a file may speak of: structs and definitions, by their names too.
#[derive(Drop)]
pub struct Setting<'a, 's> {
    pub structs: &'s [StructInfo],
    pub shapes: Names<'s>,
    pub file: &'a [DefText],
    pub preds: Names<'a>,
    /// The word `this`.
    pub this: &'a Text,
}

/// What a rule says up to an item.
#[derive(Drop)]
pub struct Body<'a, 'b> {
    pub scope: Scope<'a, 'b>,
    pub calls: Items<Call>,
    pub atoms: Items<DefAtom>,
}

// One name for each parameter, of its kind.
fn arguments(
    alloc: Global,
    scope: &Scope,
    params: &[Parameter],
    names: &[Name],
) -> Result<Args<u64>, DefFault>
    requires { length names.now ≡ length params.now }
    ensures { Finds (arguments (scope_of scope.now) (map (λ p. p.kind) params.now) names.now) (λ numbers. numbers) result }
{
    let mut numbers = Args::new(alloc);
    for (i, name) in names.iter().enumerate() {
        numbers.push(scope.typed(params[i].kind, name)?)?;
    }
    Ok(numbers)
}

fn call_at(
    alloc: Global,
    scope: &Scope,
    pred: usize,
    params: &[Parameter],
    first: &Name,
    names: &[Name],
) -> Result<Call, DefFault>
    requires { length names.now ≡ length params.now }
    ensures { Finds (call_at (scope_of scope.now) pred (map (λ p. p.kind) params.now) first.now names.now) (λ call. call) result }
{
    let at = scope.typed(Kind::Ptr, first)?;
    let args = arguments(alloc, scope, params, names)?;
    Ok(Call {
        pred: PredId(pred as u64),
        at,
        args,
    })
}

fn call_with(
    alloc: Global,
    scope: &Scope,
    pred: usize,
    params: &[Parameter],
    name: &Name,
    args: &[Name],
) -> Result<Call, DefFault>
    ensures { Finds (call_with (scope_of scope.now) pred (map (λ p. p.kind) params.now) name.now args.now) (λ call. call) result }
{
    match args {
        [first, rest @ ..] if rest.len() == params.len() => {
            call_at(alloc, scope, pred, params, first, rest)
        }
        _ => Err(DefFault::Refused(at(Cause::Arity, name))),
    }
}

fn bounded(scope: &Scope, name: &Name, lo: i64, hi: i64) -> Result<DefAtom, Refusal>
    ensures { bounded (scope_of scope.now) name.now lo hi ≡ result }
{
    let left = scope.typed(Kind::Int, name)?;
    Ok(DefAtom::In { left, lo, hi })
}

impl<'a, 's> Setting<'a, 's> {
    /// A call in a rule, which must have a block.
    fn call(
        &self,
        alloc: Global,
        guarded: bool,
        scope: &Scope,
        name: &Name,
        args: &[Name],
    ) -> Result<Call, DefFault>
        ensures { Finds (call (setting_of self.now) guarded (scope_of scope.now) name.now args.now) (λ call. call) result }
    {
        let Some(pred) = self.preds.place(&name.text) else {
            return Err(DefFault::Refused(at(Cause::UnknownName, name)));
        };
        let Some(def) = self.file.get(pred) else {
            return Err(DefFault::Refused(at(Cause::UnknownName, name)));
        };
        if !guarded {
            return Err(DefFault::Refused(at(Cause::Unguarded, name)));
        }
        call_with(alloc, scope, pred, def.head.params.as_slice(), name, args)
    }
}

impl<'a, 'b> Body<'a, 'b> {
    /// A rule in which nothing is said.
    pub fn new(alloc: Global, scope: Scope<'a, 'b>) -> Body<'a, 'b>
        ensures scope { result.scope ≡ scope.entry }
        ensures calls { result.calls ≡ [] }
        ensures atoms { result.atoms ≡ [] }
    {
        Body {
            scope,
            calls: Items::new(alloc),
            atoms: Items::new(alloc),
        }
    }

    fn fix(&mut self, alloc: Global, kind: Kind, name: &'a Name, sum: &Sum) -> Result<(), DefFault>
        ensures { (context : Context) (guarded : Bool)
            → Finds (item context guarded (body_of self.old) (Item.Relates name.now (Relation.Fixes kind) sum.now))
            (λ done. body_of self.new) result }
    {
        let left = self.scope.kinds.len() as u64;
        if self.scope.place(&name.text).is_some() {
            return Err(DefFault::Refused(at(Cause::Twice, name)));
        }
        let added = self.scope.sum(kind, sum)?;
        self.scope.push(alloc, kind, &name.text)?;
        self.atoms.push(DefAtom::Eq {
            left,
            base: added.base,
            add: added.add,
            fixes: true,
        })?;
        Ok(())
    }

    fn equal(&mut self, name: &Name, sum: &Sum) -> Result<(), DefFault>
        ensures { (context : Context) (guarded : Bool)
            → Finds (item context guarded (body_of self.old) (Item.Relates name.now Relation.Equals sum.now))
            (λ done. body_of self.new) result }
    {
        let known = self.scope.known(name)?;
        let added = self.scope.sum(known.kind, sum)?;
        self.atoms.push(DefAtom::Eq {
            left: known.number,
            base: added.base,
            add: added.add,
            fixes: false,
        })?;
        Ok(())
    }

    fn differ(&mut self, name: &Name, sum: &Sum) -> Result<(), DefFault>
        ensures { (context : Context) (guarded : Bool)
            → Finds (item context guarded (body_of self.old) (Item.Relates name.now Relation.Differs sum.now))
            (λ done. body_of self.new) result }
    {
        let known = self.scope.known(name)?;
        let added = self.scope.sum(known.kind, sum)?;
        self.atoms.push(DefAtom::Ne {
            left: known.number,
            base: added.base,
            add: added.add,
        })?;
        Ok(())
    }

    fn relate(
        &mut self,
        alloc: Global,
        name: &'a Name,
        relation: Relation,
        sum: &Sum,
    ) -> Result<(), DefFault>
        ensures { (context : Context) (guarded : Bool)
            → Finds (item context guarded (body_of self.old) (Item.Relates name.now relation sum.now))
            (λ done. body_of self.new) result }
    {
        match relation {
            Relation::Fixes(kind) => self.fix(alloc, kind, name, sum),
            Relation::Equals => self.equal(name, sum),
            Relation::Differs => self.differ(name, sum),
        }
    }

    fn bound(&mut self, name: &Name, bound: Bound, number: Number) -> Result<(), DefFault>
        ensures { (context : Context) (guarded : Bool)
            → Finds (item context guarded (body_of self.old) (Item.Bounds name.now bound number))
            (λ done. body_of self.new) result }
    {
        let atom = match bound {
            Bound::AtMost => bounded(&self.scope, name, LEAST, value(number))?,
            Bound::AtLeast => bounded(&self.scope, name, value(number), GREATEST)?,
        };
        self.atoms.push(atom)?;
        Ok(())
    }

    fn call(
        &mut self,
        alloc: Global,
        setting: &Setting<'a, '_>,
        guarded: bool,
        name: &Name,
        args: &[Name],
    ) -> Result<(), DefFault>
        ensures { Finds (item (setting_of setting.now) guarded (body_of self.old) (Item.Call name.now args.now))
            (λ done. body_of self.new) result }
    {
        let call = setting.call(alloc, guarded, &self.scope, name, args)?;
        self.calls.push(call)?;
        Ok(())
    }

    fn item(
        &mut self,
        alloc: Global,
        setting: &Setting<'a, '_>,
        guarded: bool,
        one: &'a Item,
    ) -> Result<(), DefFault>
        ensures { Finds (item (setting_of setting.now) guarded (body_of self.old) one.now) (λ done. body_of self.new) result }
    {
        match one {
            Item::Call(name, args) => self.call(alloc, setting, guarded, name, args.as_slice()),
            Item::Relates(name, relation, sum) => self.relate(alloc, name, *relation, sum),
            Item::Bounds(name, bound, number) => self.bound(name, *bound, *number),
        }
    }

    /// Judges items, up to the first fault.
    pub fn items(
        &mut self,
        alloc: Global,
        setting: &Setting<'a, '_>,
        guarded: bool,
        list: &'a [Item],
    ) -> Result<(), DefFault>
        ensures { Finds (items (setting_of setting.now) guarded (body_of self.old) list.now) (λ done. body_of self.new) result }
    {
        for one in list {
            self.item(alloc, setting, guarded, one)?;
        }
        Ok(())
    }
}
