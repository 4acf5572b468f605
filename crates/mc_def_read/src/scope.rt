// The names of a rule, and sums of them.
ghost use Rattle.mc_def_read.specs.Judging.{is_blank, number_in, known, of_kind, typed, same_kind, introduced, value_of, constant, offset, sum, Finds};
ghost use Rattle.mc_def_read.specs.Scopes.{scope_of, with_name};
ghost use Rattle.std.specs.Prelude.{◌≡◌, ◌++◌, ◌+◌, ◌≤◌, [], ◌∷◌, length, OnErr, OnOk};

use crate::kept::Scope;
use mc_base::Kind;
use mc_base::text::Text;
use mc_c_syntax::ast::Name;
use mc_def_parse::{Cause, DefFault, Number, Refusal, Sum};
use std::alloc::{AllocError, Global};

/// A name that is introduced: its number and its kind.
#[derive(Clone, Copy, Debug, PartialEq, Eq)]
pub struct Known {
    pub number: u64,
    pub kind: Kind,
}

/// A sum: a name or zero, and what is added.
#[derive(Clone, Copy, Debug, PartialEq, Eq)]
pub struct Added {
    pub base: Option<u64>,
    pub add: i64,
}

/// The fault of a name.
pub fn at(cause: Cause, name: &Name) -> Refusal
    ensures { result ≡ record { cause = cause; place = name.now.place } }
{
    Refusal {
        cause,
        place: name.place,
    }
}

fn at_number(number: Number) -> Refusal
    ensures { result ≡ record { cause = Cause.Kind; place = number.place } }
{
    Refusal {
        cause: Cause::Kind,
        place: number.place,
    }
}

// Whether a name can't be used.
pub fn is_blank(name: &Text) -> bool
    ensures { result ≡ is_blank name.now }
{
    name.as_slice() == b"_".as_slice()
}

fn same_kind(left: Kind, right: Kind) -> bool
    ensures { result ≡ same_kind left right }
{
    match (left, right) {
        (Kind::Int, Kind::Int) | (Kind::Ptr, Kind::Ptr) => true,
        (Kind::Int, Kind::Ptr) | (Kind::Ptr, Kind::Int) => false,
    }
}

/// The number that is written.
pub fn value(number: Number) -> i64
    ensures { result ≡ value_of number }
{
    let value = i64::from(number.value);
    if number.minus { -value } else { value }
}

fn constant(kind: Kind, number: Number) -> Result<i64, Refusal>
    ensures { constant kind number ≡ result }
{
    match kind {
        Kind::Int => Ok(value(number)),
        Kind::Ptr => {
            if number.value == 0 {
                Ok(0)
            } else {
                Err(at_number(number))
            }
        }
    }
}

fn offset(kind: Kind, number: Number) -> Result<i64, Refusal>
    ensures { offset kind number ≡ result }
{
    match kind {
        Kind::Int => Ok(value(number)),
        Kind::Ptr => Err(at_number(number)),
    }
}

fn of_kind(kind: Kind, name: &Name, known: Known) -> Result<u64, Refusal>
    ensures { of_kind kind name.now known ≡ result }
{
    if same_kind(known.kind, kind) {
        Ok(known.number)
    } else {
        Err(at(Cause::Kind, name))
    }
}

impl<'a, 'b> Scope<'a, 'b> {
    // The number of a name, which is not `_`.
    pub fn place(&self, name: &Text) -> Option<usize>
        ensures { result ≡ number_in (scope_of self.now).names name.now }
    {
        if is_blank(name) {
            return None;
        }
        match self.front.place(name) {
            Some(place) => Some(place),
            None => match self.own.place(name) {
                Some(place) => Some(self.front.len() + place),
                None => None,
            },
        }
    }

    /// A name that is introduced.
    pub fn known(&self, name: &Name) -> Result<Known, Refusal>
        ensures { known (scope_of self.now) name.now ≡ result }
    {
        match self.place(&name.text) {
            None => Err(at(Cause::Undetermined, name)),
            Some(place) => match self.kinds.get(place) {
                None => Err(at(Cause::Undetermined, name)),
                Some(kind) => Ok(Known {
                    number: place as u64,
                    kind: *kind,
                }),
            },
        }
    }

    /// The number of such a name, if it is of this kind.
    pub fn typed(&self, kind: Kind, name: &Name) -> Result<u64, Refusal>
        ensures { typed (scope_of self.now) kind name.now ≡ result }
    {
        let known = self.known(name)?;
        of_kind(kind, name, known)
    }

    /// A sum of a kind.
    pub fn sum(&self, kind: Kind, text: &Sum) -> Result<Added, Refusal>
        ensures { sum (scope_of self.now) kind text.now ≡ result }
    {
        match text {
            Sum::Number(number) => {
                let add = constant(kind, *number)?;
                Ok(Added { base: None, add })
            }
            Sum::Name(name) => {
                let base = self.typed(kind, name)?;
                Ok(Added {
                    base: Some(base),
                    add: 0,
                })
            }
            Sum::Moved(name, number) => {
                let base = self.typed(kind, name)?;
                let add = offset(kind, *number)?;
                Ok(Added {
                    base: Some(base),
                    add,
                })
            }
        }
    }

    /// Adds a name. Without memory nothing changes.
    pub fn push(&mut self, alloc: Global, kind: Kind, name: &'a Text) -> Result<(), AllocError>
        ensures ok { OnOk result (scope_of self.new ≡ with_name (scope_of self.old) kind name.now) }
        ensures err { OnErr result (scope_of self.new ≡ scope_of self.old) }
        ensures front { self.new.front.now ≡ self.old.front.now }
    {
        self.kinds.push(kind)?;
        if let Err(fault) = self.own.push(alloc, name) {
            self.kinds.pop();
            return Err(fault);
        }
        Ok(())
    }

    /// Introduces a name.
    pub fn introduce(&mut self, alloc: Global, kind: Kind, name: &'a Name) -> Result<(), DefFault>
        ensures found { Finds (introduced (scope_of self.old) kind name.now) (λ done. scope_of self.new) result }
        ensures front { self.new.front.now ≡ self.old.front.now }
    {
        if self.place(&name.text).is_some() {
            return Err(DefFault::Refused(at(Cause::Twice, name)));
        }
        self.push(alloc, kind, &name.text)?;
        Ok(())
    }
}
