// The fault that is known of those that are found.
ghost use Rattle.std.specs.Prelude.{◌≡◌, Some, None, false};
ghost use Rattle.mc_c_types.specs.First.{is_told, number_of, told_of};
ghost use Rattle.mc_c_types.specs.Faults.{unless};

use crate::faults::{Fault, FaultName};
use mc_base::text::Place;

impl FaultName {
    /// Its number: at one place the fault with the least number is known.
    pub fn number(self) -> u8
        ensures { result ≡ number_of self }
    {
        match self {
            FaultName::Unknown => 1,
            FaultName::Mismatch => 2,
            FaultName::Twice => 3,
            FaultName::Recursion => 4,
            FaultName::NoEntry => 5,
            FaultName::BadSizeof => 6,
            FaultName::Arity => 7,
        }
    }
}

impl Fault {
    /// Whether this fault is known rather than the other.
    pub fn is_told(self, other: Fault) -> bool
        ensures { result ≡ is_told self other }
    {
        let (place, behind) = (self.place, other.place);
        place.line < behind.line
            || (place.line == behind.line
                && (place.column < behind.column
                    || (place.column == behind.column
                        && self.name.number() <= other.name.number())))
    }
}

/// The fault to be told of those found so far.
#[derive(Drop)]
pub struct FirstFault {
    pub fault: Option<Fault>,
}

impl FirstFault {
    /// None is found.
    pub fn new() -> FirstFault
        ensures { result.fault ≡ None }
    {
        FirstFault { fault: None }
    }

    /// Takes note of a fault.
    pub fn note(&mut self, name: FaultName, place: Place)
        ensures { self.new.fault ≡ told_of self.old.fault (unless false name place) }
    {
        let fault = Fault { name, place };
        match self.fault {
            None => self.fault = Some(fault),
            Some(told) => {
                if !told.is_told(fault) {
                    self.fault = Some(fault);
                }
            }
        }
    }

    /// Takes note of a fault, unless the rule is kept.
    pub fn unless(&mut self, kept: bool, name: FaultName, place: Place)
        ensures { self.new.fault ≡ told_of self.old.fault (unless kept name place) }
    {
        if !kept {
            self.note(name, place);
        }
    }
}
