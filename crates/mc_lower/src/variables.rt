// The variables of a flow graph, each of one owner.
ghost use Rattle.std.specs.Prelude.{[], ◌≡◌, ◌∷◌, ◌++◌, OnOk};
ghost use Rattle.mc_lower.specs.Once.{AreOnce, IsNew};

use crate::builder::BuildFault;
use mc_base::{Kind, VarInfo};
use std::alloc::Global;

/// Whose a variable is: that of a number in an occurrence of a function, the result of an occurrence, or a temporary by its number
/// and kind.
#[derive(Clone, Copy, PartialEq, Eq)]
pub enum Owner {
    Local(usize, usize),
    Result(usize),
    Temporary(usize, Kind),
}

/// A variable of the flow graph.
#[derive(Drop)]
pub struct Variable {
    pub owner: Owner,
    pub info: VarInfo,
}

/// Variables of which no two have one owner.
#[derive(Drop)]
pub struct Variables {
    pub list: Vec<Variable>,
    pub ghost once: { AreOnce list.items },
}

impl Variables {
    /// No variables.
    pub fn new(alloc: Global) -> Variables
        ensures { result.list.items ≡ [] }
    {
        Variables {
            list: Vec::new(alloc),
        }
    }

    /// A variable more, whose owner has none.
    pub fn add(&mut self, variable: Variable) -> Result<(), BuildFault>
        requires { IsNew self.old.list.items variable.owner }
        ensures { OnOk result (self.new.list.items ≡ self.old.list.items ++ variable ∷ []) }
    {
        self.list.push(variable)?;
        Ok(())
    }
}
