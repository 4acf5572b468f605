// What the variables of a function hold.
ghost use Rattle.std.specs.Prelude.{◌≡◌, ◌∷◌, IfOk, List, map};
ghost use Rattle.mc_semantics.specs.Resolved.Programs.{Local as LocalTree};
ghost use Rattle.mc_semantics.specs.Resolved.Configs.{held, with_variable, without};
ghost use Rattle.mc_semantics.specs.Resolved.Steps.{passed};
ghost use Rattle.mc_semantics.specs.Resolved.Views.{local_of};

use mc_base::NoMemory;
use mc_semantics::resolved::Local;
use std::alloc::Global;

/// What a variable holds, if it is defined.
pub fn value_of(values: &[Option<i64>], variable: usize) -> Option<i64>
    ensures { result ≡ held values.now variable }
{
    if variable < values.len() {
        values[variable]
    } else {
        None
    }
}

/// A variable holds this.
pub fn set_value(values: &mut [Option<i64>], variable: usize, value: Option<i64>)
    ensures { values.new ≡ with_variable values.old variable value }
{
    if variable < values.len() {
        values[variable] = value;
    }
}

/// These variables are undefined.
pub fn undefine(values: &mut [Option<i64>], variables: &[usize])
    ensures { values.new ≡ without variables.now values.old }
{
    let mut index = variables.len();
    while index > 0 {
        index -= 1;
        set_value(values, variables[index], None);
    }
}

/// The parameters that are left to hold an argument, and the arguments that are left.
#[derive(Drop)]
struct Passing<'a> {
    parameters: usize,
    arguments: &'a [i64],
}

impl Passing<'_> {
    /// What the next variable holds as its function begins.
    fn next(&mut self) -> Option<i64>
        ensures { (x : LocalTree) (xs : List LocalTree)
            → passed self.old.parameters (x ∷ xs) self.old.arguments.now
            ≡ result ∷ passed self.new.parameters xs self.new.arguments.now }
    {
        if self.parameters == 0 {
            return None;
        }
        self.parameters -= 1;
        let [first, more @ ..] = self.arguments else {
            return None;
        };
        self.arguments = more;
        Some(*first)
    }
}

/// The parameters hold the arguments, and the other variables are undefined.
pub fn first_values(
    alloc: Global,
    locals: &[Local],
    parameters: usize,
    arguments: &[i64],
) -> Result<Vec<Option<i64>>, NoMemory>
    ensures { IfOk result (λ values. values.items ≡ passed parameters (map local_of locals.now) arguments.now) }
{
    let mut values = Vec::with_capacity(alloc, locals.len())?;
    let mut passing = Passing {
        parameters,
        arguments,
    };
    for _ in locals {
        let value = passing.next();
        values.push(value)?;
    }
    Ok(values)
}
