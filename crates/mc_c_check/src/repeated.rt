// Names that are introduced again.
ghost use Rattle.std.specs.Prelude.{◌≡◌, [], OnOk};
ghost use Rattle.mc_c_types.specs.Faults.{repeated};
ghost use Rattle.mc_c_types.specs.First.{told_of};
ghost use Rattle.mc_c_check.specs.Collected.{names_held};

use mc_c_syntax::ast::Name;
use mc_c_syntax::names::Names;
use mc_c_types::{FaultName, FirstFault};
use std::alloc::{AllocError, Global};

/// Notes each of these names that stands among those before it.
pub fn check_repeated(
    alloc: Global,
    told: &mut FirstFault,
    names: &[&Name],
) -> Result<(), AllocError>
    ensures { OnOk result (told.new.fault ≡ told_of told.old.fault (repeated [] (names_held names.now))) }
{
    let mut before = Names::new(alloc);
    for name in names {
        told.unless(
            before.place(&name.text).is_none(),
            FaultName::Twice,
            name.place,
        );
        before.push(&name.text)?;
    }
    Ok(())
}
