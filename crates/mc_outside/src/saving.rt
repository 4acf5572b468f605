//! Files that are written anew.

ghost use Rattle.mc_outside.specs.Outside.{HasCause, OthersStay};
ghost use Rattle.mc_outside.specs.Saving.Saving.{Saves};

use crate::{FileFault, Files};

/// Writes a file anew, whether or not it was there. After a fault it is as it was, or holds the first of the bytes.
pub fn save<F: Files>(files: &mut F, name: &str, bytes: &[u8]) -> Result<(), FileFault>
    ensures saved { Saves name.now bytes.now (F.holds files.old) (F.holds files.new) result }
    ensures others { OthersStay name.now (F.holds files.old) (F.holds files.new) }
    ensures cause { HasCause (F.faults files.old) (F.faults files.new) result }
{
    files.create(name)?;
    files.append(name, bytes)?;
    Ok(())
}
