// Atoms that are written down where they may be.
ghost use Rattle.std.specs.Prelude.{◌≡◌, IfOk};
ghost use Rattle.mc_pure_ops.specs.Canon.Order.{IsSomeOf};
ghost use Rattle.mc_pure_ops.specs.Join.Gains.{Gains};

use mc_base::{Atom, NoMemory};
use mc_pure::Pure;

/// Writes an atom down, where it may be.
fn put(joint: &mut Pure, atom: &Atom) -> Result<(), NoMemory>
    ensures { IfOk result (λ _. Gains (λ f. f ≡ atom.now) joint.old joint.new) }
{
    if !joint.allows(atom) {
        return Ok(());
    }
    joint.assume(atom)?;
    Ok(())
}

/// Writes down what there is, where it may be.
pub fn put_some(joint: &mut Pure, atom: Option<Atom>) -> Result<(), NoMemory>
    ensures { IfOk result (λ _. Gains (IsSomeOf atom) joint.old joint.new) }
{
    match atom {
        Some(found) => {
            put(joint, &found)?;
            Ok(())
        }
        None => Ok(()),
    }
}
