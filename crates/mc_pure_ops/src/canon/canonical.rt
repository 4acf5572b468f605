// The canonical list.
ghost use Rattle.std.specs.Prelude.{◌≡◌, pos, [], ◌∷◌, IfOk};
ghost use Rattle.mc_base.specs.Nodes.{null};
ghost use Rattle.mc_base.specs.declared.plain.Atom.TheVariants.{Ne};
ghost use Rattle.mc_pure.specs.Canonical.{IsCanonical};

use crate::canon::gaps::differences;
use crate::canon::left::{equalities, ranges, whole};
use mc_base::{Atom, NULL, NoMemory};
use mc_pure::Pure;
use std::alloc::Global;

/// That node 0 differs from itself.
pub fn contradiction(alloc: Global) -> Result<Vec<Atom>, NoMemory>
    ensures { IfOk result (λ list. list.items ≡ Ne null null (pos 0) ∷ []) }
{
    let mut list = Vec::new(alloc);
    list.push(Atom::Ne(NULL, NULL, 0))?;
    Ok(list)
}

/// The canonical list of what is known: two states that are not false have one list exactly where the same ranges, the
/// same equalities and the same disequalities between classes are entailed.
pub fn canon(alloc: Global, pure: &Pure) -> Result<Vec<Atom>, NoMemory>
    ensures { IfOk result (λ list. IsCanonical pure.now list.items) }
{
    if pure.is_false() {
        return contradiction(alloc);
    }
    pure.has_normal_form();
    mc_pure::normal_forms_say_all();
    mc_pure::derived_grows();
    let left = whole();
    let mut list = ranges(alloc, pure, &left)?;
    let same = equalities(alloc, pure, &left)?;
    let apart = differences(alloc, pure, &left, pure.starts(), false, &[])?;
    list.extend_from_slice(same.as_slice())?;
    list.extend_from_slice(apart.as_slice())?;
    Ok(list)
}
