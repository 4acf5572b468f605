// Which disequalities may still ask something.
ghost use Rattle.std.specs.Prelude.{◌≡◌, true, false};
ghost use Rattle.mc_pure.specs.declared.rows.Row.{Row as Line};
ghost use Rattle.mc_pure.specs.Scopes.{IsWithin};

use crate::rows::Row;
use mc_base::NodeId;

/// All of them, or those of which a node is of one class.
#[derive(Clone, Copy)]
pub enum Scope {
    All,
    Class(NodeId),
}

/// Whether a row is of a class that is looked at.
pub fn is_within(scope: &Scope, row: &Row) -> bool
    ensures yes { result ≡ true → IsWithin scope.now row.now }
    ensures no { result ≡ false → IsWithin scope.now row.now → ⊥ }
{
    match scope {
        Scope::All => true,
        Scope::Class(class) => row.rep.0 == class.0,
    }
}

/// What is to be looked at once a class has changed.
pub fn widened(scope: &Scope, class: NodeId) -> Scope
    ensures before { (r : Line) → IsWithin scope.now r → IsWithin result r }
    ensures more { (r : Line) → r.rep ≡ class → IsWithin result r }
{
    match scope {
        Scope::All => Scope::All,
        Scope::Class(one) => {
            if one.0 == class.0 {
                Scope::Class(class)
            } else {
                Scope::All
            }
        }
    }
}
