// A node's place in its class.
ghost use Rattle.std.specs.Prelude.{◌≡◌};

use crate::rows::Row;
use mc_base::NodeId;

/// The node is the least node of its class and a number more.
#[derive(Clone, Copy, Debug, PartialEq, Eq)]
pub struct ClassPlace {
    pub least: NodeId,
    pub offset: i64,
}

/// The place that a row says.
pub fn place_of(row: &Row) -> ClassPlace
    ensures least { result.least ≡ row.now.rep }
    ensures offset { result.offset ≡ row.now.off }
{
    ClassPlace {
        least: row.rep,
        offset: row.off,
    }
}
