// Flow graphs.
use crate::Instr;
use crate::defs::Structs;
use mc_base::text::Place;
use mc_base::{Items, PointId, VarInfo};

/// A point of a flow graph: its instruction, and the place of the text that it comes from.
#[derive(Drop)]
pub struct Point {
    pub code: Instr,
    pub place: Place,
}

/// A flow graph. It begins at point 0.
#[derive(Drop)]
pub struct Flow {
    pub points: Items<Point>,
    pub vars: Items<VarInfo>,
    /// The points at which loops begin.
    pub heads: Items<PointId>,
    /// The points at which the two ways of an `if` meet.
    pub merges: Items<PointId>,
    /// The constants of all operands, ascending, each once.
    pub thresholds: Items<i64>,
    pub structs: Structs,
}
