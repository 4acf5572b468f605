// What holds of predicates and segments. Each law is what a function with no body ensures.
ghost use Rattle.mc_flow.specs.Defs.Laws.{SatIsMonotone, SegIsMonotone, SatUnfolds, SatFolds, SegBegins, SegOfBody, SegThenSat, SegThenSeg, SatOfNull};

/// What holds at a height holds at every greater one.
pub fn heights_grow()
    ensures predicates { SatIsMonotone }
    ensures segments { SegIsMonotone }
{}

/// A predicate is the body of one of its rules.
pub fn predicates_are_bodies()
    ensures unfolds { SatUnfolds }
    ensures folds { SatFolds }
{}

/// A segment is empty or begins with a rule of which one call is a segment, and the body of a rule
/// without one of its calls of its own predicate is a segment to that call.
pub fn segments_are_bodies()
    ensures begins { SegBegins }
    ensures of_body { SegOfBody }
{}

/// What stands at a segment's end, apart from it, makes one with it.
pub fn segments_join()
    ensures predicate { SegThenSat }
    ensures segment { SegThenSeg }
{}

/// Of null a predicate holds only where nothing is allocated.
pub fn null_is_empty()
    ensures { SatOfNull }
{}
