// What holds of predicates on heaps. Each law is what a function with no body ensures.
ghost use Rattle.mc_shape_search.specs.Sat.Laws.{PartIsHeap, SatIsLow, NamesAreUnique};

/// A part of a heap's region is the region of a heap.
pub fn parts_are_heaps()
    ensures { PartIsHeap }
{}

/// What holds on a heap holds at a height of at most the number of its blocks and one.
pub fn heights_are_low()
    ensures { SatIsLow }
{}

/// The names of a rule are determined by the value, the arguments and the heap.
pub fn names_are_unique()
    ensures { NamesAreUnique }
{}
