// Both questions, as searches.
ghost use Rattle.std.specs.Prelude.{◌↔◌, IfOk, IsTrue, MatchOption};
ghost use Rattle.mc_flow.specs.Heap.Heap.{region_of};
ghost use Rattle.mc_flow.specs.Defs.Meaning.{Sat, HoldsSomewhere};
ghost use Rattle.mc_shape_search.specs.Sat.Answers.{AreMeeting};
ghost use Rattle.mc_shape_search.specs.Sat.Marks.{taken};

use crate::sat::search::{HeapSearch, goal, taken};
use crate::tries::find_first;
use mc_base::PredId;
use mc_flow::defs::Defs;
use mc_flow::heap::{Heap, NoMemory};
use std::alloc::Global;

/// The addresses of a part of the heap on which the predicate holds at a value with arguments. None exactly where it holds
/// on no part.
pub fn holds(
    alloc: Global,
    heap: &Heap,
    defs: &Defs,
    pred: PredId,
    value: i64,
    args: &[i64],
) -> Result<Option<Vec<u64>>, NoMemory>
    ensures { IfOk result
        (λ found. MatchOption found (¬ HoldsSomewhere defs.now pred value args.now (region_of heap.now))
        (λ addresses. AreMeeting defs.now pred value args.now heap.now addresses.items)) }
{
    let search = HeapSearch {
        heap,
        defs: defs.as_slice(),
        whole: false,
    };
    match find_first(alloc, &search, goal(alloc, pred, value, args)?)? {
        None => Ok(None),
        Some(log) => Ok(Some(taken(alloc, &log)?)),
    }
}

/// Whether the predicate holds on the whole heap, at a value with arguments.
pub fn meets(
    alloc: Global,
    heap: &Heap,
    defs: &Defs,
    pred: PredId,
    value: i64,
    args: &[i64],
) -> Result<bool, NoMemory>
    ensures { IfOk result (λ met. IsTrue met ↔ Sat defs.now pred value args.now (region_of heap.now)) }
{
    let search = HeapSearch {
        heap,
        defs: defs.as_slice(),
        whole: true,
    };
    let found = find_first(alloc, &search, goal(alloc, pred, value, args)?)?;
    Ok(found.is_some())
}
