// A block comes and goes.
use mc_flow::heap::{Heap, Read};
use std::test::Fail;

const LAST: u64 = 4_611_686_018_427_387_903;

#[test]
fn a_block_comes_and_goes(rt: HostRuntime) -> Result<(), Fail> {
    let mut heap = Heap::new(rt.alloc());
    assert!(rt; heap.add(LAST, 7, 2)?);
    assert!(rt; heap.write(LAST, 7, 1, -5));
    assert_eq!(rt; heap.read(LAST, 7, 1), Read::Value(-5));
    assert_eq!(rt; heap.read(LAST, 7, 0), Read::Undefined);
    assert!(rt; heap.remove(LAST));
    assert_eq!(rt; heap.len(), 0);
    assert_eq!(rt; heap.read(LAST, 7, 0), Read::Absent);
    Ok(())
}
