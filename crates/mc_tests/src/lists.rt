// Lists, past what they hold inline.
use mc_base::{Args, EdgeId, Items, NodeId};
use std::test::Fail;

#[test]
fn lists_keep_what_they_are_given(rt: HostRuntime) -> Result<(), Fail> {
    let mut items = Items::new(rt.alloc());
    let mut args = Args::new(rt.alloc());
    for n in 0..6u64 {
        items.push(NodeId(n))?;
        args.push(EdgeId(n))?;
    }
    let more = items.copy(rt.alloc())?;
    assert_eq!(rt; more.len(), 6);
    assert!(rt; more == items);
    assert!(rt; more.get(5) == Some(&NodeId(5)));
    assert_eq!(rt; args.copy(rt.alloc())?.len(), 6);
    Ok(())
}
