// Each call once with ample memory.
use mc_base::stack::Stack;
use std::test::Fail;

#[test]
fn items_come_back_last_first(rt: HostRuntime) -> Result<(), Fail> {
    let mut stack = Stack::new(rt.alloc());
    stack.push(1_u8)?;
    stack.push(2)?;
    assert!(rt; stack.pop() == Some(2));
    assert!(rt; stack.pop() == Some(1) && stack.is_empty());
    Ok(())
}
