// A small layout, by hand.
use crate::layout::Layout;
use std::test::Fail;

#[test]
fn numbers_stand_for_themselves(rt: HostRuntime) -> Result<(), Fail> {
    let alloc = rt.alloc();
    let mut pair = Layout::new(alloc);
    pair.add(alloc, "a", None, &[], &[]).expect(&rt, "memory");
    pair.add(alloc, "b", None, &[], &[]).expect(&rt, "memory");
    assert_eq!(rt; pair.table(), [0, 1].as_slice());
    Ok(())
}
