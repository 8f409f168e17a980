// The extents of some variables, by hand.
use crate::extent::PathExtent;
use std::test::Fail;

#[test]
fn variables_have_what_is_inside_and_themselves(rt: HostRuntime) -> Result<(), Fail> {
    let pair = PathExtent::none().of_variables(2);
    assert_eq!(rt; (pair.paths, pair.segments), (2, 1));
    let around = pair
        .of_variables(3)
        .join(PathExtent::none().of_variables(1));
    assert_eq!(rt; (around.paths, around.segments), (10, 2));
    Ok(())
}
