// The calls that can want memory, on their happy paths: no clause says that they don't.
use crate::{NameSet, PathSet};
use priz_base::Place;
use std::test::Fail;
use utopist_syntax::Name;

const PLACE: Place = Place {
    at: 0,
    line: 1,
    col: 1,
};

#[test]
fn memory_is_found(rt: HostRuntime) -> Result<(), Fail> {
    let mut names = NameSet::new(rt.alloc());
    names.add("x")?;
    let mut paths = PathSet::new(rt.alloc());
    let path = [Name::new("x", PLACE)];
    paths.add(&path)?;
    assert_eq!(rt; (names.len(), paths.len()), (1, 1));
    Ok(())
}
