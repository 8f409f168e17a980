/// A comparison: `<`, `<=` and `=`.
#[derive(Clone, Copy, PartialEq, Eq, Debug)]
pub enum Cmp {
    Less,
    AtMost,
    Same,
}
