/// The way from a node by a name, both by their numbers.
#[derive(Clone, Copy, PartialEq, Eq, Hash)]
pub(crate) struct Edge {
    pub(crate) node: usize,
    pub(crate) name: usize,
}
