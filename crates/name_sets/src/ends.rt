ghost use Rattle.std.specs.Prelude.{◌≡◌, ◌↔◌, [], ◌∷◌, ◌++◌, length, nat_eq, IsTrue, OnOk, OnErr};
ghost use Rattle.std.specs.List.{position};

use priz_base::NoMem;
use std::alloc::Global;
use std::collections::HashMap;
use std::marker::Model;

/// The nodes at which paths end, in the order of the paths.
#[derive(Drop)]
pub(crate) struct PathEnds {
    nodes: Vec<usize>,
    first: HashMap<usize, usize>,
}

impl Model for PathEnds {
    ghost use Rattle.std.specs.Prelude.{◌≡◌, List, ℕ, nat_eq};
    ghost use Rattle.std.specs.List.{position};
    ghost use Rattle.std.specs.HashMap.{get};

    ghost Value = { List ℕ };

    ghost view = { λ e. e.nodes.items };

    ghost invariant = { λ e. (n : ℕ) → get nat_eq e.first n ≡ position (nat_eq n) e.nodes.items };
}

impl PathEnds {
    pub(crate) fn new(alloc: Global) -> PathEnds
        ensures { result ≡ [] }
    {
        PathEnds {
            nodes: Vec::new(alloc),
            first: HashMap::new(alloc),
        }
    }

    pub(crate) fn len(&self) -> usize
        ensures { result ≡ length self.now }
    {
        self.nodes.len()
    }

    pub(crate) fn is_empty(&self) -> bool
        ensures { IsTrue result ↔ (self.now ≡ []) }
    {
        self.nodes.is_empty()
    }

    /// The place of the first path that ends at this node.
    pub(crate) fn first(&self, node: usize) -> Option<usize>
        ensures { result ≡ position (nat_eq node) self.now }
    {
        self.first.get(&node).copied()
    }

    pub(crate) fn add(&mut self, node: usize) -> Result<(), NoMem>
        ensures ok { OnOk result (self.new ≡ self.old ++ node ∷ []) }
        ensures err { OnErr result (self.new ≡ self.old) }
    {
        let place = self.nodes.len();
        self.nodes.reserve(1)?;
        if self.first.get(&node).is_none() {
            self.first.insert(node, place)?;
        }
        self.nodes.push(node)?;
        Ok(())
    }
}
