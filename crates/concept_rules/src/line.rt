ghost use Rattle.std.specs.Prelude.{◌≡◌, ◌<◌, ◌↔◌, ◌++◌, ◌∷◌, [], All, Contains, IsTrue, OnOk};
ghost use Rattle.priz_base.specs.Sets.{IsWithin};

use priz_base::{NoMem, Var, VarSet};
use sqlite_items::Items;
use std::alloc::Global;
use std::marker::Model;

/// Numbers of concepts below 1,024, in order, and as a set.
#[derive(Drop)]
pub(crate) struct Line {
    order: Items<u32>,
    members: VarSet,
}

impl Model for Line {
    ghost use Rattle.std.specs.Prelude.{ℕ, List, ◌↔◌, ◌<◌, Contains, All};

    ghost Value = { List ℕ };

    ghost view = { λ l. l.order };

    ghost invariant = { λ l.
        ((n : ℕ) → Contains l.members n ↔ Contains l.order n) × All (λ n. n < 1024) l.order };
}

impl Line {
    pub(crate) fn new(alloc: Global) -> Line
        ensures { result ≡ [] }
    {
        Line {
            order: Items::new(alloc),
            members: VarSet::new(),
        }
    }

    pub(crate) fn has(&self, concept: u32) -> bool
        ensures { IsTrue result ↔ Contains self.now concept }
    {
        self.members.has(Var(concept))
    }

    /// Whether each of these concepts is one of the others.
    pub(crate) fn is_within(&self, other: &Line) -> bool
        ensures { IsTrue result ↔ IsWithin self.now other.now }
    {
        self.members.is_within(&other.members)
    }

    pub(crate) fn push(&mut self, concept: u32) -> Result<(), NoMem>
        requires { concept < 1024 }
        ensures { OnOk result (self.new ≡ self.old ++ concept ∷ []) }
    {
        self.order.push(concept)?;
        self.members.add(Var(concept));
        Ok(())
    }

    pub(crate) fn concepts(&self) -> &[u32]
        ensures same { result.now ≡ self.now }
        ensures below { All (λ n. n < 1024) result.now }
    {
        self.order.as_slice()
    }
}
