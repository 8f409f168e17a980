ghost use Rattle.std.specs.Prelude.{◌≡◌, ◌<◌, [], ◌∷◌, ◌++◌, length, slice_get, IsSomeAnd, OnOk, OnErr};
ghost use Rattle.priz_base.specs.Bits.{HasBits};

use priz_base::{NoMem, VarSet};
use sqlite_items::Items;
use std::alloc::Global;
use std::marker::Model;

/// Sets of variables, one after another: the worlds of a finite Kripke model.
#[derive(Debug, Drop)]
pub struct Worlds {
    sets: Items<VarSet>,
}

impl Model for Worlds {
    ghost use Rattle.std.specs.Prelude.{List, ℕ, length, ◌<◌, ◌^◌};

    ghost Value = { List (List ℕ) };

    ghost view = { λ w. w.sets };

    ghost invariant = { λ w. length w.sets < 2 ^ 32 };
}

impl Worlds {
    /// No worlds. Takes no memory.
    pub fn new(alloc: Global) -> Worlds
        ensures { result ≡ [] }
    {
        Worlds {
            sets: Items::new(alloc),
        }
    }

    /// Adds a world at the end.
    pub fn push(&mut self, w: &VarSet) -> Result<(), NoMem>
        requires { length self.old < 4294967295 }
        ensures ok { OnOk result (self.new ≡ self.old ++ w.now ∷ []) }
        ensures err { OnErr result (self.new ≡ self.old) }
    {
        self.sets.push(w.copy())?;
        Ok(())
    }

    pub fn len(&self) -> u32
        ensures { result ≡ length self.now }
    {
        self.sets.len() as u32
    }

    /// The world as sixteen words: bit b of word w stands for variable 64·w + b.
    pub fn world(&self, i: u32) -> &[u64]
        requires { i < length self.now }
        ensures sixteen { length result.now ≡ 16 }
        ensures bits { IsSomeAnd (slice_get self.now i) (HasBits result.now) }
    {
        self.sets.as_slice()[i as usize].words()
    }

    pub fn sets(&self) -> &[VarSet]
        ensures { result.now ≡ self.now }
    {
        self.sets.as_slice()
    }
}
