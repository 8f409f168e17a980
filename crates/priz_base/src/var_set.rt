ghost use Rattle.std.specs.Prelude.{◌≡◌, ◌<◌, ◌↔◌, [], length, Contains, IsTrue};
ghost use Rattle.priz_base.specs.Bits.{HasBits};
ghost use Rattle.priz_base.specs.Sets.{IsSortedBelow, IsWithin, Adds, Removes};

use crate::Var;
use std::marker::Model;

/// A set of variables below 1,024, which contracts see as the sorted list of its members.
#[derive(Debug, Drop)]
pub struct VarSet {
    words: [u64; 16],
}

impl Model for VarSet {
    ghost use Rattle.std.specs.Prelude.{List, ℕ};
    ghost use Rattle.priz_base.specs.Members.{members};

    ghost Value = { List ℕ };

    ghost view = { λ s. members s.words };
}

impl VarSet {
    pub fn new() -> VarSet
        ensures { result ≡ [] }
    {
        VarSet { words: [0; 16] }
    }

    pub fn has(&self, v: Var) -> bool
        ensures { IsTrue result ↔ Contains self.now v }
    {
        let n = v.0;
        let word = (n / 64) as usize;
        word < 16 && (self.words[word] >> (n % 64)) & 1 == 1
    }

    pub fn add(&mut self, v: Var)
        requires { v < 1024 }
        ensures { Adds self.old self.new v }
    {
        let n = v.0;
        let word = (n / 64) as usize;
        self.words[word] |= 1 << (n % 64);
    }

    /// The same set.
    pub fn copy(&self) -> VarSet
        ensures { result ≡ self.now }
    {
        VarSet { words: self.words }
    }

    pub fn remove(&mut self, v: Var)
        ensures { Removes self.old self.new v }
    {
        let n = v.0;
        let word = (n / 64) as usize;
        if word < 16 {
            self.words[word] &= !(1 << (n % 64));
        }
    }

    pub fn is_within(&self, other: &VarSet) -> bool
        ensures { IsTrue result ↔ IsWithin self.now other.now }
    {
        for i in 0..16 {
            if self.words[i] & other.words[i] != self.words[i] {
                return false;
            }
        }
        true
    }

    /// The list is sorted, and its numbers are below 1,024.
    pub fn is_sorted(&self)
        ensures { IsSortedBelow 1024 self.now }
    {
        let _ = &self.words;
    }

    /// The set as sixteen words: bit b of word w stands for variable 64·w + b.
    pub fn words(&self) -> &[u64]
        ensures sixteen { length result.now ≡ 16 }
        ensures bits { HasBits result.now self.now }
    {
        &self.words
    }
}
