ghost use Rattle.std.specs.Prelude.{◌≡◌, ◌≢◌, ◌<◌, ◌↔◌, [], ◌∷◌, ◌++◌, length, slice_get, Contains, IsTrue, IsSome, IfSome, OnOk, OnErr, Some};
ghost use Rattle.std.specs.List.{AllPairs};

use indexmap::IndexSet;
use priz_base::NoMem;
use std::alloc::Global;
use std::marker::Model;

/// Names in the order in which they were added, each once, looked up by hash.
///
/// The names are slices of a text, which contracts see as their bytes.
#[derive(Drop)]
pub struct NameSet<'a> {
    set: IndexSet<&'a str>,
}

impl<'a> Model for NameSet<'a> {
    ghost use Rattle.std.specs.Prelude.{◌≢◌, List, ℕ, map};
    ghost use Rattle.std.specs.List.{AllPairs};

    ghost Value = { List (List ℕ) };

    ghost view = { λ n. map (λ k. k.now) n.set.keys };

    ghost invariant = { λ n. AllPairs (λ x y. x ≢ y) (map (λ k. k.now) n.set.keys) };
}

impl<'a> NameSet<'a> {
    /// Takes no memory.
    pub fn new(alloc: Global) -> NameSet<'a>
        ensures { result ≡ [] }
    {
        NameSet {
            set: IndexSet::new(alloc),
        }
    }

    /// No two names are alike.
    pub fn are_distinct(&self)
        ensures { AllPairs (λ x y. x ≢ y) self.now }
    {
        let _ = &self.set;
    }

    pub fn len(&self) -> usize
        ensures { result ≡ length self.now }
    {
        self.set.len()
    }

    pub fn add(&mut self, name: &'a str) -> Result<(), NoMem>
        requires { ¬ Contains self.old name.now }
        ensures ok { OnOk result (self.new ≡ self.old ++ name.now ∷ []) }
        ensures err { OnErr result (self.new ≡ self.old) }
    {
        self.set.insert(name)?;
        Ok(())
    }

    pub fn has(&self, name: &str) -> bool
        ensures { IsTrue result ↔ Contains self.now name.now }
    {
        self.place(name).is_some()
    }

    /// Where the name stands.
    pub fn place(&self, name: &str) -> Option<usize>
        ensures found { IsSome result ↔ Contains self.now name.now }
        ensures place { IfSome result (λ i. slice_get self.now i ≡ Some name.now) }
        ensures within { IfSome result (λ i. i < length self.now) }
    {
        self.set.get_index_of(name)
    }

    pub fn name(&self, i: usize) -> &'a str
        requires { i < length self.now }
        ensures { slice_get self.now i ≡ Some result.now }
    {
        self.set.as_slice()[i]
    }
}
