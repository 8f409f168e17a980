ghost use Rattle.std.specs.Prelude.{◌≡◌, ◌≢◌, ◌<◌, ◌↔◌, [], ◌∷◌, ◌++◌, length, slice_get, Contains, IsTrue, IsSome, IfSome, OnOk, OnErr, Some};
ghost use Rattle.std.specs.List.{AllPairs};

use indexmap::IndexSet;
use priz_base::NoMem;
use std::alloc::Global;
use std::marker::Model;

/// Names in the order in which they were added, each once, looked up by hash.
#[derive(Debug, Drop)]
pub struct Names {
    set: IndexSet<String>,
}

impl Model for Names {
    ghost use Rattle.std.specs.Prelude.{List, ℕ, map, string_bytes};

    ghost Value = { List (List ℕ) };

    ghost view = { λ n. map string_bytes n.set.keys };
}

impl Names {
    /// Takes no memory.
    pub fn new(alloc: Global) -> Names
        ensures { result ≡ [] }
    {
        Names {
            set: IndexSet::new(alloc),
        }
    }

    pub fn len(&self) -> usize
        ensures { result ≡ length self.now }
    {
        self.set.len()
    }

    pub fn add(&mut self, name: &str) -> Result<(), NoMem>
        requires { ¬ Contains self.old name.now }
        ensures ok { OnOk result (self.new ≡ self.old ++ name.now ∷ []) }
        ensures err { OnErr result (self.new ≡ self.old) }
    {
        let text = String::from_str(*self.set.allocator(), name)?;
        self.set.insert(text)?;
        Ok(())
    }

    pub fn has(&self, name: &str) -> bool
        ensures { IsTrue result ↔ Contains self.now name.now }
    {
        self.place(name).is_some()
    }

    /// Where the name stands.
    pub fn place(&self, name: &str) -> Option<usize>
        ensures found { IsSome result ↔ Contains self.now name.now }
        ensures place { IfSome result (λ i. slice_get self.now i ≡ Some name.now) }
        ensures within { IfSome result (λ i. i < length self.now) }
    {
        self.set.get_index_of(name)
    }

    pub fn name(&self, i: usize) -> &str
        requires { i < length self.now }
        ensures { slice_get self.now i ≡ Some result.now }
    {
        self.set.as_slice()[i].as_str()
    }
}
