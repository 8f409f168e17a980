ghost use Rattle.std.specs.Prelude.{◌≡◌, [], ◌∷◌, ◌++◌, length, IfOk, OnOk, OnErr};
ghost use Rattle.std.specs.List.{list_any};
ghost use Rattle.name_sets.specs.Paths.{texts, clash, path_position};
ghost use Rattle.name_sets.specs.steps.Nodes.{IsNodeAt, GrowsAlong};

use crate::ends::PathEnds;
use crate::trie::Trie;
use priz_base::NoMem;
use std::alloc::Global;
use std::marker::Model;
use utopist_syntax::Name;

/// Paths of names in the order in which they were added, repeats kept, looked up along a tree.
///
/// Each call goes along the path at hand, however many paths there are.
#[derive(Drop)]
pub struct PathSet<'a> {
    trie: Trie<'a>,
    ends: PathEnds,
}

impl<'a> Model for PathSet<'a> {
    ghost use Rattle.std.specs.Prelude.{List, ℕ};
    ghost use Rattle.name_sets.specs.steps.PathEnds.{paths_of, ArePaths};

    ghost Value = { List (List (List ℕ)) };

    ghost view = { λ s. paths_of s.trie s.ends };

    ghost invariant = { λ s. ArePaths s.trie s.ends };
}

impl<'a> PathSet<'a> {
    /// Takes no memory.
    pub fn new(alloc: Global) -> PathSet<'a>
        ensures { result ≡ [] }
    {
        PathSet {
            trie: Trie::new(alloc),
            ends: PathEnds::new(alloc),
        }
    }

    pub fn len(&self) -> usize
        ensures { result ≡ length self.now }
    {
        self.ends.len()
    }

    pub fn add(&mut self, path: &[Name<'a>]) -> Result<(), NoMem>
        ensures ok { OnOk result (self.new ≡ self.old ++ texts path.now ∷ []) }
        ensures err { OnErr result (self.new ≡ self.old) }
    {
        self.trie.is_tree();
        let nodes = self.trie.len();
        match add_end(&mut self.trie, &mut self.ends, path) {
            Ok(_) => Ok(()),
            Err(e) => {
                self.trie.truncate(nodes);
                Err(e)
            }
        }
    }

    /// Whether a path of the set is a prefix of this one, or this one a prefix of it.
    pub fn clashes(&self, path: &[Name]) -> bool
        ensures { result ≡ list_any (clash (texts path.now)) self.now }
    {
        self.trie.is_tree();
        let mut node = 0;
        for name in path {
            if self.ends.first(node).is_some() {
                return true;
            }
            match self.trie.child(node, name.text()) {
                Some(child) => node = child,
                None => return false,
            }
        }
        !self.ends.is_empty()
    }

    /// Where the first path with these names stands.
    pub fn place(&self, path: &[Name]) -> Option<usize>
        ensures { result ≡ path_position (texts path.now) self.now }
    {
        self.trie.is_tree();
        let node = self.trie.find(path)?;
        self.ends.first(node)
    }
}

// The node at the end of the path, where another path ends now.
fn add_end<'a>(trie: &mut Trie<'a>, ends: &mut PathEnds, path: &[Name<'a>]) -> Result<usize, NoMem>
    ensures node { IfOk result (IsNodeAt trie.new (texts path.now)) }
    ensures grows { GrowsAlong trie.old trie.new (texts path.now) }
    ensures ok { IfOk result (λ node. ends.new ≡ ends.old ++ node ∷ []) }
    ensures err { OnErr result (ends.new ≡ ends.old) }
{
    let node = trie.reach(path)?;
    ends.add(node)?;
    Ok(node)
}
