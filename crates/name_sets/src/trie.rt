ghost use Rattle.std.specs.Prelude.{◌≡◌, ◌<◌, ◌≤◌, [], ◌∷◌, ◌++◌, length, take, slice_get, Contains, IfSome, IfNone, IfOk, OnOk, OnErr, Some};
ghost use Rattle.name_sets.specs.Paths.{texts};
ghost use Rattle.name_sets.specs.steps.Nodes.{path_to, IsNodeAt, IsTree, GrowsAlong};

use crate::NameSet;
use crate::edge::Edge;
use indexmap::IndexSet;
use priz_base::NoMem;
use std::alloc::Global;
use std::marker::Model;
use utopist_syntax::Name;

/// A tree of names. Its nodes go by their numbers, of which 0 is the root's, and contracts see the path to each.
#[derive(Drop)]
pub(crate) struct Trie<'a> {
    names: NameSet<'a>,
    edges: IndexSet<Edge>,
}

impl<'a> Model for Trie<'a> {
    ghost use Rattle.std.specs.Prelude.{List, ℕ, [], ◌∷◌};
    ghost use Rattle.name_sets.specs.steps.Edges.{paths_from, IsTrie};

    ghost Value = { List (List (List ℕ)) };

    ghost view = { λ t. paths_from t.names ([] ∷ []) t.edges.keys };

    ghost invariant = { λ t. IsTrie t.names t.edges.keys
        (paths_from t.names ([] ∷ []) t.edges.keys) };
}

impl<'a> Trie<'a> {
    pub(crate) fn new(alloc: Global) -> Trie<'a>
        ensures { result ≡ [] ∷ [] }
    {
        Trie {
            names: NameSet::new(alloc),
            edges: IndexSet::new(alloc),
        }
    }

    /// What holds of every tree.
    pub(crate) fn is_tree(&self)
        ensures { IsTree self.now }
    {
        let _ = &self.edges;
    }

    pub(crate) fn len(&self) -> usize
        ensures { result ≡ length self.now }
    {
        self.edges.len() + 1
    }

    /// The node to which the name leads from this one.
    pub(crate) fn child(&self, node: usize, name: &str) -> Option<usize>
        requires { node < length self.now }
        ensures found { IfSome result (IsNodeAt self.now (path_to self.now node ++ name.now ∷ [])) }
        ensures missing { IfNone result
            (¬ Contains self.now (path_to self.now node ++ name.now ∷ [])) }
    {
        self.names.are_distinct();
        let name = self.names.place(name)?;
        let edge = Edge { node, name };
        let place = self.edges.get_index_of(&edge)?;
        Some(place + 1)
    }

    fn add_child(&mut self, node: usize, name: &'a str) -> Result<usize, NoMem>
        requires node { node < length self.old }
        requires fresh { ¬ Contains self.old (path_to self.old node ++ name.now ∷ []) }
        ensures number { IfOk result (λ child. child ≡ length self.old) }
        ensures ok { OnOk result
            (self.new ≡ self.old ++ (path_to self.old node ++ name.now ∷ []) ∷ []) }
        ensures err { OnErr result (self.new ≡ self.old) }
    {
        let name = number_of(&mut self.names, name)?;
        self.edges.insert(Edge { node, name })?;
        Ok(self.edges.len())
    }

    fn step(&mut self, node: usize, name: &'a str) -> Result<usize, NoMem>
        requires { node < length self.old }
        ensures node { IfOk result (IsNodeAt self.new (path_to self.old node ++ name.now ∷ [])) }
        ensures grows { GrowsAlong self.old self.new (path_to self.old node ++ name.now ∷ []) }
    {
        match self.child(node, name) {
            Some(child) => Ok(child),
            None => self.add_child(node, name),
        }
    }

    /// The node at the end of a path. Where memory is wanted, a part of the way to it may be new.
    pub(crate) fn reach(&mut self, path: &[Name<'a>]) -> Result<usize, NoMem>
        ensures node { IfOk result (IsNodeAt self.new (texts path.now)) }
        ensures grows { GrowsAlong self.old self.new (texts path.now) }
    {
        self.is_tree();
        let mut node = 0;
        for name in path {
            node = self.step(node, name.text())?;
        }
        Ok(node)
    }

    pub(crate) fn find(&self, path: &[Name]) -> Option<usize>
        ensures found { IfSome result (IsNodeAt self.now (texts path.now)) }
        ensures missing { IfNone result
            (¬ Contains self.now (texts path.now)) }
    {
        self.is_tree();
        let mut node = 0;
        for name in path {
            node = self.child(node, name.text())?;
        }
        Some(node)
    }

    /// Drops the nodes from this number on.
    pub(crate) fn truncate(&mut self, nodes: usize)
        requires some { 1 ≤ nodes }
        requires within { nodes ≤ length self.old }
        ensures { self.new ≡ take nodes self.old }
    {
        self.edges.truncate(nodes - 1);
    }
}

// The number of a name, which is added where it isn't there.
fn number_of<'a>(names: &mut NameSet<'a>, name: &'a str) -> Result<usize, NoMem>
    ensures place { IfOk result (λ i. slice_get names.new i ≡ Some name.now) }
    ensures kept { take (length names.old) names.new ≡ names.old }
{
    match names.place(name) {
        Some(i) => Ok(i),
        None => {
            let i = names.len();
            names.add(name)?;
            Ok(i)
        }
    }
}
