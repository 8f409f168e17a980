ghost use Rattle.std.specs.Prelude.{◌≡◌, [], ℕ, List, nat_eq, None, Some, find, Contains, OnOk, IfSome, IfNone};
ghost use Rattle.std.specs.Option.{option_map_or};
ghost use Rattle.concept_rules.specs.steps.DeclaredNames.{item_in, bound_in, AddsName, Binds};

use crate::line::Line;
use name_sets::{NameSet, PathSet};
use priz_base::NoMem;
use std::alloc::Global;
use std::collections::HashMap;
use std::marker::Model;

/// An item that declares a name: the number of its concept, and its place there.
#[derive(Clone, Copy, PartialEq, Eq, Hash)]
pub(crate) struct Declaration {
    pub concept: u32,
    pub item: usize,
}

/// The names that were declared, each with the items that declare it; and what these items bind.
#[derive(Drop)]
pub(crate) struct Declarations<'a> {
    names: NameSet<'a>,
    items: Vec<Vec<Declaration>>,
    bound: HashMap<Declaration, PathSet<'a>>,
}

impl<'a> Model for Declarations<'a> {
    ghost use Rattle.std.specs.Prelude.{◌≡◌, ◌≢◌, length, map};
    ghost use Rattle.std.specs.List.{AllPairs};
    ghost use Rattle.concept_rules.specs.steps.DeclaredNames.{Declared};

    ghost Value = { Declared };

    ghost view = { λ d. record {
      names = d.names;
      items = map (λ v. v.items) d.items.items;
      bound = d.bound.entries;
    } };

    ghost invariant = { λ d.
        AllPairs (λ x y. x ≢ y) d.names × (length d.names ≡ length d.items.items) };
}

impl<'a> Declarations<'a> {
    pub(crate) fn new(alloc: Global) -> Declarations<'a>
        ensures names { (name : List ℕ) (n : ℕ) → item_in result name n ≡ None }
        ensures bound { result.bound ≡ [] }
    {
        Declarations {
            names: NameSet::new(alloc),
            items: Vec::new(alloc),
            bound: HashMap::new(alloc),
        }
    }

    /// An item declares the name, which no item of its concept did.
    pub(crate) fn add(&mut self, name: &'a str, declaration: Declaration) -> Result<(), NoMem>
        ensures name { OnOk result (AddsName self.old self.new name.now declaration) }
        ensures bound { self.new.bound ≡ self.old.bound }
    {
        match self.names.place(name) {
            Some(place) => {
                self.items[place].push(declaration)?;
            }
            None => {
                let alloc = *self.items.allocator();
                let mut items = Vec::new(alloc);
                items.push(declaration)?;
                self.items.push(items)?;
                if let Err(want) = self.names.add(name) {
                    self.items.pop();
                    return Err(want);
                }
            }
        }
        Ok(())
    }

    /// The item, which bound nothing, has bindings with these left paths.
    pub(crate) fn bind(&mut self, item: Declaration, paths: PathSet<'a>) -> Result<(), NoMem>
        ensures { OnOk result (Binds self.old self.new item paths.entry) }
    {
        if paths.len() > 0 {
            drop(self.bound.insert(item, paths)?);
        }
        Ok(())
    }

    /// The left paths of the item's bindings, if it has any.
    pub(crate) fn bound(&self, item: Declaration) -> Option<&PathSet<'a>>
        ensures { option_map_or (λ b. b.now) result []
            ≡ bound_in self.now item.concept item.item }
    {
        self.bound.get(&item)
    }

    /// The item that declares the name in one of these concepts.
    pub(crate) fn find(&self, among: &Line, name: &str) -> Option<Declaration>
        ensures found { IfSome result (λ d. Contains among.now d.concept
            × (item_in self.now name.now d.concept ≡ Some d.item)) }
        ensures missing { IfNone result ((n : ℕ) → Contains among.now n
            → item_in self.now name.now n ≡ None) }
    {
        match self.names.place(name) {
            Some(place) => first_among(self.items[place].as_slice(), among),
            None => None,
        }
    }
}

fn first_among(declarations: &[Declaration], among: &Line) -> Option<Declaration>
    ensures found { IfSome result (λ d. Contains among.now d.concept
        × (find (λ e. nat_eq e.concept d.concept) declarations.now ≡ Some d)) }
    ensures missing { IfNone result ((n : ℕ) → Contains among.now n
        → find (λ e. nat_eq e.concept n) declarations.now ≡ None) }
{
    for declaration in declarations {
        if among.has(declaration.concept) {
            return Some(*declaration);
        }
    }
    None
}
