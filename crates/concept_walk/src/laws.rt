ghost use Rattle.std.specs.Prelude.{◌≡◌, [], List, Some, Ok, Contains, reverse, ◌≢◌, ℕ, map};
ghost use Rattle.std.specs.List.{AllPairs};
ghost use Rattle.canonical_paths.specs.Canonical.{canonical_path};
ghost use Rattle.concept_rules.specs.ConceptRules.{concepts_fault};
ghost use Rattle.concept_rules.specs.Kinds.{kind_along};
ghost use Rattle.concept_walk.specs.Dotted.{dotted, NamesHaveNoDot};
ghost use Rattle.concept_walk.specs.Visits.{walk, visited_variables};
ghost use Rattle.name_sets.specs.Paths.{texts};
ghost use Rattle.utopist_syntax.specs.FileTree.{ConceptTree, ItemTree};
ghost use Rattle.utopist_syntax.specs.Named.{Named};
ghost use Rattle.utopist_syntax.specs.declared.item.VarKind.TheVariants.{Numeric, Of};
ghost use Rattle.concept_rules.specs.Lineage.{effective_items};
ghost use Rattle.concept_walk.specs.KnownItems.{IsKnownItem};

/// In a file that keeps the rules and whose names have no dot, the names of the variables of a walk differ.
pub fn walked_names_differ()
    ensures { (concepts : List ConceptTree) → concepts_fault [] concepts ≡ Ok tt
        → NamesHaveNoDot concepts → (name : List ℕ)
        → AllPairs (λ x y. x ≢ y)
        (map dotted (visited_variables (walk (reverse concepts) name))) }
{}

/// In a file that keeps the rules, the canonical path of a known numeric path is a variable of the walk.
pub fn known_variables_are_walked()
    ensures { (concepts : List ConceptTree) → concepts_fault [] concepts ≡ Ok tt
        → (type : Named) (names : List Named)
        → kind_along (reverse concepts) (Of type) names ≡ Some Numeric
        → Contains (visited_variables (walk (reverse concepts) type.text))
        (canonical_path (reverse concepts) type.text (texts names)) }
{}

/// In a file that keeps the rules, an item of a concept, its own or inherited, names known paths of it.
pub fn items_are_known()
    ensures { (concepts : List ConceptTree) → concepts_fault [] concepts ≡ Ok tt
        → (name : List ℕ) (i : ItemTree)
        → Contains (effective_items (reverse concepts) name) i
        → IsKnownItem (reverse concepts) (effective_items (reverse concepts) name) i }
{}
