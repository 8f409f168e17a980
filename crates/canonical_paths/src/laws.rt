ghost use Rattle.std.specs.Prelude.{◌≡◌, ◌≢◌, ◌<◌, ℕ, [], ◌∷◌, ◌++◌, List, Option, Some, Ok, All, Contains, length, reverse, slice_get};
ghost use Rattle.utopist_syntax.specs.declared.item.Bind.{Bind};
ghost use Rattle.utopist_syntax.specs.FileTree.{ItemTree, ConceptTree, FileTree};
ghost use Rattle.concept_rules.specs.Declarations.{Variable};
ghost use Rattle.concept_rules.specs.ConceptRules.{concepts_fault, file_fault};
ghost use Rattle.canonical_paths.specs.PathNames.{PathNames};
ghost use Rattle.canonical_paths.specs.Canonical.{canonical_in_kind, canonical_behind, canonical_path};
ghost use Rattle.canonical_paths.specs.DeclaredPaths.{declared_paths};
ghost use Rattle.canonical_paths.specs.Scoped.{ConceptsAreScoped};
ghost use Rattle.canonical_paths.specs.steps.Settings.{CoversConcept};
ghost use Rattle.canonical_paths.specs.Tables.{IsTable};
ghost use Rattle.canonical_paths.specs.steps.Growing.{IsAdded};
ghost use Rattle.canonical_paths.specs.LaidOut.{LaidOut};
ghost use Rattle.canonical_paths.specs.steps.Layouts.{IsLayout, inner_paths, inner_table};
ghost use Rattle.canonical_paths.specs.steps.PathLists.{PathLists, HasGrown, paths_with};

/// A canonical path is its own canonical path, and so is each beginning of it, where names are
/// declared once and bindings lead to earlier items.
pub fn canonical_paths_stand_for_themselves()
    ensures beginnings { (concepts : List ConceptTree) → ConceptsAreScoped concepts
        → (name : List ℕ) (p more : PathNames)
        → canonical_path concepts name (p ++ more) ≡ p ++ more
        → canonical_path concepts name p ≡ p }
    ensures whole { (concepts : List ConceptTree) → ConceptsAreScoped concepts
        → (name : List ℕ) (p : PathNames)
        → canonical_path concepts name (canonical_path concepts name p)
        ≡ canonical_path concepts name p }
{}

/// In a file that keeps the rules, the declared paths of a concept differ.
pub fn declared_paths_differ()
    ensures { (concepts : List ConceptTree) → concepts_fault [] concepts ≡ Ok tt
        → (name : List ℕ) (n m : ℕ) (p : PathNames)
        → slice_get (declared_paths (reverse concepts) name) n ≡ Some p
        → slice_get (declared_paths (reverse concepts) name) m ≡ Some p
        → n ≡ m }
{}

/// In a file that keeps the rules, the canonical path of a declared path is declared.
pub fn canonical_paths_are_declared()
    ensures { (concepts : List ConceptTree) → concepts_fault [] concepts ≡ Ok tt
        → (name : List ℕ) (p : PathNames)
        → Contains (declared_paths (reverse concepts) name) p
        → Contains (declared_paths (reverse concepts) name)
        (canonical_path (reverse concepts) name p) }
{}

/// The concepts of a file that keeps the rules have scoped items.
pub fn checked_concepts_are_scoped()
    ensures { (most : ℕ) (f : FileTree) → file_fault most f ≡ Ok tt
        → ConceptsAreScoped (reverse f.concepts) }
{}

/// A layout that covers the effective items of a concept is that of its declared paths, and its
/// table names their canonical paths.
pub fn layouts_have_canonical_paths()
    ensures names { (earlier : List ConceptTree) (c : ConceptTree) (lists : List (List PathNames))
        (l : LaidOut) → CoversConcept earlier c lists l
        → IsLayout lists (declared_paths (c ∷ earlier) c.name.text) l
        × IsTable (canonical_path (c ∷ earlier) c.name.text)
        (declared_paths (c ∷ earlier) c.name.text) l.table }
    ensures closed { (earlier : List ConceptTree) (c : ConceptTree) (lists : List (List PathNames))
        (l : LaidOut) → CoversConcept earlier c lists l → All (λ n. n < length l.table) l.table }
{}

/// One more variable of a concept keeps what its layout and its table say.
pub fn tables_name_canonical_paths()
    ensures table { (inside : List ℕ → PathNames → PathNames) (later : List ItemTree) (i : ItemTree)
        (before : List ItemTree) (name : List ℕ) (v : Variable) → IsAdded later i name v
        → (w : PathLists) (layouts : List LaidOut) (old new : LaidOut) (concept : Option ℕ)
        → HasGrown w layouts old new name concept v.binds
        → IsTable (canonical_in_kind inside v.kind) (inner_paths w.concepts concept)
        (inner_table layouts concept)
        → All (λ p. p ≢ []) (inner_paths w.concepts concept)
        → IsTable (canonical_behind inside (later ++ i ∷ before)) w.paths old.table
        → IsTable (canonical_behind inside (later ++ i ∷ before)) (paths_with w name concept)
        new.table }
    ensures layout { (w : PathLists) (layouts : List LaidOut) (old new : LaidOut) (name : List ℕ)
        (concept : Option ℕ) (binds : List Bind) → HasGrown w layouts old new name concept binds
        → IsLayout w.concepts w.paths old
        → length (inner_table layouts concept) ≡ length (inner_paths w.concepts concept)
        → IsLayout w.concepts (paths_with w name concept) new }
{}
