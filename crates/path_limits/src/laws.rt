ghost use Rattle.std.specs.Prelude.{◌≡◌, ℕ, List, Some, Ok, slice_get};
ghost use Rattle.utopist_syntax.specs.Named.{Named};
ghost use Rattle.utopist_syntax.specs.FileTree.{ConceptTree};
ghost use Rattle.canonical_paths.specs.Components.{declared_in, HasFewPaths};
ghost use Rattle.path_limits.specs.PathLimits.{path_limits};

/// A concept within both limits has no more declared paths than may be.
pub fn limits_leave_few_paths()
    ensures { (named : Named) (all : List ConceptTree) (n : ℕ) (c : ConceptTree)
        → slice_get all n ≡ Some c → path_limits named (declared_in all c) ≡ Ok tt
        → HasFewPaths all n }
{}
