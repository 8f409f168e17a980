//! Laws of what is accepted and refused.
ghost use Rattle.std.specs.Prelude.{◌≡◌, ℕ, List};
ghost use Rattle.utopist_syntax.specs.FileTree.{FileTree};
ghost use Rattle.file_accept.specs.declared.fault.FileFault.{FileFault};
ghost use Rattle.file_accept.specs.Accepted.{Accepts};
ghost use Rattle.file_accept.specs.Refused.{Refuses};

/// A text is accepted as at most one file, or refused for at most one cause, and never both.
pub fn texts_are_refused_for_one_cause()
    ensures files { (text : List ℕ) (f g : FileTree) → Accepts text f → Accepts text g → f ≡ g }
    ensures causes { (text : List ℕ) (e d : FileFault) → Refuses text e → Refuses text d → e ≡ d }
    ensures either { (text : List ℕ) (f : FileTree) (e : FileFault) → Accepts text f → ¬ Refuses text e }
{}
