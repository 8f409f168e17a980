//! Laws of the canonical text.
ghost use Rattle.std.specs.Prelude.{ℕ, List};
ghost use Rattle.std.specs.Str.{IsUtf8, chars};
ghost use Rattle.utopist_syntax.specs.declared.file.File.{File};
ghost use Rattle.utopist_syntax.specs.FileTree.{file_tree};
ghost use Rattle.utopist_syntax.specs.Canonical.{canonical};
ghost use Rattle.utopist_parser.specs.Forms.{ReadsAs};
ghost use Rattle.canonical_reading.specs.Piece.{HasPieces};
ghost use Rattle.canonical_reading.specs.FilePieces.{file_pieces};
ghost use Rattle.canonical_reading.specs.Printable.{Printable};
ghost use Rattle.canonical_reading.specs.RoundTrip.{IsReadBack};

/// The canonical text of a file has just the tokens that its tree has, in their order.
pub fn canonical_text_has_its_tokens()
    ensures { (f : File) → Printable (file_tree f) → HasPieces (chars (canonical f)) (file_pieces (file_tree f)) }
{}

/// The canonical text of a tree that was read is read as the same tree but for the places.
pub fn canonical_text_is_read_back()
    ensures { (text : List ℕ) → IsUtf8 text → (f : File) → ReadsAs text (file_tree f) → IsReadBack f }
{}
