//! Laws of the grammar.
ghost use Rattle.std.specs.Prelude.{◌≡◌, ◌↔◌, ℕ, List};
ghost use Rattle.utopist_syntax.specs.FileTree.{FileTree};
ghost use Rattle.utopist_parser.specs.declared.parser.ParseFault.{ParseFault};
ghost use Rattle.utopist_parser.specs.Forms.{ReadsAs, FailsAs};
ghost use Rattle.token_forms.specs.Symbols.{Symbol};
ghost use Rattle.utopist_parser.specs.WrittenFile.{WrittenFile};
ghost use Rattle.utopist_parser.specs.FileSymbols.{spell_file};
ghost use Rattle.utopist_parser.specs.FileNesting.{IsFile};
ghost use Rattle.utopist_parser.specs.Begins.{BeginsWithin};
ghost use Rattle.token_forms.specs.Forms.{AreForm, BeginForm};
ghost use Rattle.utopist_parser.specs.Cases.{file_form};
ghost use Rattle.utopist_parser.specs.Examples.{DifferencesGroupFromTheLeft, ParenthesesVanish, ChoicesHoldCallsAndLoops, EachTermAndEachParenthesisCounts, NumbersAreInLowestTerms};
ghost use Rattle.utopist_parser.specs.FileExample.{AFileIsRead};

/// Symbols begin a file within a limit on nesting, case by case, exactly where some symbols of such a file go on with them.
pub fn symbols_begin_what_goes_on()
    ensures files { (limit : ℕ) (ts : List Symbol) → AreForm (file_form limit) ts ↔ ((w : WrittenFile) × IsFile limit w × (spell_file w ≡ ts)) }
    ensures begins { (limit : ℕ) (ts : List Symbol) → BeginForm (file_form limit) ts ↔ BeginsWithin limit ts }
{}

/// A text has at most one tree, or fails in at most one way, and never both.
pub fn texts_have_one_answer()
    ensures trees { (text : List ℕ) (f g : FileTree) → ReadsAs text f → ReadsAs text g → f ≡ g }
    ensures faults { (text : List ℕ) (e d : ParseFault) → FailsAs text e → FailsAs text d → e ≡ d }
    ensures either { (text : List ℕ) (f : FileTree) (e : ParseFault) → ReadsAs text f → ¬ FailsAs text e }
{}

/// The grammar gives these examples the symbols, the tree and the nesting that they must have.
pub fn examples_are_read_as_they_should()
    ensures left { DifferencesGroupFromTheLeft }
    ensures parentheses { ParenthesesVanish }
    ensures choices { ChoicesHoldCallsAndLoops }
    ensures nesting { EachTermAndEachParenthesisCounts }
    ensures numbers { NumbersAreInLowestTerms }
    ensures file { AFileIsRead }
{}
