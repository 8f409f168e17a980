use concept_rules::ModelFault;
use priz_base::Place;
use utopist_lexer::LexFault;

/// Why an input is refused.
#[derive(Clone, Copy, Debug, PartialEq, Eq)]
pub enum Refusal {
    /// The bytes up to this one are UTF-8, and go on with none of its characters.
    NotUtf8(u32),
    /// No token stands there.
    Lex(LexFault),
    /// This token cannot stand here.
    Expected(Place),
    /// With this token an expression is nested more than 64 deep.
    TooDeep(Place),
    /// A rule of concepts or of unfolding fails.
    Model(ModelFault),
}
