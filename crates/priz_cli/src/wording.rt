ghost use Rattle.std.specs.Prelude.{◌≡◌};
ghost use Rattle.priz_cli.specs.Wordings.{lex_text, limit_text, rule_text};

use concept_rules::{Limit, Rule};
use utopist_lexer::LexKind;

pub(crate) fn lex_text(kind: LexKind) -> &'static [u8]
    ensures { result.now ≡ lex_text kind }
{
    match kind {
        LexKind::BadChar => b"bad character",
        LexKind::BadNumber => b"bad number",
        LexKind::NumberTooWide => b"number too wide",
        LexKind::NameTooLong => b"name too long",
    }
}

pub(crate) fn rule_text(rule: Rule) -> &'static [u8]
    ensures { result.now ≡ rule_text rule }
{
    match rule {
        Rule::UnknownConcept => b"unknown concept",
        Rule::DuplicateName => b"duplicate name",
        Rule::UnknownPath => b"unknown path",
        Rule::NotNumeric => b"not numeric",
        Rule::BadBinding => b"bad binding",
        Rule::ShadowedName => b"shadowed name",
        Rule::BadCall => b"bad call",
        Rule::BadArity => b"bad arity",
        Rule::DuplicateInput => b"duplicate input",
        Rule::TooMany(limit) => limit_text(limit),
    }
}

fn limit_text(limit: Limit) -> &'static [u8]
    ensures { result.now ≡ limit_text limit }
{
    match limit {
        Limit::Concepts => b"too many concepts",
        Limit::Computes => b"too many computes",
        Limit::Segments => b"too many segments",
        Limit::Paths => b"too many paths",
        Limit::Variables => b"too many variables",
        Limit::Size => b"too many nodes",
        Limit::Statements => b"too many statements",
        Limit::Subtasks => b"too many subtasks",
    }
}
