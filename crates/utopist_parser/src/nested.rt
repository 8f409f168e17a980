use token_forms::ParseStop;
use utopist_syntax::Expr;

/// An expression and how deep it is nested, or why there is none.
pub type NestedExpr<'a> = Result<(Expr<'a>, u32), ParseStop>;
