ghost use Rattle.std.specs.Prelude.{◌≡◌, ◌↔◌, map, All, IsTrue};
ghost use Rattle.utopist_syntax.specs.View.{tree_of};
ghost use Rattle.utopist_syntax.specs.FileTree.{item_tree, body_expr_tree, concept_tree, file_tree};
ghost use Rattle.concept_unfold.specs.Built.{IsInput, IsBuiltExpr, IsBuiltBody, IsBuiltItem, IsBuiltConcept, IsBuilt};

use utopist_syntax::{Concept, Expr, File, Item, Part, VarKind};

/// Whether a file has only the forms that are built.
pub fn is_built(file: &File) -> bool
    ensures { IsTrue result ↔ IsBuilt (file_tree file.now) }
{
    are_built_concepts(file.concepts.as_slice())
}

fn are_built_concepts(concepts: &[Concept]) -> bool
    ensures { IsTrue result ↔ All IsBuiltConcept (map concept_tree concepts.now) }
{
    concepts.iter().all(|concept| is_built_concept(concept))
}

fn is_built_concept(concept: &Concept) -> bool
    ensures { IsTrue result ↔ IsBuiltConcept (concept_tree concept.now) }
{
    concept.parents.is_empty() && are_built_items(concept.items.as_slice())
}

fn are_built_items(items: &[Item]) -> bool
    ensures { IsTrue result ↔ All IsBuiltItem (map item_tree items.now) }
{
    items.iter().all(|item| is_built_item(item))
}

fn is_built_item(item: &Item) -> bool
    ensures { IsTrue result ↔ IsBuiltItem (item_tree item.now) }
{
    match item {
        Item::Var { kind, binds, .. } => is_numeric(kind) && binds.is_empty(),
        Item::Eq { .. } => false,
        Item::Rel { parts, body, .. } => {
            parts.as_slice().iter().all(|p| is_input(p)) && is_built_body(body)
        }
    }
}

fn is_built_body(body: &Option<Expr>) -> bool
    ensures { IsTrue result ↔ IsBuiltBody (body_expr_tree body.now) }
{
    match body {
        Some(expr) => is_built_expr(expr),
        None => true,
    }
}

fn is_built_expr(expr: &Expr) -> bool
    ensures { IsTrue result ↔ IsBuiltExpr (tree_of expr.now) }
{
    match expr {
        Expr::Num(n) => *n >= 0,
        Expr::Path(_) => true,
        Expr::Neg(inner) => is_built_expr(inner.get()),
        Expr::Op { op: _, left, right } => is_built_expr(left.get()) && is_built_expr(right.get()),
        Expr::If {
            cmp: _,
            left,
            right,
            yes,
            no,
        } => {
            is_built_expr(left.get())
                && is_built_expr(right.get())
                && is_built_expr(yes.get())
                && is_built_expr(no.get())
        }
        Expr::Loop {
            kind: _,
            name: _,
            first,
            second,
            each,
        } => {
            is_built_expr(first.get()) && is_built_expr(second.get()) && is_built_expr(each.get())
        }
        Expr::Call { .. } => false,
    }
}

fn is_numeric(kind: &VarKind) -> bool
    ensures { IsTrue result ↔ (kind.now ≡ VarKind.Numeric) }
{
    match kind {
        VarKind::Numeric => true,
        VarKind::Of(_) => false,
    }
}

fn is_input(part: &Part) -> bool
    ensures { IsTrue result ↔ IsInput part.now }
{
    match part {
        Part::Input(_) => true,
        Part::Subtask { .. } => false,
    }
}
