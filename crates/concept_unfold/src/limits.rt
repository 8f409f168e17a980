ghost use Rattle.std.specs.Prelude.{◌≡◌, ◌<◌, ◌-◌, ◌^◌, ℕ, length, map, min};
ghost use Rattle.std.specs.List.{sum_by};
ghost use Rattle.utopist_syntax.specs.View.{tree_of};
ghost use Rattle.utopist_syntax.specs.FileTree.{item_tree, body_expr_tree};
ghost use Rattle.concept_unfold.specs.Paths.{inputs_of};
ghost use Rattle.concept_unfold.specs.Nodes.{nodes, body_nodes};
ghost use Rattle.concept_unfold.specs.Declarations.{variables, all_variables};
ghost use Rattle.concept_unfold.specs.UnfoldingRules.{item_size, item_statements, limits_fault};
ghost use Rattle.path_limits.specs.PathLimits.{within_limit};

use concept_rules::{Limit, ModelFault, Rule, broken_at};
use utopist_syntax::{Expr, Item, Name, Part};

const MAX_PATHS: usize = 8192;

const MAX_VARIABLES: usize = 1024;

const MAX_SIZE: usize = 262_144;

const MAX_STATEMENTS: usize = 4096;

/// What the problem of some items would hold. Each number ends at the type's last value.
#[derive(Clone, Copy)]
struct Counts {
    variables: usize,
    size: usize,
    statements: usize,
}

/// Checks the limits of the problem of these items, at the name of its compute statement.
pub(crate) fn check_limits(name: &Name, items: &[Item]) -> Result<(), ModelFault>
    ensures { result ≡ limits_fault name.now (map item_tree items.now) }
{
    let counts = count(items);
    expect_at_most(name, Limit::Paths, MAX_PATHS, counts.variables)?;
    expect_at_most(name, Limit::Variables, MAX_VARIABLES, counts.variables)?;
    expect_at_most(name, Limit::Size, MAX_SIZE, counts.size)?;
    expect_at_most(name, Limit::Statements, MAX_STATEMENTS, counts.statements)
}

// There are no more than the most. The count ends at the type's last value.
fn expect_at_most(name: &Name, limit: Limit, most: usize, count: usize) -> Result<(), ModelFault>
    requires { most < 2 ^ 64 - 1 }
    ensures { (n : ℕ) → count ≡ min n (2 ^ 64 - 1) → result ≡ within_limit name.now limit most n }
{
    if count > most {
        return Err(broken_at(name, Rule::TooMany(limit)));
    }
    Ok(())
}

fn count(items: &[Item]) -> Counts
    ensures variables { result.variables
        ≡ min (length (all_variables (map item_tree items.now))) (2 ^ 64 - 1) }
    ensures size { result.size ≡ min (sum_by item_size (map item_tree items.now)) (2 ^ 64 - 1) }
    ensures statements { result.statements
        ≡ min (sum_by item_statements (map item_tree items.now)) (2 ^ 64 - 1) }
{
    let mut variables = 0usize;
    let mut size = 0usize;
    let mut statements = 0usize;
    for item in items {
        variables = variables.saturating_add(variables_in(item));
        size = size.saturating_add(item_size(item));
        statements = statements.saturating_add(item_statements(item));
    }
    Counts {
        variables,
        size,
        statements,
    }
}

fn variables_in(item: &Item) -> usize
    ensures { result ≡ length (variables (item_tree item.now)) }
{
    match item {
        Item::Var { names, .. } => names.len(),
        Item::Eq { .. } | Item::Rel { .. } => 0,
    }
}

fn item_size(item: &Item) -> usize
    ensures { result ≡ min (item_size (item_tree item.now)) (2 ^ 64 - 1) }
{
    match item {
        Item::Var { .. } | Item::Eq { .. } => 0,
        Item::Rel { parts, body, .. } => input_count(parts.as_slice())
            .saturating_add(1)
            .saturating_add(body_nodes(body)),
    }
}

fn body_nodes(body: &Option<Expr>) -> usize
    ensures { result ≡ min (body_nodes (body_expr_tree body.now)) (2 ^ 64 - 1) }
{
    match body {
        Some(expr) => nodes(expr),
        None => 0,
    }
}

fn nodes(expr: &Expr) -> usize
    ensures { result ≡ min (nodes (tree_of expr.now)) (2 ^ 64 - 1) }
{
    let parts = match expr {
        Expr::Num(_) | Expr::Path(_) | Expr::Call { .. } => 0,
        Expr::Neg(inner) => nodes(inner.get()),
        Expr::Op { op: _, left, right } => nodes(left.get()).saturating_add(nodes(right.get())),
        Expr::If {
            cmp: _,
            left,
            right,
            yes,
            no,
        } => nodes(left.get())
            .saturating_add(nodes(right.get()))
            .saturating_add(nodes(yes.get()))
            .saturating_add(nodes(no.get())),
        Expr::Loop {
            kind: _,
            name: _,
            first,
            second,
            each,
        } => nodes(first.get())
            .saturating_add(nodes(second.get()))
            .saturating_add(nodes(each.get())),
    };
    parts.saturating_add(1)
}

fn input_count(parts: &[Part]) -> usize
    ensures { result ≡ length (inputs_of parts.now) }
{
    let mut count = 0usize;
    for part in parts {
        if let Part::Input(_) = part {
            count += 1;
        }
    }
    count
}

fn item_statements(item: &Item) -> usize
    ensures { result ≡ item_statements (item_tree item.now) }
{
    match item {
        Item::Var { .. } | Item::Eq { .. } => 0,
        Item::Rel { .. } => 1,
    }
}
