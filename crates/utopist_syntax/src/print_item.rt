#![tactic(auto, using(priz_base::proofs::Kept::kept))]

ghost use Rattle.std.specs.Prelude.{◌++◌, codes};
ghost use Rattle.priz_base.specs.Printing.{Prints};
ghost use Rattle.utopist_syntax.specs.ItemText.{item_text, kind_text, body_text, var_text, eq_text, rel_text};
ghost use Rattle.utopist_syntax.specs.PathText.{path_text};

use crate::pieces::print_text;
use crate::print_binds::print_binds;
use crate::print_parts::print_parts;
use crate::print_path::{print_names, print_path};
use crate::print_tree::print_expr;
use crate::{Bind, Expr, Item, Name, Part, Path, VarKind};
use priz_base::NoMem;

/// Appends an item with its semicolon.
pub fn print_item(item: &Item, out: &mut Vec<u8>) -> Result<(), NoMem>
    ensures { Prints (item_text item.now) result out.old.items out.new.items }
{
    match item {
        Item::Var { names, kind, binds } => {
            print_var(names.as_slice(), kind, binds.as_slice(), out)
        }
        Item::Eq { left, right } => print_eq(left, right, out),
        Item::Rel {
            name,
            parts,
            output,
            body,
        } => print_rel(name, parts.as_slice(), output, body, out),
    }
}

fn print_var(names: &[Name], kind: &VarKind, binds: &[Bind], out: &mut Vec<u8>) -> Result<(), NoMem>
    ensures { Prints (var_text names.now kind.now binds.now) result out.old.items out.new.items }
{
    out.extend_from_slice(b"var ")?;
    print_names(names, b", ", out)?;
    out.extend_from_slice(b" : ")?;
    print_kind(kind, out)?;
    print_binds(binds, out)?;
    out.push(b';')?;
    Ok(())
}

fn print_kind(kind: &VarKind, out: &mut Vec<u8>) -> Result<(), NoMem>
    ensures { Prints (kind_text kind.now) result out.old.items out.new.items }
{
    match kind {
        VarKind::Numeric => print_text(b"numeric", out),
        VarKind::Of(name) => print_text(name.text().as_bytes(), out),
    }
}

fn print_eq(left: &Expr, right: &Expr, out: &mut Vec<u8>) -> Result<(), NoMem>
    ensures { Prints (eq_text left.now right.now) result out.old.items out.new.items }
{
    out.extend_from_slice(b"eq ")?;
    print_expr(left, out)?;
    out.extend_from_slice(b" = ")?;
    print_expr(right, out)?;
    out.push(b';')?;
    Ok(())
}

fn print_rel(
    name: &Name,
    parts: &[Part],
    output: &Path,
    body: &Option<Expr>,
    out: &mut Vec<u8>,
) -> Result<(), NoMem>
    ensures { Prints (rel_text name.now parts.now output.now body.now) result
        out.old.items out.new.items }
{
    out.extend_from_slice(b"rel ")?;
    out.extend_from_slice(name.text().as_bytes())?;
    out.extend_from_slice(b" : ")?;
    print_parts(parts, out)?;
    print_result(output, body, out)?;
    Ok(())
}

// What a relation gives, and its body.
fn print_result(output: &Path, body: &Option<Expr>, out: &mut Vec<u8>) -> Result<(), NoMem>
    ensures { Prints (codes "-> " ++ (path_text output.now ++ (body_text body.now ++ codes ";")))
        result out.old.items out.new.items }
{
    out.extend_from_slice(b"-> ")?;
    print_path(output, out)?;
    print_body(body, out)?;
    out.push(b';')?;
    Ok(())
}

fn print_body(body: &Option<Expr>, out: &mut Vec<u8>) -> Result<(), NoMem>
    ensures { Prints (body_text body.now) result out.old.items out.new.items }
{
    let Some(expr) = body else {
        return Ok(());
    };
    out.extend_from_slice(b" { ")?;
    print_expr(expr, out)?;
    out.extend_from_slice(b" }")?;
    Ok(())
}
