ghost use Rattle.std.specs.Prelude.{◌≡◌, ◌+◌, ◌<◌, ◌≤◌, ◌∷◌, ◌++◌, [], length, map, All, OnOk};
ghost use Rattle.std.specs.List.{flat_map, sum_by};
ghost use Rattle.statement_set.specs.Problem.{empty_task};
ghost use Rattle.utopist_syntax.specs.FileTree.{item_tree, body_expr_tree};
ghost use Rattle.name_sets.specs.Paths.{texts};
ghost use Rattle.concept_unfold.specs.Limits.{max_statements};
ghost use Rattle.concept_walk.specs.Limits.{max_variables};
ghost use Rattle.concept_unfold.specs.Built.{IsBuiltBody, IsBuiltItem};
ghost use Rattle.concept_unfold.specs.Paths.{inputs_of, input_names, IsOneOf};
ghost use Rattle.concept_unfold.specs.Nodes.{body_nodes};
ghost use Rattle.concept_unfold.specs.Declarations.{variables, all_variables};
ghost use Rattle.concept_unfold.specs.UnfoldingRules.{item_size, item_statements};
ghost use Rattle.concept_unfold.specs.Unfolded.{plain_statement, statements_of, AreKnown};
ghost use Rattle.concept_unfold.specs.steps.Plain.{AreFresh, HasNoFault, ItemFollows, ItemsFollow};

use crate::bodies::body_of;
use crate::numbers::{input_vars, var_of};
use priz_base::NoMem;
use sqlite_items::Items;
use statement_set::{Problem, Statement};
use std::alloc::Global;
use utopist_syntax::{Expr, Item, Name, Part, Path};

/// Adds the variables and the statements of items to an empty problem.
pub(crate) fn add_items(alloc: Global, problem: &mut Problem, items: &[Item]) -> Result<(), NoMem>
    requires empty { problem.old ≡ empty_task }
    requires rules { ItemsFollow [] (map item_tree items.now) }
    requires built { All IsBuiltItem (map item_tree items.now) }
    requires names { length (all_variables (map item_tree items.now)) ≤ max_variables }
    requires size { sum_by item_size (map item_tree items.now) ≤ 262144 }
    requires statements { sum_by item_statements (map item_tree items.now) ≤ max_statements }
    ensures { OnOk result (problem.new ≡ record empty_task {
      names = all_variables (map item_tree items.now);
      statements = flat_map (statements_of (all_variables (map item_tree items.now)))
          (map item_tree items.now);
    }) }
{
    for item in items {
        add_item(alloc, problem, item)?;
    }
    Ok(())
}

fn add_item(alloc: Global, problem: &mut Problem, item: &Item) -> Result<(), NoMem>
    requires rules { ItemFollows problem.old.names (item_tree item.now) }
    requires built { IsBuiltItem (item_tree item.now) }
    requires names { length problem.old.names + length (variables (item_tree item.now)) ≤ max_variables }
    requires size { item_size (item_tree item.now) ≤ 262144 }
    requires statements { length problem.old.statements + item_statements (item_tree item.now) ≤ max_statements }
    ensures { OnOk result (problem.new ≡ record problem.old {
      names = problem.old.names ++ variables (item_tree item.now);
      statements = problem.old.statements ++ statements_of problem.old.names (item_tree item.now);
    }) }
{
    match item {
        Item::Var { names, .. } => add_variables(problem, names.as_slice()),
        Item::Eq { .. } => Ok(()),
        Item::Rel {
            parts,
            output,
            body,
            ..
        } => add_statement(alloc, problem, parts.as_slice(), output, body),
    }
}

fn add_variables(problem: &mut Problem, names: &[Name]) -> Result<(), NoMem>
    requires fresh { AreFresh problem.old.names names.now }
    requires room { length problem.old.names + length names.now ≤ max_variables }
    ensures { OnOk result (problem.new
        ≡ record problem.old { names = problem.old.names ++ texts names.now }) }
{
    for name in names {
        problem.add_var(name.text())?;
    }
    Ok(())
}

fn add_statement(
    alloc: Global,
    problem: &mut Problem,
    parts: &[Part],
    output: &Path,
    body: &Option<Expr>,
) -> Result<(), NoMem>
    requires inputs { AreKnown problem.old.names (inputs_of parts.now) }
    requires output { IsOneOf problem.old.names output.now }
    requires built { IsBuiltBody (body_expr_tree body.now) }
    requires body { HasNoFault (input_names parts.now) (body_expr_tree body.now) }
    requires size { length (inputs_of parts.now) + body_nodes (body_expr_tree body.now) ≤ 262144 }
    requires room { length problem.old.statements < max_statements }
    ensures { OnOk result (problem.new ≡ record problem.old {
      statements = problem.old.statements
          ++ plain_statement problem.old.names parts.now output.now (body_expr_tree body.now) ∷ [];
    }) }
{
    let inputs = input_vars(alloc, problem, parts)?;
    let output = var_of(problem, output);
    let subs = Items::new(alloc);
    let body = body_of(alloc, parts, body)?;
    problem.add_statement(Statement {
        inputs,
        subs,
        output,
        body,
    })?;
    Ok(())
}
