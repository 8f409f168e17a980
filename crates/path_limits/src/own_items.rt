//! The extent of the own items of a concept.
ghost use Rattle.std.specs.Prelude.{◌≡◌, ℕ, List, map};
ghost use Rattle.std.specs.List.{flat_map};
ghost use Rattle.utopist_syntax.specs.FileTree.{item_tree};
ghost use Rattle.canonical_paths.specs.PathNames.{PathNames};
ghost use Rattle.canonical_paths.specs.DeclaredPaths.{paths_in_kind, item_paths};
ghost use Rattle.path_limits.specs.Extents.{extent_of};
ghost use Rattle.path_limits.specs.steps.Measured.{IsMeasured, IsKindMeasured, IsItemMeasured, AreMeasured};

use crate::extent::PathExtent;
use concept_rules::Lineages;
use sqlite_items::at;
use utopist_syntax::{Item, Name, VarKind};

/// The extent of the paths of these items. Extents stand in the order of the concepts.
pub(crate) fn extent_of_items(
    lineages: &Lineages,
    extents: &[PathExtent],
    items: &[Item],
) -> PathExtent
    ensures { (inside : List ℕ → List PathNames)
        → AreMeasured inside lineages.now.names extents.now (map item_tree items.now)
        → result ≡ extent_of (flat_map (item_paths inside) (map item_tree items.now)) }
{
    let mut extent = PathExtent::none();
    for item in items {
        extent = extent.join(extent_of_item(lineages, extents, item));
    }
    extent
}

fn extent_of_item(lineages: &Lineages, extents: &[PathExtent], item: &Item) -> PathExtent
    ensures { (inside : List ℕ → List PathNames)
        → IsItemMeasured inside lineages.now.names extents.now (item_tree item.now)
        → result ≡ extent_of (item_paths inside (item_tree item.now)) }
{
    match item {
        Item::Var { names, kind, .. } => {
            extent_inside(lineages, extents, kind).of_variables(names.len())
        }
        Item::Eq { .. } => PathExtent::none(),
        Item::Rel { .. } => PathExtent::none(),
    }
}

fn extent_inside(lineages: &Lineages, extents: &[PathExtent], kind: &VarKind) -> PathExtent
    ensures { (inside : List ℕ → List PathNames)
        → IsKindMeasured inside lineages.now.names extents.now kind.now
        → result ≡ extent_of (paths_in_kind inside kind.now) }
{
    match kind {
        VarKind::Numeric => PathExtent::none(),
        VarKind::Of(name) => extent_of_type(lineages, extents, name),
    }
}

// A type stands before the concepts that have components of it, so there is an extent.
fn extent_of_type(lineages: &Lineages, extents: &[PathExtent], name: &Name) -> PathExtent
    ensures { (inside : List ℕ → List PathNames)
        → IsMeasured inside lineages.now.names extents.now name.now.text
        → result ≡ extent_of (inside name.now.text) }
{
    let Some(number) = lineages.number(name.text()) else {
        return PathExtent::none();
    };
    match at(extents, number) {
        Some(extent) => *extent,
        None => PathExtent::none(),
    }
}
