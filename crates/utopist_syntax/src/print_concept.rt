#![tactic(auto, using(priz_base::proofs::Kept::kept))]

ghost use Rattle.std.specs.List.{flat_map};
ghost use Rattle.priz_base.specs.Printing.{Prints};
ghost use Rattle.utopist_syntax.specs.ConceptText.{parents_text, item_line, concept_text};

use crate::print_item::print_item;
use crate::print_path::print_names;
use crate::{Concept, Item, Name};
use priz_base::NoMem;

/// Appends a concept, with a line for each of its items.
pub fn print_concept(concept: &Concept, out: &mut Vec<u8>) -> Result<(), NoMem>
    ensures { Prints (concept_text concept.now) result out.old.items out.new.items }
{
    out.extend_from_slice(b"concept ")?;
    out.extend_from_slice(concept.name.text().as_bytes())?;
    print_parents(concept.parents.as_slice(), out)?;
    out.extend_from_slice(b" : (\n")?;
    print_items(concept.items.as_slice(), out)?;
    out.extend_from_slice(b");\n")?;
    Ok(())
}

fn print_parents(parents: &[Name], out: &mut Vec<u8>) -> Result<(), NoMem>
    ensures { Prints (parents_text parents.now) result out.old.items out.new.items }
{
    if parents.is_empty() {
        return Ok(());
    }
    out.extend_from_slice(b" is ")?;
    print_names(parents, b", ", out)
}

fn print_items(items: &[Item], out: &mut Vec<u8>) -> Result<(), NoMem>
    ensures { Prints (flat_map item_line items.now) result out.old.items out.new.items }
{
    for item in items {
        print_line(item, out)?;
    }
    Ok(())
}

fn print_line(item: &Item, out: &mut Vec<u8>) -> Result<(), NoMem>
    ensures { Prints (item_line item.now) result out.old.items out.new.items }
{
    out.extend_from_slice(b"  ")?;
    print_item(item, out)?;
    out.push(b'\n')?;
    Ok(())
}
