//! Items.
ghost use Rattle.utopist_syntax.specs.FileTree.{ItemTree, body_expr_tree, item_tree};
ghost use Rattle.token_forms.specs.steps.Answers.{ReadThrough, GoesOn, StaysOrGoesOn};
ghost use Rattle.utopist_parser.specs.steps.ReadingFile.{var_at, eq_at, body_at, rel_at, item_at, begins_item};

use crate::binds::read_kind;
use crate::breadth::{Breadth, MOST_ROOM};
use crate::entry::Entry;
use crate::expr::{read_expr, read_group};
use crate::group::Group;
use crate::parts::read_parts;
use crate::paths::read_names;
use crate::production::Production;
use token_forms::{ParseStop, Reader};
use utopist_lexer::{Mark, Word};
use utopist_syntax::{Expr, Item, Path};

impl<'a> Entry<'a> for Item<'a> {
    ghost Tree = { ItemTree };

    ghost tree = { item_tree };

    ghost begins = { begins_item };

    ghost step = { item_at };

    fn is_next(reader: &Reader<'a>) -> bool {
        reader.next_is_word(Word::Var)
            || reader.next_is_word(Word::Eq)
            || reader.next_is_word(Word::Rel)
    }

    #[tactic(auto, unfolding(crate::specs::steps::ReadingFile::item_at))]
    fn read(reader: &mut Reader<'a>) -> Result<Item<'a>, ParseStop> {
        if reader.next_is_word(Word::Var) {
            read_var(reader)
        } else if reader.next_is_word(Word::Eq) {
            read_eq(reader)
        } else {
            read_rel(reader)
        }
    }
}

#[tactic(auto, unfolding(crate::specs::steps::ReadingFile::var_at))]
fn read_var<'a>(reader: &mut Reader<'a>) -> Result<Item<'a>, ParseStop>
    ensures reads { ReadThrough item_tree var_at reader.old result reader.new }
    ensures goes_on { GoesOn reader.old result reader.new }
{
    reader.word(Word::Var)?;
    let names = read_names(reader)?;
    reader.mark(Mark::Colon)?;
    let (kind, binds) = read_kind(reader)?;
    reader.mark(Mark::Semicolon)?;
    Ok(Item::Var { names, kind, binds })
}

#[tactic(auto, unfolding(crate::specs::steps::ReadingFile::eq_at))]
fn read_eq<'a>(reader: &mut Reader<'a>) -> Result<Item<'a>, ParseStop>
    ensures reads { ReadThrough item_tree eq_at reader.old result reader.new }
    ensures goes_on { GoesOn reader.old result reader.new }
{
    reader.word(Word::Eq)?;
    let (left, _) = read_group(reader, Group::Chain, Breadth::Arithmetic, MOST_ROOM)?;
    reader.mark(Mark::Equal)?;
    let (right, _) = read_group(reader, Group::Chain, Breadth::Arithmetic, MOST_ROOM)?;
    reader.mark(Mark::Semicolon)?;
    Ok(Item::Eq { left, right })
}

#[tactic(auto, unfolding(crate::specs::steps::ReadingFile::rel_at))]
fn read_rel<'a>(reader: &mut Reader<'a>) -> Result<Item<'a>, ParseStop>
    ensures reads { ReadThrough item_tree rel_at reader.old result reader.new }
    ensures goes_on { GoesOn reader.old result reader.new }
{
    reader.word(Word::Rel)?;
    let name = reader.name()?;
    reader.mark(Mark::Colon)?;
    let parts = read_parts(reader)?;
    reader.mark(Mark::Arrow)?;
    let output = Path::read(reader)?;
    let body = read_body(reader)?;
    reader.mark(Mark::Semicolon)?;
    Ok(Item::Rel {
        name,
        parts,
        output,
        body,
    })
}

#[tactic(auto, unfolding(crate::specs::steps::ReadingFile::body_at, crate::specs::steps::ReadingFile::some_body_at))]
fn read_body<'a>(reader: &mut Reader<'a>) -> Result<Option<Expr<'a>>, ParseStop>
    ensures reads { ReadThrough body_expr_tree body_at reader.old result reader.new }
    ensures stays { StaysOrGoesOn reader.old result reader.new }
{
    if !reader.next_is_mark(Mark::OpenCurly) {
        return Ok(None);
    }
    reader.mark(Mark::OpenCurly)?;
    let (body, _) = read_expr(reader, Breadth::All, MOST_ROOM)?;
    reader.mark(Mark::CloseCurly)?;
    Ok(Some(body))
}
