//! What is given, and the numbers of it.
ghost use Rattle.std.specs.Prelude.{◌≡◌, pos, ◌≤ℤ◌, ◌<ℤ◌, unsigned_abs, IfOk};
ghost use Rattle.priz_frac.specs.Lowest.{low};
ghost use Rattle.priz_frac.specs.Sign.{signed_number, signed_ratio};
ghost use Rattle.token_forms.specs.steps.Answers.{ReadBy, StaysOrGoesOn};
ghost use Rattle.utopist_parser.specs.steps.ReadingFile.{negative_at, below_at, given_value_at, given_at, givens_at};

use crate::production::{Production, separated};
use priz_frac::Frac;
use sqlite_items::Items;
use token_forms::{ParseStop, Reader};
use utopist_lexer::{Mark, Word};
use utopist_syntax::{GivenPath, Path};

#[tactic(auto, unfolding(crate::specs::steps::ReadingFile::givens_at, crate::specs::steps::ReadingFile::some_givens_at))]
pub fn read_givens<'a>(reader: &mut Reader<'a>) -> Result<Items<GivenPath<'a>>, ParseStop>
    ensures reads { ReadBy givens_at reader.old result reader.new }
    ensures stays { StaysOrGoesOn reader.old result reader.new }
{
    if !reader.next_is_word(Word::Given) {
        return Ok(Items::new(reader.alloc));
    }
    reader.word(Word::Given)?;
    let givens = separated(reader, Mark::Comma)?;
    reader.mark(Mark::Semicolon)?;
    Ok(givens)
}

impl<'a> Production<'a> for GivenPath<'a> {
    ghost step = { given_at };

    #[tactic(auto, unfolding(crate::specs::steps::ReadingFile::given_at))]
    fn read(reader: &mut Reader<'a>) -> Result<GivenPath<'a>, ParseStop> {
        let path = Path::read(reader)?;
        let value = read_value(reader)?;
        Ok(GivenPath { path, value })
    }
}

#[tactic(auto, unfolding(crate::specs::steps::ReadingFile::given_value_at, crate::specs::steps::ReadingFile::some_value_at))]
fn read_value(reader: &mut Reader) -> Result<Option<Frac>, ParseStop>
    ensures reads { ReadBy given_value_at reader.old result reader.new }
    ensures stays { StaysOrGoesOn reader.old result reader.new }
{
    if !reader.next_is_mark(Mark::Equal) {
        return Ok(None);
    }
    reader.mark(Mark::Equal)?;
    let negative = read_sign(reader)?;
    let n = reader.number()?;
    let d = read_below(reader)?;
    Ok(Some(fraction_of(negative, n, d)))
}

// Whether a minus stands there.
#[tactic(auto, unfolding(crate::specs::steps::ReadingFile::negative_at, crate::specs::steps::ReadingFile::minus_at))]
fn read_sign(reader: &mut Reader) -> Result<bool, ParseStop>
    ensures reads { ReadBy negative_at reader.old result reader.new }
    ensures stays { StaysOrGoesOn reader.old result reader.new }
{
    if reader.next_is_mark(Mark::Minus) {
        reader.mark(Mark::Minus)?;
        Ok(true)
    } else {
        Ok(false)
    }
}

// The denominator, which is 1 where none stands there.
#[tactic(auto, unfolding(crate::specs::steps::ReadingFile::below_at, crate::specs::steps::ReadingFile::some_below_at))]
fn read_below(reader: &mut Reader) -> Result<i64, ParseStop>
    ensures reads { ReadBy below_at reader.old result reader.new }
    ensures positive { IfOk result (λ d. pos 0 <ℤ d) }
    ensures stays { StaysOrGoesOn reader.old result reader.new }
{
    if !reader.next_is_mark(Mark::Slash) {
        return Ok(1);
    }
    reader.mark(Mark::Slash)?;
    reader.divisor()
}

// n / d, or -(n / d), which is never past the bounds of a fraction.
fn fraction_of(negative: bool, n: i64, d: i64) -> Frac
    requires natural { pos 0 ≤ℤ n }
    requires positive { pos 0 <ℤ d }
    ensures { result ≡ low (signed_ratio negative (unsigned_abs n) (unsigned_abs d)) }
{
    match Frac::of(with_sign(negative, n) as i128, d as i128) {
        Ok(fraction) => fraction,
        Err(_) => unreachable!(),
    }
}

fn with_sign(negative: bool, n: i64) -> i64
    requires { pos 0 ≤ℤ n }
    ensures { result ≡ signed_number negative n }
{
    if negative { -n } else { n }
}
