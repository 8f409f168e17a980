//! The words of the command line.
ghost use Rattle.std.specs.Prelude.{◌≡◌, ◌==◌, IfOk, map, string_bytes, option_map, slice_index};
ghost use Rattle.clap.specs.Words.{app_of};
ghost use Rattle.priz_cli.specs.Modes.{mode_of};
ghost use Rattle.priz_cli.specs.Words.{command, number_to, turns_in, order_in, asked_order};

use crate::order::{Mode, Order};
use answer_core::Effort;
use clap::error::ErrorKind;
use clap::{Arg, Command};
use priz_base::NoMem;
use std::alloc::{AllocError, Global};

/// What the words ask for; none, where it is nothing that the program does. The first word is the program's name.
pub(crate) fn asked_order(alloc: Global, words: &[String]) -> Result<Option<Order>, NoMem>
    ensures { IfOk result (λ order. order ≡ asked_order (map string_bytes words.now)) }
{
    let command = command(alloc)?;
    match command.try_get_matches_from(words) {
        Ok(matches) => Ok(order_in(matches.get_str("mode"), matches.get_str("turns"))),
        Err(error) => match error.kind() {
            ErrorKind::OutOfMemory => Err(NoMem),
            _ => Ok(None),
        },
    }
}

fn command<'a>(alloc: Global) -> Result<Command<'a>, AllocError>
    ensures { IfOk result (λ c. app_of c ≡ command) }
{
    let mode = Arg::new(alloc, "mode").required(true);
    let turns = Arg::new(alloc, "turns").long("turns");
    Command::new(alloc, "priz")
        .disable_help_flag(true)
        .disable_version_flag(true)
        .arg(mode)?
        .arg(turns)
}

fn order_in(mode: Option<&str>, turns: Option<&str>) -> Option<Order>
    ensures { result
        ≡ order_in (option_map (λ t. t.now) mode.entry) (option_map (λ t. t.now) turns.entry) }
{
    let mode = mode_of(mode?)?;
    let turns = turns_in(turns)?;
    let effort = Effort { turns };
    Some(Order { mode, effort })
}

fn mode_of(word: &str) -> Option<Mode>
    ensures { result ≡ mode_of word.now }
{
    match word {
        "solve" => Some(Mode::Solve),
        _ => None,
    }
}

const USUAL_TURNS: u32 = 1_000_000;

const MOST_TURNS: u32 = 10_000_000;

fn turns_in(turns: Option<&str>) -> Option<u32>
    ensures { result ≡ turns_in (option_map (λ t. t.now) turns.entry) }
{
    match turns {
        Some(text) => number_to(MOST_TURNS, text),
        None => Some(USUAL_TURNS),
    }
}

// The number that digits write, from 1 to the greatest that is allowed.
fn number_to(greatest: u32, text: &str) -> Option<u32>
    ensures { result ≡ number_to greatest text.now }
{
    // `parse` takes a plus, too.
    if begins_with_plus(text) {
        return None;
    }
    match text.parse::<u32>() {
        Ok(number) if 1 <= number && number <= greatest => Some(number),
        _ => None,
    }
}

fn begins_with_plus(text: &str) -> bool
    ensures { result ≡ (slice_index text.now 0 == 43) }
{
    matches!(text.as_bytes(), [b'+', ..])
}
