#![tactic(auto, using(priz_base::proofs::Kept::kept))]

ghost use Rattle.std.specs.Prelude.{◌≡◌, ◌<◌, ◌≤◌, ◌^◌, false};
ghost use Rattle.std.specs.Fmt.{digit_glyph};
ghost use Rattle.priz_base.specs.Printing.{Prints};
ghost use Rattle.cert_text.specs.WorldText.{bit_of, four_of, world_text, worlds_line};

use kripke_check::Worlds;
use priz_base::{NoMem, Var, VarSet};

/// Appends `worlds`, a blank and its text for each world of n variables, and a line feed.
pub fn write_worlds(n: u32, worlds: &Worlds, out: &mut Vec<u8>) -> Result<(), NoMem>
    ensures { Prints (worlds_line n worlds.now) result out.old.items out.new.items }
{
    out.extend_from_slice(b"worlds")?;
    for world in worlds.sets() {
        out.push(b' ')?;
        write_world(n, world, out)?;
    }
    out.push(b'\n')?;
    Ok(())
}

fn write_world(n: u32, world: &VarSet, out: &mut Vec<u8>) -> Result<(), NoMem>
    ensures { Prints (world_text n world.now) result out.old.items out.new.items }
{
    for j in 0..n.div_ceil(4) {
        out.push(digit(world, j))?;
    }
    Ok(())
}

// The digit of the four variables from 4·j on.
fn digit(world: &VarSet, j: u32) -> u8
    requires { j < 2 ^ 30 }
    ensures { result ≡ digit_glyph false (four_of world.now j) }
{
    let value = bit(world, 4 * j)
        + 2 * bit(world, 4 * j + 1)
        + 4 * bit(world, 4 * j + 2)
        + 8 * bit(world, 4 * j + 3);
    if value < 10 {
        b'0' + value
    } else {
        b'a' + (value - 10)
    }
}

fn bit(world: &VarSet, v: u32) -> u8
    ensures bit { result ≡ bit_of world.now v }
    ensures small { result ≤ 1 }
{
    if world.has(Var(v)) { 1 } else { 0 }
}
