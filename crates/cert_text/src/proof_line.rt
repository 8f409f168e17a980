#![tactic(auto, using(priz_base::proofs::Kept::kept))]

ghost use Rattle.std.specs.Prelude.{◌<◌, length};
ghost use Rattle.priz_base.specs.Printing.{Prints};
ghost use Rattle.proof_term.specs.Plain.{subs_of};
ghost use Rattle.cert_text.specs.BlockText.{block_text, subs_text, proof_line};
ghost use Rattle.cert_text.specs.steps.Parts.{step_text, sub_text};

use itoa::Buffer;
use priz_base::NoMem;
use proof_term::{Block, Step, Sub};

/// Appends `proof `, the block and a line feed.
pub fn write_proof(block: &Block, out: &mut Vec<u8>) -> Result<(), NoMem>
    ensures { Prints (proof_line block.now) result out.old.items out.new.items }
{
    out.extend_from_slice(b"proof ")?;
    write_block(block, out)?;
    out.push(b'\n')?;
    Ok(())
}

#[cycle(block)]
fn write_block(block: &Block, out: &mut Vec<u8>) -> Result<(), NoMem>
    ensures { Prints (block_text block.now) result out.old.items out.new.items }
{
    out.push(b'{')?;
    for step in block.steps.as_slice() {
        write_step(step, out)?;
    }
    out.push(b'}')?;
    Ok(())
}

#[cycle(block)]
fn write_step(step: &Step, out: &mut Vec<u8>) -> Result<(), NoMem>
    ensures { Prints (step_text step.now) result out.old.items out.new.items }
{
    out.extend_from_slice(Buffer::new().format(step.stmt).as_bytes())?;
    if !step.subs.is_empty() {
        write_subs(step.subs.as_slice(), out)?;
    }
    out.push(b';')?;
    Ok(())
}

#[cycle(block)]
fn write_subs(subs: &[Sub], out: &mut Vec<u8>) -> Result<(), NoMem>
    requires { 0 < length subs.now }
    ensures { Prints (subs_text (subs_of subs.now)) result out.old.items out.new.items }
{
    let mut before = b'(';
    for sub in subs {
        out.push(before)?;
        write_sub(sub, out)?;
        before = b',';
    }
    out.push(b')')?;
    Ok(())
}

#[cycle(block)]
fn write_sub(sub: &Sub, out: &mut Vec<u8>) -> Result<(), NoMem>
    ensures { Prints (sub_text sub.now) result out.old.items out.new.items }
{
    match sub {
        Sub::Known => out.extend_from_slice(b"known")?,
        Sub::Body(block) => write_block(block, out)?,
    }
    Ok(())
}
