// Certificates whose spelling is known.
use crate::{write_proof, write_worlds};
use kripke_check::Worlds;
use priz_base::{NoMem, Var, VarSet};
use proof_term::{Block, Step, Sub};
use sqlite_items::Items;
use std::alloc::Global;
use std::test::Fail;

fn block_of(alloc: Global, stmt: u32, subs: Items<Sub>) -> Result<Block, NoMem> {
    let mut block = Block::new(alloc);
    block.push(Step { stmt, subs })?;
    Ok(block)
}

#[test]
fn blocks_nest_and_results_may_be_known(rt: HostRuntime) -> Result<(), Fail> {
    let alloc = rt.alloc();
    let mut subs = Items::new(alloc);
    subs.push(Sub::Body(block_of(alloc, 0, Items::new(alloc))?))?;
    subs.push(Sub::Known)?;
    let mut out = Vec::new(alloc);
    write_proof(&block_of(alloc, 10, subs)?, &mut out)?;
    write_proof(&Block::new(alloc), &mut out)?;
    assert_eq!(rt;
        out.as_slice(),
        b"proof {10({0;},known);}\nproof {}\n".as_slice()
    );
    Ok(())
}

#[test]
fn worlds_have_a_digit_for_four_variables(rt: HostRuntime) -> Result<(), Fail> {
    let alloc = rt.alloc();
    let mut worlds = Worlds::new(alloc);
    let mut world = VarSet::new();
    world.add(Var(9));
    world.add(Var(10));
    world.add(Var(12));
    worlds.push(&world)?;
    world.remove(Var(9));
    world.remove(Var(10));
    worlds.push(&world)?;
    let mut out = Vec::new(alloc);
    write_worlds(14, &worlds, &mut out)?;
    assert_eq!(rt; out.as_slice(), b"worlds 0061 0001\n".as_slice());
    Ok(())
}
