ghost use Rattle.std.specs.Prelude.{◌≡◌, map, IfOk, IfErr};
ghost use Rattle.statement_set.specs.Problem.{AreVars};
ghost use Rattle.worked_problems.specs.WorldRows.{HasJust, AreWorldsOf, IsWorldFaultOf};

use crate::WorldFault;
use crate::statement::are_vars;
use kripke_check::Worlds;
use priz_base::{Var, VarSet};
use std::alloc::Global;

const MAX_WORLDS: usize = 4_294_967_295;

/// Worlds with the members of these rows, or why there are none.
pub fn build_worlds(alloc: Global, rows: &[&[u32]]) -> Result<Worlds, WorldFault>
    ensures ok { IfOk result (λ w. AreWorldsOf w (map (λ r. r.now) rows.now)) }
    ensures fault { IfErr result (λ e. IsWorldFaultOf e (map (λ r. r.now) rows.now)) }
{
    if rows.len() > MAX_WORLDS {
        return Err(WorldFault::TooManyWorlds);
    }
    let mut worlds = Worlds::new(alloc);
    for row in rows {
        if !are_vars(1024, row) {
            return Err(WorldFault::WideMember);
        }
        worlds.push(&world_of(row))?;
    }
    Ok(worlds)
}

fn world_of(row: &[u32]) -> VarSet
    requires { AreVars 1024 row.now }
    ensures { HasJust result row.now }
{
    let mut world = VarSet::new();
    for v in row {
        world.add(Var(*v));
    }
    world
}
