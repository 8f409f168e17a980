ghost use Rattle.std.specs.Prelude.{◌≡◌};
ghost use Rattle.worked_problems.specs.declared.world_fault.WorldFault.TheVariants.{NoMem as no_mem};

use priz_base::NoMem;

/// Why rows are no worlds.
#[derive(Clone, Copy, PartialEq, Eq, Debug)]
pub enum WorldFault {
    NoMem,
    TooManyWorlds,
    /// A member that is not below 1,024.
    WideMember,
}

impl From<NoMem> for WorldFault {
    ghost from_gives = { λ _ e. e ≡ no_mem };

    fn from(_error: NoMem) -> WorldFault {
        WorldFault::NoMem
    }
}
