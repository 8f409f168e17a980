ghost use Rattle.std.specs.Prelude.{◌≡◌, ◌<◌, ◌^◌, length};
ghost use Rattle.concept_unfold.specs.steps.RoundNames.{round_names};
ghost use Rattle.concept_unfold.specs.Bodies.{loop_number};

/// The names of the loops whose rounds hold a point of a body, from the inside.
#[derive(Clone, Copy)]
pub(crate) enum Rounds<'a> {
    Outermost,
    Inside {
        name: &'a str,
        around: &'a Rounds<'a>,
    },
}

/// The number of the innermost loop of this name, counted from the outside.
pub(crate) fn number_of(rounds: &Rounds, name: &str) -> Option<u32>
    requires { length (round_names rounds.now) < 2 ^ 32 }
    ensures { result ≡ loop_number name.now (round_names rounds.now) }
{
    match rounds {
        Rounds::Outermost => None,
        Rounds::Inside { name: own, around } => {
            if name == *own {
                Some(count(around))
            } else {
                number_of(around, name)
            }
        }
    }
}

fn count(rounds: &Rounds) -> u32
    requires { length (round_names rounds.now) < 2 ^ 32 }
    ensures { result ≡ length (round_names rounds.now) }
{
    match rounds {
        Rounds::Outermost => 0,
        Rounds::Inside { name: _, around } => count(around) + 1,
    }
}
