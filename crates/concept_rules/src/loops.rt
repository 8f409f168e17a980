ghost use Rattle.std.specs.Prelude.{◌≡◌};
ghost use Rattle.concept_rules.specs.Declarations.{is_among};
ghost use Rattle.concept_rules.specs.steps.LoopNames.{loop_names};

/// The names of loops around a point of a body, from the inside.
#[derive(Clone, Copy)]
pub(crate) enum Loops<'a> {
    Outermost,
    Inside {
        name: &'a str,
        around: &'a Loops<'a>,
    },
}

/// Whether a loop has this name.
pub(crate) fn has(loops: &Loops, name: &str) -> bool
    ensures { result ≡ is_among name.now (loop_names loops.now) }
{
    match loops {
        Loops::Outermost => false,
        Loops::Inside { name: own, around } => name == *own || has(around, name),
    }
}
