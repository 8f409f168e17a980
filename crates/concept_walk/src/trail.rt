//! The path of a component, from the inside.
ghost use Rattle.std.specs.Prelude.{◌≡◌, ◌∷◌, [], ◌++◌, string_bytes, IfOk, OnOk};
ghost use Rattle.concept_walk.specs.Dotted.{dotted};
ghost use Rattle.concept_walk.specs.steps.Trails.{trail_path, with_dots};

use priz_base::NoMem;
use std::alloc::Global;

/// The names of the components around a variable.
#[derive(Clone, Copy)]
pub(crate) enum Trail<'t> {
    Outermost,
    Inside {
        name: &'t str,
        around: &'t Trail<'t>,
    },
}

/// The name of a variable of that component in a problem: its path with dots.
pub(crate) fn dotted_name(alloc: Global, around: &Trail, name: &str) -> Result<String, NoMem>
    ensures { IfOk result (λ text. string_bytes text ≡ dotted (trail_path around.now ++ name.now ∷ [])) }
{
    let mut text = String::new(alloc);
    push_trail(&mut text, around)?;
    text.push_str(name)?;
    Ok(text)
}

// Each name of the trail, with a dot behind it.
fn push_trail(text: &mut String, trail: &Trail) -> Result<(), NoMem>
    ensures { OnOk result (string_bytes text.new
        ≡ string_bytes text.old ++ with_dots (trail_path trail.now)) }
{
    match trail {
        Trail::Outermost => Ok(()),
        Trail::Inside { name, around } => {
            push_trail(text, around)?;
            text.push_str(name)?;
            text.push_str(".")?;
            Ok(())
        }
    }
}
