ghost use Rattle.std.specs.Prelude.{◌≡◌, ◌+◌, length, slice_get, Some, IfOk, IfErr};
ghost use Rattle.body_lang.specs.Values.{value_at};
ghost use Rattle.proof_term.specs.steps.LocalValues.{local_values};

use priz_frac::Frac;

/// The values of the loops around a point of a body, from the inside.
#[derive(Clone, Copy)]
pub(crate) enum Locals<'a> {
    Outermost,
    Inside { value: Frac, around: &'a Locals<'a> },
}

/// The value of the loop of this number, counted from the outside.
pub(crate) fn local_at(locals: &Locals, j: u32) -> Frac
    ensures { result ≡ value_at (local_values locals.now) j }
{
    match look(locals, j) {
        Ok(value) => value,
        Err(_) => Frac::from_whole(0),
    }
}

// The value, or how far the number is past the loops.
fn look(locals: &Locals, j: u32) -> Result<Frac, u32>
    ensures found { IfOk result (λ v. slice_get (local_values locals.now) j ≡ Some v) }
    ensures past { IfErr result (λ k. length (local_values locals.now) + k ≡ j) }
{
    match locals {
        Locals::Outermost => Err(j),
        Locals::Inside { value, around } => match look(around, j) {
            Ok(found) => Ok(found),
            Err(0) => Ok(*value),
            Err(past) => Err(past - 1),
        },
    }
}
