use priz_base::Var;
use priz_frac::Frac;

/// A variable that is known from the start, with its value where the problem names one.
#[derive(Clone, Copy, Debug)]
pub struct Given {
    pub var: Var,
    pub value: Option<Frac>,
}
