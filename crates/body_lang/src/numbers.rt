ghost use Rattle.priz_frac.specs.Narrow.{IsNarrow};
ghost use Rattle.body_lang.specs.View.{body_tree, body_trees};
ghost use Rattle.body_lang.specs.Keeping.{NumbersHave, AllNumbersHave};

use crate::Body;

/// All numbers of a body are in lowest terms, and fit.
#[cycle(numbers)]
pub fn numbers_are_narrow(body: &Body)
    ensures { NumbersHave IsNarrow (body_tree body.now) }
{
    match body {
        Body::Num(value) => {
            let _ = value.num();
        }
        Body::Input(_) | Body::Local(_) => {}
        Body::Neg(inner) => numbers_are_narrow(inner.get()),
        Body::Op { op: _, left, right } => {
            numbers_are_narrow(left.get());
            numbers_are_narrow(right.get());
        }
        Body::If {
            cmp: _,
            left,
            right,
            yes,
            no,
        } => {
            numbers_are_narrow(left.get());
            numbers_are_narrow(right.get());
            numbers_are_narrow(yes.get());
            numbers_are_narrow(no.get());
        }
        Body::Sum {
            first,
            second,
            each,
        }
        | Body::Prod {
            first,
            second,
            each,
        }
        | Body::Iter {
            first,
            second,
            each,
        } => {
            numbers_are_narrow(first.get());
            numbers_are_narrow(second.get());
            numbers_are_narrow(each.get());
        }
        Body::Call { k: _, out: _, args } => all_are_narrow(args.as_slice()),
    }
}

#[cycle(numbers)]
fn all_are_narrow(args: &[Body])
    ensures { AllNumbersHave IsNarrow (body_trees args.now) }
{
    for arg in args {
        numbers_are_narrow(arg);
    }
}
