ghost use Rattle.std.specs.Prelude.{◌≡◌, min};
ghost use Rattle.body_lang.specs.Equations.{IsArithmetic};
ghost use Rattle.body_lang.specs.Occurrences.{occurrences};
ghost use Rattle.body_lang.specs.View.{body_tree};

use body_lang::Body;

/// How many times variable v stands in arithmetic, counted up to 2.
pub(crate) fn count(body: &Body, v: u32) -> u32
    requires { IsArithmetic (body_tree body.now) }
    ensures { result ≡ min 2 (occurrences v (body_tree body.now)) }
{
    match body {
        Body::Num(_) => 0,
        Body::Input(i) => u32::from(*i == v),
        Body::Neg(part) => count(part.get(), v),
        Body::Op { op: _, left, right } => {
            let in_both = count(left.get(), v) + count(right.get(), v);
            in_both.min(2)
        }
        _ => unreachable!(),
    }
}
