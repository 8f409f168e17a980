ghost use Rattle.std.specs.Prelude.{◌≡◌, IfOk};
ghost use Rattle.body_lang.specs.Equations.{IsArithmetic};
ghost use Rattle.body_lang.specs.View.{body_tree};

use body_lang::Body;
use priz_base::NoMem;
use sqlite_items::Boxed;
use std::alloc::Global;

/// Another body like this one.
pub(crate) fn copy_of(alloc: Global, body: &Body) -> Result<Body, NoMem>
    requires { IsArithmetic (body_tree body.now) }
    ensures { IfOk result (λ b. body_tree b ≡ body_tree body.now) }
{
    match body {
        Body::Num(x) => Ok(Body::Num(*x)),
        Body::Input(i) => Ok(Body::Input(*i)),
        Body::Neg(part) => {
            let part = copy_of(alloc, part.get())?;
            Ok(Body::Neg(Boxed::new(alloc, part)?))
        }
        Body::Op { op, left, right } => {
            let left = Boxed::new(alloc, copy_of(alloc, left.get())?)?;
            let right = Boxed::new(alloc, copy_of(alloc, right.get())?)?;
            Ok(Body::Op {
                op: *op,
                left,
                right,
            })
        }
        _ => unreachable!(),
    }
}
