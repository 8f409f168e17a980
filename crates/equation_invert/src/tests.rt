ghost use Rattle.std.specs.Prelude.{IfOk};
ghost use Rattle.body_lang.specs.Equations.{AreArithmetic};

use crate::invert;
use body_lang::{Body, Equation, Op};
use sqlite_items::Boxed;
use std::alloc::{AllocError, Global};
use std::test::Fail;

const A: u32 = 0;

const B: u32 = 1;

const X: u32 = 2;

/// `left op right = b`
fn equation(alloc: Global, op: Op, left: u32, right: u32) -> Result<Equation, AllocError>
    ensures { IfOk result (λ e. AreArithmetic e) }
{
    let left = Boxed::new(alloc, Body::Input(left))?;
    let right = Boxed::new(alloc, Body::Input(right))?;
    Ok(Equation {
        left: Body::Op { op, left, right },
        right: Body::Input(B),
    })
}

// The operator, and the variables on both sides of it.
fn parts(body: &Body) -> Option<(Op, u32, u32)> {
    let Body::Op { op, left, right } = body else {
        return None;
    };
    match (left.get(), right.get()) {
        (Body::Input(l), Body::Input(r)) => Some((*op, *l, *r)),
        _ => None,
    }
}

/// From `left op right = b` comes what x is.
const EQUATIONS: [(Op, u32, u32, Option<(Op, u32, u32)>); 6] = [
    (Op::Div, A, X, Some((Op::Div, A, B))),
    (Op::Sub, A, X, Some((Op::Sub, A, B))),
    (Op::Sub, X, A, Some((Op::Add, B, A))),
    (Op::Mul, A, X, Some((Op::Div, B, A))),
    (Op::Mul, X, X, None),
    (Op::Add, A, B, None),
];

#[test]
fn equations_are_solved_for_x(rt: HostRuntime) -> Result<(), Fail> {
    let alloc = rt.alloc();
    for (op, left, right, expected) in EQUATIONS {
        let equation = equation(alloc, op, left, right)?;
        let solved = invert(alloc, &equation, X).expect(&rt, "memory");
        let found = match &solved {
            Some(body) => parts(body),
            None => None,
        };
        assert_eq!(rt; found, expected, "{left} {op:?} {right}");
    }
    Ok(())
}
