ghost use Rattle.std.specs.Prelude.{IfOk};
ghost use Rattle.statement_set.specs.Problem.{IsEquationOver};

use crate::{count_of, statements_of};
use body_lang::{Body, Equation, Op};
use priz_base::Var;
use sqlite_items::Boxed;
use statement_set::Statement;
use std::alloc::{AllocError, Global};
use std::test::Fail;

const A: u32 = 9;

const X: u32 = 7;

const Y: u32 = 8;

/// y = a - x
fn equation(alloc: Global) -> Result<Equation, AllocError>
    ensures { IfOk result (λ e. IsEquationOver 1024 e) }
{
    let left = Boxed::new(alloc, Body::Input(A))?;
    let right = Boxed::new(alloc, Body::Input(X))?;
    Ok(Equation {
        left: Body::Input(Y),
        right: Body::Op {
            op: Op::Sub,
            left,
            right,
        },
    })
}

// The operator, and the inputs on both sides of it.
fn parts(statement: &Statement) -> Option<(Op, u32, u32)> {
    let Some(Body::Op { op, left, right }) = &statement.body else {
        return None;
    };
    match (left.get(), right.get()) {
        (Body::Input(l), Body::Input(r)) => Some((*op, *l, *r)),
        _ => None,
    }
}

/// Output, inputs and body of each statement: y = a - x, a = y + x, x = a - y.
const STATEMENTS: [(u32, [u32; 2], (Op, u32, u32)); 3] = [
    (Y, [A, X], (Op::Sub, 0, 1)),
    (A, [Y, X], (Op::Add, 0, 1)),
    (X, [Y, A], (Op::Sub, 1, 0)),
];

#[test]
fn difference_is_solved_for_each(rt: HostRuntime) -> Result<(), Fail> {
    let alloc = rt.alloc();
    let equation = equation(alloc)?;
    assert_eq!(rt; count_of(&equation), STATEMENTS.len());
    let statements = statements_of(alloc, &equation).expect(&rt, "memory");
    assert_eq!(rt; statements.len(), STATEMENTS.len());
    for (statement, (output, [first, second], body)) in statements
        .as_slice()
        .iter()
        .zip(STATEMENTS.iter())
    {
        assert_eq!(rt; statement.output, Var(*output));
        assert_eq!(rt;
            statement.inputs.as_slice(),
            [Var(*first), Var(*second)].as_slice()
        );
        assert_eq!(rt; parts(statement), Some(*body));
    }
    Ok(())
}
