// Bodies of a statement with two inputs, and two subtasks: one input and one output, and two of each.
use crate::{Arity, Body, BodyFault, Cmp, LoopKind, Op, check_body};
use sqlite_items::{Boxed, Items};
use std::alloc::{AllocError, Global};
use std::test::Fail;

/// A part of a small body.
#[derive(Clone, Copy, Debug)]
enum Leaf {
    Input(u32),
    Local(u32),
    /// A call with no argument.
    Call(u32),
}

/// What a body makes of the leaves.
#[derive(Clone, Copy, Debug)]
enum Form {
    Alone,
    Neg,
    Op,
    If,
    Loop(LoopKind),
    /// `sum(i, a, b, iter(x, c, c, d))`
    Nested,
    /// A call of this subtask.
    Call(u32),
    CallOfTwo(u32),
    /// A call of two arguments for the second output.
    SecondOfTwo(u32),
}

#[derive(Clone, Copy)]
struct Make {
    alloc: Global,
}

impl Make {
    fn leaf(self, leaf: Leaf) -> Body {
        match leaf {
            Leaf::Input(i) => Body::Input(i),
            Leaf::Local(j) => Body::Local(j),
            Leaf::Call(k) => Body::Call {
                k,
                out: 0,
                args: Items::new(self.alloc),
            },
        }
    }

    fn part(self, leaf: Leaf) -> Result<Boxed<Body>, AllocError> {
        Boxed::new(self.alloc, self.leaf(leaf))
    }

    fn op(self, left: Leaf, right: Leaf) -> Result<Body, AllocError> {
        Ok(Body::Op {
            op: Op::Add,
            left: self.part(left)?,
            right: self.part(right)?,
        })
    }

    fn choice(self, [left, right, yes, no]: [Leaf; 4]) -> Result<Body, AllocError> {
        Ok(Body::If {
            cmp: Cmp::Less,
            left: self.part(left)?,
            right: self.part(right)?,
            yes: self.part(yes)?,
            no: self.part(no)?,
        })
    }

    fn turns(
        self,
        kind: LoopKind,
        first: Leaf,
        second: Leaf,
        each: Body,
    ) -> Result<Body, AllocError> {
        let first = self.part(first)?;
        let second = self.part(second)?;
        let each = Boxed::new(self.alloc, each)?;
        Ok(match kind {
            LoopKind::Sum => Body::Sum {
                first,
                second,
                each,
            },
            LoopKind::Prod => Body::Prod {
                first,
                second,
                each,
            },
            LoopKind::Iter => Body::Iter {
                first,
                second,
                each,
            },
        })
    }

    fn call(self, k: u32, out: u32, leaves: &[Leaf]) -> Result<Body, AllocError> {
        let mut args = Items::new(self.alloc);
        for leaf in leaves {
            args.push(self.leaf(*leaf))?;
        }
        Ok(Body::Call { k, out, args })
    }

    fn body(self, form: Form, leaves: [Leaf; 4]) -> Result<Body, AllocError> {
        let [a, b, c, d] = leaves;
        match form {
            Form::Alone => Ok(self.leaf(a)),
            Form::Neg => Ok(Body::Neg(self.part(a)?)),
            Form::Op => self.op(a, b),
            Form::If => self.choice(leaves),
            Form::Loop(kind) => self.turns(kind, a, b, self.leaf(c)),
            Form::Nested => {
                let inner = self.turns(LoopKind::Iter, c, c, self.leaf(d))?;
                self.turns(LoopKind::Sum, a, b, inner)
            }
            Form::Call(k) => self.call(k, 0, &[a]),
            Form::CallOfTwo(k) => self.call(k, 0, &[a, b]),
            Form::SecondOfTwo(k) => self.call(k, 1, &[a, b]),
        }
    }
}

/// An input that is there.
const X: Leaf = Leaf::Input(1);

/// An input that is not there.
const NO: Leaf = Leaf::Input(2);

/// The variable of the outermost loop, or of none.
const I: Leaf = Leaf::Local(0);

/// The variable of the loop inside that one, or of none.
const J: Leaf = Leaf::Local(1);

const SUM: Form = Form::Loop(LoopKind::Sum);

const PROD: Form = Form::Loop(LoopKind::Prod);

const ITER: Form = Form::Loop(LoopKind::Iter);

const OK: Result<(), BodyFault> = Ok(());

const INPUT: Result<(), BodyFault> = Err(BodyFault::BadInput);

const LOCAL: Result<(), BodyFault> = Err(BodyFault::BadLocal);

const CALL: Result<(), BodyFault> = Err(BodyFault::BadCall);

const ARITY: Result<(), BodyFault> = Err(BodyFault::BadArity);

const BODIES: [(Form, [Leaf; 4], Result<(), BodyFault>); 52] = [
    (Form::Alone, [X, X, X, X], OK),
    (Form::Alone, [NO, X, X, X], INPUT),
    (Form::Alone, [Leaf::Input(u32::MAX), X, X, X], INPUT),
    (Form::Alone, [I, X, X, X], LOCAL),
    (Form::Neg, [X, NO, NO, NO], OK),
    (Form::Neg, [NO, X, X, X], INPUT),
    // from left to right
    (Form::Op, [X, X, NO, NO], OK),
    (Form::Op, [X, I, X, X], LOCAL),
    (Form::Op, [NO, I, X, X], INPUT),
    (Form::Op, [I, NO, X, X], LOCAL),
    (Form::If, [X, X, X, X], OK),
    (Form::If, [NO, I, I, I], INPUT),
    (Form::If, [X, I, NO, NO], LOCAL),
    (Form::If, [X, X, NO, I], INPUT),
    (Form::If, [X, X, X, I], LOCAL),
    // the variable of a loop encloses its last part alone
    (SUM, [X, X, I, X], OK),
    (SUM, [I, X, I, X], LOCAL),
    (SUM, [X, I, I, X], LOCAL),
    (SUM, [X, X, J, X], LOCAL),
    (SUM, [X, X, Leaf::Local(u32::MAX), X], LOCAL),
    (PROD, [X, X, I, X], OK),
    (PROD, [I, NO, I, X], LOCAL),
    (PROD, [NO, I, I, X], INPUT),
    (PROD, [X, NO, J, X], INPUT),
    (PROD, [X, X, J, X], LOCAL),
    (ITER, [X, X, I, X], OK),
    (ITER, [I, X, I, X], LOCAL),
    (ITER, [X, I, I, X], LOCAL),
    (ITER, [X, X, J, X], LOCAL),
    (Form::Nested, [X, X, I, J], OK),
    (Form::Nested, [X, X, X, I], OK),
    (Form::Nested, [X, X, X, Leaf::Local(2)], LOCAL),
    (Form::Nested, [X, X, J, NO], LOCAL),
    (Form::Nested, [X, I, X, X], LOCAL),
    // a call before its arguments
    (Form::Call(0), [X, NO, NO, NO], OK),
    (Form::CallOfTwo(1), [X, X, NO, NO], OK),
    (Form::Call(2), [NO, X, X, X], CALL),
    (Form::Call(u32::MAX), [X, X, X, X], CALL),
    (Form::Neg, [Leaf::Call(0), X, X, X], ARITY),
    (Form::CallOfTwo(0), [NO, NO, X, X], ARITY),
    (Form::Call(1), [NO, X, X, X], ARITY),
    (Form::Call(1), [I, X, X, X], ARITY),
    (Form::Call(0), [NO, X, X, X], INPUT),
    (Form::CallOfTwo(1), [NO, I, X, X], INPUT),
    (Form::CallOfTwo(1), [X, I, X, X], LOCAL),
    (Form::Call(0), [Leaf::Call(2), X, X, X], CALL),
    (SUM, [X, X, Leaf::Call(0), X], ARITY),
    // an output that is not there, before a wrong number of arguments
    (Form::SecondOfTwo(1), [X, X, X, X], OK),
    (Form::SecondOfTwo(1), [X, NO, X, X], INPUT),
    (Form::SecondOfTwo(0), [NO, X, X, X], CALL),
    (Form::SecondOfTwo(2), [X, X, X, X], CALL),
    (Form::Op, [Leaf::Call(2), Leaf::Call(0), X, X], CALL),
];

const SUBTASKS: [Arity; 2] = [
    Arity {
        inputs: 1,
        outputs: 1,
    },
    Arity {
        inputs: 2,
        outputs: 2,
    },
];

#[test]
fn first_bad_node_is_named(rt: HostRuntime) -> Result<(), Fail> {
    let make = Make { alloc: rt.alloc() };
    for (form, leaves, verdict) in BODIES {
        let body = make.body(form, leaves)?;
        assert_eq!(rt;
            check_body(&body, 2, &SUBTASKS),
            verdict,
            "{form:?} {leaves:?}"
        );
    }
    Ok(())
}
