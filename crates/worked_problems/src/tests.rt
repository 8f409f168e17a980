// Tables of problems, and what is answered about them.
use crate::{
    BuildFault, ProblemRow, StatementRow, StepRow, SubRow, SubtaskRow, build_block, build_problem,
    build_worlds,
};
use body_lang::{Body, Equation};
use kripke_check::check;
use priz_base::Var;
use saturate::Closure;
use statement_set::Problem;
use std::alloc::Global;
use std::test::Fail;
use term_check::TermChecker;

// A statement: its subtasks, each from its inputs to its outputs, and then its inputs, give an output.
macro_rules! statement {
    ($([$($from:literal),* => $($to:literal),*],)* $($input:literal),* => $output:literal) => {
        StatementRow {
            inputs: &[$($input),*],
            subs: &[$(SubtaskRow { inputs: &[$($from),*], outputs: &[$($to),*] }),*],
            output: $output,
        }
    };
}

// The steps of a block, as its certificate spells them.
macro_rules! block {
    ($($stmt:literal $(($($sub:tt),*))?;)*) => {
        &[$(StepRow { stmt: $stmt, subs: &[$($(sub!($sub)),*)?] }),*]
    };
}

macro_rules! sub {
    (known) => {
        SubRow::Known
    };
    ({ $($steps:tt)* }) => {
        SubRow::Body(block!($($steps)*))
    };
}

// y is the square of x, and t a sum of squares up to n.
const SQUARES: ProblemRow<'static> = ProblemRow {
    names: &["x", "y", "n", "t"],
    statements: &[statement!(0 => 1), statement!([0 => 1], 2 => 3)],
    givens: &[2],
    wants: &[3],
};

const SQUARES_AT_X: ProblemRow<'static> = ProblemRow {
    names: &["x", "y", "n", "t"],
    statements: &[statement!(0 => 1), statement!([0 => 1], 2 => 3)],
    givens: &[0, 2],
    wants: &[3],
};

// The sum, without a way to square.
const NO_SQUARE: ProblemRow<'static> = ProblemRow {
    names: &["x", "y", "n", "t"],
    statements: &[statement!([0 => 1], 2 => 3)],
    givens: &[2],
    wants: &[3],
};

// cell = i * j, solved for each of them; inner sums cell over j, and total sums inner over i.
const TRIANGLE: ProblemRow<'static> = ProblemRow {
    names: &["i", "j", "n", "inner", "cell", "total"],
    statements: &[
        statement!(4, 1 => 0),
        statement!(4, 0 => 1),
        statement!(0, 1 => 4),
        statement!([1 => 4], 0 => 3),
        statement!([0 => 3], 2 => 5),
    ],
    givens: &[2],
    wants: &[5],
};

// y is the square of x, z is x + 1, and t needs both of them for each x up to n.
const TWO_OUTPUTS: ProblemRow<'static> = ProblemRow {
    names: &["x", "y", "z", "n", "t"],
    statements: &[
        statement!(0 => 1),
        statement!(0 => 2),
        statement!(2 => 0),
        statement!([0 => 1, 2], 3 => 4),
    ],
    givens: &[3],
    wants: &[4],
};

const TWO_OUTPUTS_AT_X: ProblemRow<'static> = ProblemRow {
    givens: &[0, 3],
    ..TWO_OUTPUTS
};

const TWO_OUTPUTS_AT_Y: ProblemRow<'static> = ProblemRow {
    givens: &[1, 3],
    ..TWO_OUTPUTS
};

// Without z.
const ONE_OF_TWO: ProblemRow<'static> = ProblemRow {
    statements: &[statement!(0 => 1), statement!([0 => 1, 2], 3 => 4)],
    ..TWO_OUTPUTS
};

// p from a program from p to q: a law of classical logic alone.
const PEIRCE: ProblemRow<'static> = ProblemRow {
    names: &["p", "q"],
    statements: &[statement!([0 => 1], => 0)],
    givens: &[],
    wants: &[0],
};

// The program gives q and r.
const PEIRCE_OF_TWO: ProblemRow<'static> = ProblemRow {
    names: &["p", "q", "r"],
    statements: &[statement!([0 => 1, 2], => 0)],
    givens: &[],
    wants: &[0],
};

// Two statements with the same subtask, which nothing answers.
const SAME_SUBTASK: ProblemRow<'static> = ProblemRow {
    names: &["x", "y", "p", "q"],
    statements: &[statement!([0 => 1], => 2), statement!([0 => 1], => 3)],
    givens: &[],
    wants: &[3],
};

/// A problem, a block, whether it proves the goal, and whether it is separate.
type Judged = (
    &'static ProblemRow<'static>,
    &'static [StepRow<'static>],
    bool,
    bool,
);

const BLOCKS: &[Judged] = &[
    (&SQUARES, block!(1({0;});), true, true),
    (&SQUARES, block!(1({});), false, true),
    (&SQUARES, block!(1(known);), false, true),
    // What the nested block adds is not in scope behind it.
    (&SQUARES, block!(1({0;});0;), false, true),
    (&SQUARES, block!(9;), false, false),
    (&SQUARES, block!(1;), false, false),
    (&SQUARES, block!(), false, true),
    (&SQUARES_AT_X, block!(0;1(known);), true, false),
    (&TRIANGLE, block!(4({3({2;});});), true, true),
    (&TRIANGLE, block!(4({3({1;});});), false, true),
    (&TWO_OUTPUTS, block!(3({0;1;});), true, true),
    (&TWO_OUTPUTS, block!(3({0;});), false, true),
    (&TWO_OUTPUTS_AT_X, block!(0;1;3(known);), true, false),
    (&TWO_OUTPUTS_AT_X, block!(0;3(known);), false, false),
    (&TWO_OUTPUTS_AT_Y, block!(3(known);), false, true),
    (&TWO_OUTPUTS_AT_Y, block!(3({1;});), true, true),
];

fn blocks() -> &'static [Judged] {
    BLOCKS
}

// Whether the block proves the goal, and whether it is separate.
fn judged(
    checker: &mut TermChecker,
    alloc: Global,
    row: &ProblemRow<'_>,
    steps: &[StepRow<'_>],
) -> Result<(bool, bool), BuildFault> {
    let problem = build_problem(alloc, row)?;
    let block = build_block(alloc, steps)?;
    let proves = checker.check(&problem, &block);
    Ok((proves, checker.separate(&problem, &block)))
}

#[test]
fn blocks_are_judged(rt: HostRuntime) -> Result<(), Fail> {
    let alloc = rt.alloc();
    let mut checker = TermChecker::new(alloc, 6)?;
    for (i, (row, steps, proves, separate)) in blocks().iter().enumerate() {
        let found = judged(&mut checker, alloc, row, steps)?;
        assert_eq!(rt; found, (*proves, *separate), "block {i}");
    }
    Ok(())
}

/// A problem, worlds, and whether they are a countermodel.
type Refuted = (
    &'static ProblemRow<'static>,
    &'static [&'static [u32]],
    bool,
);

const WORLDS: &[Refuted] = &[
    (&PEIRCE, &[&[0], &[]], true),
    (&PEIRCE, &[&[0], &[0], &[], &[]], true),
    (&PEIRCE, &[&[]], false),
    (&PEIRCE, &[], false),
    (&PEIRCE, &[&[0]], false),
    // The last world is the root.
    (&PEIRCE, &[&[], &[0]], false),
    (&PEIRCE, &[&[0, 1], &[]], false),
    // No variable has the number 2.
    (&PEIRCE, &[&[0, 2], &[]], false),
    (&PEIRCE_OF_TWO, &[&[0, 1], &[]], true),
    (&PEIRCE_OF_TWO, &[&[0, 1, 2], &[]], false),
    (&NO_SQUARE, &[&[0, 2], &[2]], true),
    (&NO_SQUARE, &[&[2]], false),
    // n is given.
    (&NO_SQUARE, &[&[0], &[]], false),
    (&SQUARES, &[&[2]], false),
    (&ONE_OF_TWO, &[&[0, 1, 3], &[3]], true),
    (&SAME_SUBTASK, &[&[0], &[]], true),
];

fn worlds() -> &'static [Refuted] {
    WORLDS
}

#[test]
fn worlds_are_judged(rt: HostRuntime) -> Result<(), Fail> {
    let alloc = rt.alloc();
    for (i, (row, worlds, refutes)) in worlds().iter().enumerate() {
        let problem = build_problem(alloc, row)?;
        let worlds = build_worlds(alloc, worlds)?;
        assert_eq!(rt; check(&problem, &worlds), *refutes, "worlds {i}");
    }
    Ok(())
}

const FAULTS: &[(ProblemRow<'static>, BuildFault)] = &[
    (
        ProblemRow {
            names: &["x", "y", "x", "t"],
            ..SQUARES
        },
        BuildFault::NameTwice,
    ),
    (
        ProblemRow {
            givens: &[2, 0, 2],
            ..SQUARES
        },
        BuildFault::GivenTwice,
    ),
    (
        ProblemRow {
            givens: &[4],
            ..SQUARES
        },
        BuildFault::UnknownGiven,
    ),
    (
        ProblemRow {
            wants: &[3, 4],
            ..SQUARES
        },
        BuildFault::UnknownWant,
    ),
    (
        ProblemRow {
            statements: &[statement!([0 => ], 2 => 3)],
            ..SQUARES
        },
        BuildFault::BadStatement,
    ),
];

fn faults() -> &'static [(ProblemRow<'static>, BuildFault)] {
    FAULTS
}

fn fault_of(alloc: Global, row: &ProblemRow<'_>) -> Option<BuildFault> {
    match build_problem(alloc, row) {
        Ok(_) => None,
        Err(fault) => Some(fault),
    }
}

#[test]
fn faults_are_named(rt: HostRuntime) -> Result<(), Fail> {
    let alloc = rt.alloc();
    for (i, (row, expected)) in faults().iter().enumerate() {
        assert_eq!(rt; fault_of(alloc, row), Some(*expected), "problem {i}");
    }
    Ok(())
}

fn squares() -> &'static ProblemRow<'static> {
    &SQUARES
}

#[test]
fn a_statement_is_ready_once_its_inputs_are_known(rt: HostRuntime) -> Result<(), Fail> {
    let alloc = rt.alloc();
    let problem = build_problem(alloc, squares())?;
    assert_eq!(rt; problem.vars(), 4);
    let mut closure = Closure::new(alloc, &problem)?;
    assert_eq!(rt; closure.next(), None);
    closure.learn(Var(0));
    assert_eq!(rt; closure.next(), Some(0));
    closure.learn(Var(1));
    assert_eq!(rt; closure.next(), None);
    Ok(())
}

#[test]
fn equations_are_kept(rt: HostRuntime) -> Result<(), Fail> {
    let mut p = Problem::new(rt.alloc());
    p.add_var("x")?;
    p.add_equation(Equation {
        left: Body::Input(0),
        right: Body::Input(0),
    })?;
    assert_eq!(rt; p.equations().len(), 1);
    Ok(())
}
