// The problems of texts.
use crate::problems_of;
use sqlite_items::Items;
use statement_set::Problem;
use std::alloc::{AllocError, Global};
use std::process::Abort;
use std::test::Fail;

/// The problems of a short text that has some.
fn problems(rt: &impl Abort, alloc: Global, text: &str) -> Items<Problem> {
    assert!(*rt; text.len() < 1000);
    problems_of(alloc, text).expect(rt, "it is accepted")
}

/// The variables of each list of a problem, in order: inputs and output of each statement, givens, wants.
fn numbers_of(alloc: Global, problem: &Problem) -> Result<Vec<u32>, AllocError> {
    let mut numbers = Vec::new(alloc);
    for s in 0..problem.statements() {
        for var in problem.inputs(s) {
            numbers.push(var.0)?;
        }
        numbers.push(problem.output(s).0)?;
    }
    for given in problem.givens() {
        numbers.push(given.var.0)?;
    }
    for want in problem.wants() {
        numbers.push(want.0)?;
    }
    Ok(numbers)
}

const TWO: &str = "concept m : ( var a, b : numeric; var c : numeric; rel r : a, b, a -> c; );
concept n : ( var c, a : numeric; rel r : c -> a; );
compute n : ( given c; find a );
compute m : ( given b, a; find c, c );
";

#[test]
fn each_compute_statement_has_its_problem(rt: HostRuntime) -> Result<(), Fail> {
    let alloc = rt.alloc();
    let problems = problems(&rt, alloc, TWO);
    let [first, second] = problems.as_slice() else {
        panic!(rt; "two are asked")
    };
    let numbers = numbers_of(alloc, first)?;
    assert_eq!(rt; numbers.as_slice(), [0, 1, 0, 1].as_slice());
    let numbers = numbers_of(alloc, second)?;
    assert_eq!(rt; numbers.as_slice(), [0, 1, 0, 2, 1, 0, 2, 2].as_slice());
    Ok(())
}

#[test]
fn bodies_and_values_are_taken_over(rt: HostRuntime) -> Result<(), Fail> {
    let alloc = rt.alloc();
    for body in [
        "a + b / 2",
        "sum(i, 1, 2, i) + prod(i, a, b, -i * i)",
        "sum(i, 1, 3, sum(j, i, 2 * i, j - i))",
        "iter(c, a, 3, if c < b then c * c else c)",
    ] {
        let text = format!(in alloc;
            "concept m : ( var a, b, x : numeric; rel r : a, b -> x {{ {body} }}; rel s : a -> x; ); compute m : ( given a = -3/6, b; find x );"
        )?;
        let problems = problems(&rt, alloc, &text);
        let [problem] = problems.as_slice() else {
            panic!(rt; "one is asked")
        };
        assert!(rt; problem.statements() == 2);
        assert!(rt; problem.body(0).is_some() && problem.body(1).is_none());
        let [a, b] = problem.givens() else {
            panic!(rt; "two are given")
        };
        let value = a.value.expect(&rt, "a has a value");
        assert_eq!(rt; (value.num(), value.den()), (-1, 2));
        assert!(rt; b.value.is_none());
    }
    Ok(())
}
