// What texts have, or why they have nothing.
use crate::{FileFault, problems_of};
use concept_rules::{ModelFault, Rule};
use priz_base::Place;
use std::test::Fail;
use utopist_lexer::{LexFault, LexKind};

const MODEL: &str = "concept m : ( var a, b : numeric; rel r : a -> b; );";

#[test]
fn has_a_problem_for_each_compute_statement(rt: HostRuntime) -> Result<(), Fail> {
    let alloc = rt.alloc();
    let text = format!(in alloc;
        "{MODEL} compute m : ( given a; find b ); compute m : ( find a );"
    )?;
    let problems = problems_of(alloc, &text).expect(&rt, "no fault");
    assert_eq!(rt; problems.len(), 2);
    for (problem, (givens, want)) in problems.as_slice().iter().zip([(1, "b"), (0, "a")]) {
        assert_eq!(rt; problem.givens().len(), givens);
        assert_eq!(rt; problem.find(want), problem.wants().first().copied());
    }
    Ok(())
}

#[test]
fn names_the_first_cause(rt: HostRuntime) -> Result<(), Fail> {
    let alloc = rt.alloc();
    let place = |at: u32| Place {
        at,
        line: 1,
        col: at + 1,
    };
    for (text, want) in [
        (
            "concept ? ( eq",
            FileFault::Lex(LexFault {
                place: place(8),
                kind: LexKind::BadChar,
            }),
        ),
        ("concept c ( eq a = 1; );", FileFault::Expected(place(10))),
        // A form that isn't answered comes behind all faults of the text, and before all rules.
        ("concept c : ( eq a = 1 );", FileFault::Expected(place(23))),
        (
            "concept c : ( var a, a : numeric; eq a = 1; );",
            FileFault::Expected(place(34)),
        ),
        (
            "concept c : ( var a, a : numeric; );",
            FileFault::Model(ModelFault {
                place: place(21),
                rule: Rule::DuplicateName,
            }),
        ),
    ] {
        assert_eq!(rt; problems_of(alloc, text).err(), Some(want), "{text}");
    }
    Ok(())
}
