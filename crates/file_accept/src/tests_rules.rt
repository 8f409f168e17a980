// Texts that break each rule that can fail, and the first one that does.
use crate::{FileFault, problems_of};
use concept_rules::{ModelFault, Rule};
use priz_base::Place;
use std::alloc::Global;
use std::test::Fail;

/// Why a short text has no problems.
pub(crate) fn refusal(alloc: Global, text: &str) -> Option<FileFault> {
    if text.len() > 100_000 {
        return Some(FileFault::NoMem);
    }
    problems_of(alloc, text).err()
}

pub(crate) fn broken(rule: Rule, at: u32, line: u32, col: u32) -> Option<FileFault> {
    Some(FileFault::Model(ModelFault {
        place: Place { at, line, col },
        rule,
    }))
}

const TEXTS: [(&str, Rule, u32, u32, u32); 24] = [
    (
        "concept m : ( ); concept m : ( );",
        Rule::DuplicateName,
        25,
        1,
        26,
    ),
    (
        "concept m : ( var a, a : numeric; );",
        Rule::DuplicateName,
        21,
        1,
        22,
    ),
    (
        "concept m : ( var a : numeric; var b, a : numeric; );",
        Rule::DuplicateName,
        38,
        1,
        39,
    ),
    (
        "concept m : ( var a : numeric; rel a : -> a; );",
        Rule::DuplicateName,
        35,
        1,
        36,
    ),
    (
        "concept m : ( var a : numeric; rel r : -> a; rel r : -> a; );",
        Rule::DuplicateName,
        49,
        1,
        50,
    ),
    (
        "concept m : ( var a : numeric; rel r : -> a; var r : numeric; );",
        Rule::DuplicateName,
        49,
        1,
        50,
    ),
    (
        "concept m : ( rel r : a -> b; );",
        Rule::UnknownPath,
        22,
        1,
        23,
    ),
    (
        "concept m : ( var a : numeric; rel r : a, b, c -> a; );",
        Rule::UnknownPath,
        42,
        1,
        43,
    ),
    (
        "concept m : ( var x : numeric; rel r : x -> y; );",
        Rule::UnknownPath,
        44,
        1,
        45,
    ),
    (
        "concept m : ( var a : numeric; rel r : a.b -> a; );",
        Rule::UnknownPath,
        39,
        1,
        40,
    ),
    (
        "concept m : ( var a : numeric; ); compute m : ( given a; find a.a );",
        Rule::UnknownPath,
        62,
        1,
        63,
    ),
    (
        "concept m : ( rel r : -> a; var a : numeric; );",
        Rule::UnknownPath,
        25,
        1,
        26,
    ),
    (
        "concept m : ( var a : numeric; rel r : r -> a; );",
        Rule::UnknownPath,
        39,
        1,
        40,
    ),
    (
        "concept m : ( var a : numeric; ); concept n : ( rel r : -> a; );",
        Rule::UnknownPath,
        59,
        1,
        60,
    ),
    (
        "concept m : ( var a : numeric; ); compute n : ( given b; find a );",
        Rule::UnknownConcept,
        42,
        1,
        43,
    ),
    (
        "concept m : ( var a : numeric; ); compute m : ( given a, b; find c );",
        Rule::UnknownPath,
        57,
        1,
        58,
    ),
    (
        "concept m : ( var a : numeric; ); compute m : ( given a; find a, b );",
        Rule::UnknownPath,
        65,
        1,
        66,
    ),
    (
        "concept m : ( var a : numeric; rel r : -> a; ); compute m : ( find r );",
        Rule::UnknownPath,
        67,
        1,
        68,
    ),
    (
        "concept m : ( var a : numeric; ); concept n : ( var b : numeric; ); compute n : ( find a );",
        Rule::UnknownPath,
        87,
        1,
        88,
    ),
    (
        "concept m : ( var a, a : numeric; rel r : b -> c; ); concept m : ( ); compute n : ( find d );",
        Rule::DuplicateName,
        21,
        1,
        22,
    ),
    (
        "concept m : (\n  var é, a : numeric; # é\n  rel é : a -> c;\n);",
        Rule::DuplicateName,
        48,
        3,
        7,
    ),
    (
        "concept m : (\n  var é : numeric;\n);\ncompute m : (\n  find é,\té, è\n);",
        Rule::UnknownPath,
        66,
        5,
        14,
    ),
    (
        "concept m : ( var a, b : numeric; ); compute m : ( given a, b, a; find b );",
        Rule::DuplicateInput,
        63,
        1,
        64,
    ),
    (
        "concept m : ( var a : numeric; ); compute m : ( given a, a, a; find a );",
        Rule::DuplicateInput,
        57,
        1,
        58,
    ),
];

#[test]
fn names_the_first_rule_that_fails(rt: HostRuntime) {
    for (text, rule, at, line, col) in TEXTS {
        assert_eq!(rt;
            refusal(rt.alloc(), text),
            broken(rule, at, line, col),
            "{text}"
        );
    }
}

// Names of loops that are taken, and paths that nothing there has, each with its place in the body.
const BODIES: [(&str, Rule, u32); 23] = [
    ("sum(a, 1, 2, a)", Rule::ShadowedName, 4),
    ("sum(d, 1, 2, a)", Rule::ShadowedName, 4),
    ("sum(r, 1, 2, a)", Rule::ShadowedName, 4),
    ("sum(i, sum(i, 1, 2, 1), 2, i)", Rule::ShadowedName, 11),
    ("sum(i, 1, prod(i, 1, 2, 1), i)", Rule::ShadowedName, 15),
    ("sum(i, 1, 2, iter(i, 1, 2, i))", Rule::ShadowedName, 18),
    (
        "sum(i, 1, 2, sum(j, 1, 2, sum(i, 1, 2, j)))",
        Rule::ShadowedName,
        30,
    ),
    ("sum(a, c, 2, 1)", Rule::ShadowedName, 4),
    ("c + sum(a, 1, 2, 1)", Rule::UnknownPath, 0),
    ("sum(i, i, 2, i)", Rule::UnknownPath, 7),
    ("sum(i, 1, i, i)", Rule::UnknownPath, 10),
    ("iter(x, x, 1, x)", Rule::UnknownPath, 8),
    ("sum(i, 1, 2, 1) + i", Rule::UnknownPath, 18),
    ("sum(i, 1, 2, sum(j, 1, i, j)) + j", Rule::UnknownPath, 32),
    ("b", Rule::UnknownPath, 0),
    ("d", Rule::UnknownPath, 0),
    ("a + c", Rule::UnknownPath, 4),
    ("a * (a - -c)", Rule::UnknownPath, 10),
    ("a.b", Rule::UnknownPath, 0),
    ("if a < b then c else c", Rule::UnknownPath, 7),
    ("if a < 1 then c else d", Rule::UnknownPath, 14),
    ("if a < 1 then a else c", Rule::UnknownPath, 21),
    ("r", Rule::UnknownPath, 0),
];

#[test]
fn names_the_first_fault_of_a_body(rt: HostRuntime) -> Result<(), Fail> {
    let alloc = rt.alloc();
    let front = "concept m : ( var a, b, d : numeric; rel r : a -> b { ";
    for (body, rule, place) in BODIES {
        let text = format!(in alloc; "{front}{body} }}; var c : numeric; );")?;
        let expected = broken(rule, place.saturating_add(54), 1, place.saturating_add(55));
        assert_eq!(rt; refusal(alloc, &text), expected, "{body}");
    }
    Ok(())
}
