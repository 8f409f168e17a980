// Texts at the limits on what a file may have.
use crate::tests_rules::{broken, refusal};
use concept_rules::{Limit, Rule};
use std::alloc::{AllocError, Global};
use std::test::Fail;

/// A head, so many lines with their numbers between a front and a back, and an end.
fn lines(
    alloc: Global,
    count: u32,
    head: &str,
    front: &str,
    back: &str,
    end: &str,
) -> Result<String, AllocError> {
    let mut text = String::from_str(alloc, head)?;
    for i in 0..count {
        let line = format!(in alloc; "{front}{i}{back}\n")?;
        text.push_str(line.as_str())?;
    }
    text.push_str(end)?;
    Ok(text)
}

#[test]
fn keeps_the_limits(rt: HostRuntime) -> Result<(), Fail> {
    let alloc = rt.alloc();
    for (head, front, back, end, most, limit, at, line) in [
        (
            "",
            "concept c",
            " : ( );",
            "",
            1024,
            Limit::Concepts,
            20402,
            1025,
        ),
        (
            "concept m : ( var a : numeric; );\n",
            "compute m : (# ",
            "\nfind a );",
            "",
            64,
            Limit::Computes,
            1824,
            130,
        ),
        (
            "concept m : (\n",
            "var v",
            " : numeric;",
            ");\ncompute m : ( find v0 );\n",
            1024,
            Limit::Variables,
            20440,
            1028,
        ),
        (
            "concept m : (\nvar v0 : numeric;\n",
            "rel r",
            " : -> v0;",
            ");\ncompute m : ( find v0 );\n",
            4096,
            Limit::Statements,
            76776,
            4101,
        ),
    ] {
        let fits = lines(alloc, most, head, front, back, end)?;
        assert_eq!(rt; refusal(alloc, &fits), None);
        let more = lines(alloc, most.saturating_add(1), head, front, back, end)?;
        assert_eq!(rt;
            refusal(alloc, &more),
            broken(Rule::TooMany(limit), at, line, 9)
        );
    }
    Ok(())
}
