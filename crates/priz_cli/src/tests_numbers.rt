// What programs compute, and what the words ask for.
use crate::outcome::status;
use crate::top::priz;
use priz_base::{MemSink, MemSource, SureSource};
use std::alloc::Global;
use std::process::Abort;
use std::test::Fail;

/// A loop of three rounds, which takes four turns.
const LOOP: &str =
    "concept l : ( var a, b : numeric; rel r : a -> b { sum(i, 1, a, i) }; ); compute l : ( given a = 3; find b );";

fn words_of(alloc: Global, words: &[&str]) -> Result<Vec<String>, Fail> {
    let mut all = Vec::new(alloc);
    for word in words {
        all.push(String::from_str(alloc, word)?)?;
    }
    Ok(all)
}

/// The words ask for the answer, and it is written whole.
fn answer(
    rt: &impl Abort,
    alloc: Global,
    words: &[&str],
    text: &str,
    want: &str,
) -> Result<(), Fail> {
    let mut source = SureSource::new(text.as_bytes(), 50);
    let mut sink = MemSink::new(alloc, 200, 200, &[]).expect(rt, "room");
    let outcome = priz(alloc, &words_of(alloc, words)?, &mut source, &mut sink);
    assert_eq!(*rt; status(&outcome), 0, "{words:?} {text}");
    assert_eq!(*rt; sink.written(), want.as_bytes(), "{words:?} {text}");
    Ok(())
}

/// A source whose first call fails shows that none is made.
fn refuse(rt: &impl Abort, alloc: Global, words: &[&str]) -> Result<(), Fail> {
    let mut source = MemSource::new(LOOP.as_bytes(), 50, &[0]);
    let mut sink = MemSink::new(alloc, 200, 200, &[]).expect(rt, "room");
    let outcome = priz(alloc, &words_of(alloc, words)?, &mut source, &mut sink);
    assert_eq!(*rt; status(&outcome), 2, "{words:?}");
    assert_eq!(*rt; sink.written(), b"".as_slice(), "{words:?}");
    Ok(())
}

#[test]
fn computes_values(rt: HostRuntime) -> Result<(), Fail> {
    let alloc = rt.alloc();
    for (body, number, want) in [
        ("a + 1", "9223372036854775807", "fault: statement 0: width"),
        ("a + a", "9223372036854775807/2", "b = 9223372036854775807"),
        ("iter(x, 1, a, x * 2)", "3", "b = 8"),
        ("iter(x, 1, a, x * 2)", "0", "b = 1"),
        (
            "iter(x, 1, a, x * 2)",
            "-1",
            "fault: statement 0: negative bound",
        ),
        (
            "iter(x, 1, a, x * 2)",
            "1/2",
            "fault: statement 0: not whole",
        ),
        ("sum(i, 1, a, i)", "3", "b = 6"),
        ("sum(i, 1, a, i)", "1/2", "fault: statement 0: not whole"),
        ("sum(i, 3, 2, i)", "-7", "b = 0"),
        ("prod(i, 3, 2, i)", "-7", "b = 1"),
        ("prod(i, 2, a, i)", "4", "b = 24"),
        ("sum(i, 1, a, sum(j, 1, i, i * j))", "3", "b = 25"),
        ("1 / a", "0", "fault: statement 0: zero divisor"),
        ("1 / a", "-2/6", "b = -3"),
        ("-a / 3", "2", "b = -2/3"),
        ("if a < 1 then a else 1 / 0", "1/2", "b = 1/2"),
        (
            "if a <= 1 then a else 1 / 0",
            "3/2",
            "fault: statement 0: zero divisor",
        ),
        ("if a = 2/4 then 5 else 6", "1/2", "b = 5"),
        ("iter(x, 0, 1000000, x)", "1", "fault: statement 0: turns"),
        ("iter(x, 0, 999999, x)", "1", "b = 0"),
    ] {
        let text = format!(in alloc;
            "concept w : ( var a, b : numeric; rel r : a -> b {{ {body} }}; ); compute w : ( given a = {number}; find b );"
        )?;
        let report = format!(in alloc; "compute 1: program separate\nproof {{0;}}\n{want}\n")?;
        answer(&rt, alloc, &["priz", "solve"], &text, &report)?;
    }
    Ok(())
}

#[test]
fn says_what_a_run_lacks(rt: HostRuntime) -> Result<(), Fail> {
    let alloc = rt.alloc();
    let model =
        "concept m : ( var a, b, c, d : numeric; rel r : a -> b { a / 3 }; rel s : b, c -> d; );";
    for (compute, want) in [
        ("given a = 2/4; find a", "proof {}\na = 1/2\n"),
        (
            "given a = 4; find b, a, b",
            "proof {0;}\nb = 4/3\na = 4\nb = 4/3\n",
        ),
        ("given c, a, b; find d", "proof {1;}\nno number: c\n"),
        ("given a = 1, c, b; find d", "proof {1;}\nno number: c\n"),
        (
            "given a = 1, c = 2; find d",
            "proof {0;1;}\nno body: statement 1\n",
        ),
    ] {
        let text = format!(in alloc; "{model} compute m : ( {compute} );")?;
        let report = format!(in alloc; "compute 1: program separate\n{want}")?;
        answer(&rt, alloc, &["priz", "solve"], &text, &report)?;
    }
    Ok(())
}

#[test]
fn takes_the_turns_that_are_asked_for(rt: HostRuntime) -> Result<(), Fail> {
    let alloc = rt.alloc();
    let six = "compute 1: program separate\nproof {0;}\nb = 6\n";
    let ended = "compute 1: program separate\nproof {0;}\nfault: statement 0: turns\n";
    for (words, want) in [
        (["priz", "solve", "--turns", "4"].as_slice(), six),
        (["priz", "solve", "--turns", "3"].as_slice(), ended),
        (["priz", "solve", "--turns=5"].as_slice(), six),
        (["priz", "--turns=1", "solve"].as_slice(), ended),
        (["priz", "solve", "--turns", "10000000"].as_slice(), six),
        (["priz", "solve", "--turns=0000000000004"].as_slice(), six),
        (["priz", "--turns=4", "--", "solve"].as_slice(), six),
        (["", "solve"].as_slice(), six),
    ] {
        answer(&rt, alloc, words, LOOP, want)?;
    }
    Ok(())
}

#[test]
fn refuses_words_before_it_reads(rt: HostRuntime) -> Result<(), Fail> {
    let alloc = rt.alloc();
    for words in [
        ["priz", "solve", "solve"].as_slice(),
        ["priz"].as_slice(),
        ["priz", "draw"].as_slice(),
        ["priz", "gen"].as_slice(),
        ["priz", "solve", "--budget", "0"].as_slice(),
        ["priz", "solve", "--budget", "+5"].as_slice(),
        ["priz", "Solve"].as_slice(),
        ["priz", "solve", "--turns"].as_slice(),
        ["priz", "solve", "--turns="].as_slice(),
        ["priz", "solve", "--turns", "0"].as_slice(),
        ["priz", "solve", "--turns", "+5"].as_slice(),
        ["priz", "solve", "--turns", "-5"].as_slice(),
        ["priz", "solve", "--turns", "5.0"].as_slice(),
        ["priz", "solve", "--turns", "10000001"].as_slice(),
        ["priz", "solve", "--turns", "4294967301"].as_slice(),
        ["priz", "solve", "--turns=5", "--turns=5"].as_slice(),
        ["priz", "solve", "--", "--turns=5"].as_slice(),
        ["priz", "--help"].as_slice(),
        ["priz", "solve", "-V"].as_slice(),
    ] {
        refuse(&rt, alloc, words)?;
    }
    refuse(&rt, alloc, &[])
}
