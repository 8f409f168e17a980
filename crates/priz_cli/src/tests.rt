// Whole runs: what is written, with which status.
ghost use Rattle.std.specs.Prelude.{◌≤◌};

use crate::outcome::status;
use crate::top::{priz, run};
use priz_base::{MAX_INPUT, MemSink, MemSource, StdSource, SureSource};
use std::alloc::Global;
use std::io;
use std::io::Read;
use std::process::Abort;
use std::test::Fail;

const ASKED: &[u8] =
    b"concept m : ( var a, b : numeric; rel r : a -> b; ); compute m : ( given a; find b );";

const SOLVED: &str = "compute 1: program separate\nproof {0;}\nno number: a\n";

/// A reader that always fails.
#[derive(Drop)]
struct Broken;

impl Read for Broken {
    fn read(&mut self, _into: &mut [u8]) -> io::Result<usize> {
        Err(io::Error::other("broken"))
    }
}

fn words_of(alloc: Global, mode: &str) -> Result<Vec<String>, Fail> {
    let mut words = Vec::new(alloc);
    words.push(String::from_str(alloc, "priz")?)?;
    words.push(String::from_str(alloc, mode)?)?;
    Ok(words)
}

#[test]
fn writes_a_report(rt: HostRuntime) -> Result<(), Fail> {
    let alloc = rt.alloc();
    let model = "concept m : ( var a, b : numeric; rel r : a -> b; );";
    let refused = "compute 1: no program\nworlds 0\n";
    let both =
        "compute 1: program separate\nproof {0;}\nno number: a\ncompute 2: no program\nworlds 0\n";
    let no_body = "compute 1: program separate\nproof {0;}\nno body: statement 0\n";
    for (concept, computes, want) in [
        (model, "compute m : ( given a; find b );", SOLVED),
        (model, "compute m : ( given a; find b ); # b", SOLVED),
        (model, "compute m : ( find b );", refused),
        (
            model,
            "compute m : ( given a; find b ); compute m : ( find b );",
            both,
        ),
        (
            "concept m : ( var a : numeric; rel r : -> a; );",
            "compute m : ( find a );",
            no_body,
        ),
        (model, "", ""),
        ("", "", ""),
    ] {
        let text = format!(in alloc; "{concept}{computes}")?;
        let mut source = SureSource::new(text.as_bytes(), 7);
        let mut sink = MemSink::new(alloc, 100, 10, &[]).expect(&rt, "room");
        let outcome = run(alloc, &words_of(alloc, "solve")?, &mut source, &mut sink);
        assert_eq!(rt; status(&outcome), 0, "{text}");
        assert_eq!(rt; sink.written(), want.as_bytes(), "{text}");
    }
    Ok(())
}

#[test]
fn says_why_there_is_none(rt: HostRuntime) -> Result<(), Fail> {
    let alloc = rt.alloc();
    for (text, want) in [
        ("concept m ( );", "line 1, column 11: unexpected token"),
        ("concept m : (\n)", "line 2, column 2: unexpected token"),
        ("concept é : ( ? );", "line 1, column 15: bad character"),
        (
            "concept m : ( var 1a : numeric; );",
            "line 1, column 19: bad number",
        ),
        (
            "concept m : ( 9223372036854775808 );",
            "line 1, column 15: number too wide",
        ),
        (
            "concept m : ( var a, a : numeric; );",
            "line 1, column 22: duplicate name",
        ),
        (
            "concept m : ( rel r : a -> b; );",
            "line 1, column 23: unknown path",
        ),
        (
            "compute m : ( find b );",
            "line 1, column 9: unknown concept",
        ),
        (
            "concept c : ( eq z = 1; var a : numeric );",
            "line 1, column 41: unexpected token",
        ),
        // Forms that are read, and not built yet, come behind all faults of the text.
        (
            "concept c : ( ); concept d is c : ( );",
            "line 1, column 28: unexpected token",
        ),
        (
            "concept c : ( ); concept d : ( var a : c; );",
            "line 1, column 40: unexpected token",
        ),
        (
            "concept c : ( var a : numeric; eq b = a; );",
            "line 1, column 32: unexpected token",
        ),
        (
            "concept c : ( rel r : [a -> b] -> c; );",
            "line 1, column 23: unexpected token",
        ),
        (
            "concept c : ( var a, b : numeric; rel r : a -> b { $1(a) }; );",
            "line 1, column 52: unexpected token",
        ),
        (
            "concept c : ( var a, b : numeric; rel r : [a -> b] -> b { $1(a) }; );",
            "line 1, column 43: unexpected token",
        ),
        // Bodies.
        (
            "concept c : ( var a, b, s : numeric; rel r : a -> b { a + c }; );",
            "line 1, column 59: unknown path",
        ),
        (
            "concept c : ( var a, b, s : numeric; rel r : a -> b { sum(s, 1, a, s) }; );",
            "line 1, column 59: shadowed name",
        ),
        // The rules of unfolding come behind those of concepts, and before the first answer.
        (
            "concept m : ( var a : numeric; );\ncompute m : ( find a );\ncompute m : ( given a, a; find a );",
            "line 3, column 24: duplicate input",
        ),
        (
            "concept m : ( var a : numeric; );\ncompute m : ( given a, a; find a );\ncompute m : ( find c );",
            "line 3, column 20: unknown path",
        ),
    ] {
        let line = format!(in alloc; "priz: {want}\n")?;
        let mut source = SureSource::new(text.as_bytes(), 7);
        let mut sink = MemSink::new(alloc, 100, 10, &[]).expect(&rt, "room");
        let outcome = run(alloc, &words_of(alloc, "solve")?, &mut source, &mut sink);
        assert_eq!(rt; status(&outcome), 3, "{text}");
        assert_eq!(rt; sink.written(), line.as_bytes(), "{text}");
    }
    Ok(())
}

#[test]
fn says_that_an_expression_is_nested_too_deep(rt: HostRuntime) -> Result<(), Fail> {
    let alloc = rt.alloc();
    let mut text = String::from_str(alloc, "concept c : ( eq a = ")?;
    for _ in 0..63 {
        text.push('(')?;
    }
    text.push_str("a + 1")?;
    let mut source = SureSource::new(text.as_bytes(), 7);
    let mut sink = MemSink::new(alloc, 100, 10, &[]).expect(&rt, "room");
    let outcome = run(alloc, &words_of(alloc, "solve")?, &mut source, &mut sink);
    assert_eq!(rt; status(&outcome), 3);
    assert_eq!(rt;
        sink.written(),
        b"priz: line 1, column 87: nesting too deep\n".as_slice()
    );
    Ok(())
}

#[test]
fn says_what_is_wrong_with_the_bytes(rt: HostRuntime) -> Result<(), Fail> {
    let alloc = rt.alloc();
    let mut full = Vec::from_slice(alloc, ASKED)?;
    for _ in ASKED.len()..MAX_INPUT {
        full.push(b' ')?;
    }
    let mut more = full.clone()?;
    more.push(b' ')?;
    let mut broken = Vec::from_slice(alloc, ASKED)?;
    broken.insert(7, 255)?;
    let usage = "priz: usage: priz MODE [COUNT] [--budget N] [--turns N] [--explain] [--code]\n";
    for (mode, bytes, ended, want) in [
        ("draw", &broken, 2, usage),
        ("solve", &broken, 3, "priz: byte 7: not UTF-8\n"),
        ("solve", &more, 7, "priz: input too long\n"),
        ("solve", &full, 0, SOLVED),
    ] {
        let mut source = SureSource::new(bytes, 5000);
        let mut sink = MemSink::new(alloc, 100, 100, &[]).expect(&rt, "room");
        let outcome = run(alloc, &words_of(alloc, mode)?, &mut source, &mut sink);
        assert_eq!(rt; status(&outcome), ended, "{want}");
        assert_eq!(rt; sink.written(), want.as_bytes());
    }
    Ok(())
}

#[test]
fn says_that_the_reader_failed(rt: HostRuntime) -> Result<(), Fail> {
    let alloc = rt.alloc();
    let words = words_of(alloc, "solve")?;
    let mut sink = MemSink::new(alloc, 100, 100, &[]).expect(&rt, "room");
    let outcome = run(alloc, &words, &mut StdSource::new(Broken), &mut sink);
    assert_eq!(rt; status(&outcome), 4);
    assert_eq!(rt; sink.written(), b"priz: read fault\n".as_slice());
    Ok(())
}

/// Each of the calls of the source fails in turn, and then one that isn't made.
fn fail_the_source(rt: &impl Abort, alloc: Global, most: usize, calls: u64) -> Result<(), Fail>
    requires { 1 ≤ most }
{
    let words = words_of(alloc, "solve")?;
    for call in 0..=calls {
        let fails = [call];
        let mut source = MemSource::new(ASKED, most, &fails);
        let mut sink = MemSink::new(alloc, 100, 100, &[]).expect(rt, "room");
        let outcome = priz(alloc, &words, &mut source, &mut sink);
        let (ended, want) = if call < calls { (4, "") } else { (0, SOLVED) };
        assert_eq!(*rt; status(&outcome), ended, "{most} {call}");
        assert_eq!(*rt; sink.written(), want.as_bytes(), "{most} {call}");
    }
    Ok(())
}

/// Each of the calls of the sink fails in turn, and then one that isn't made.
fn fail_the_sink(rt: &impl Abort, alloc: Global, most: usize, calls: u64) -> Result<(), Fail>
    requires { 1 ≤ most }
{
    let words = words_of(alloc, "solve")?;
    for call in 0..=calls {
        let fails = [call];
        let mut source = SureSource::new(ASKED, 100);
        let mut sink = MemSink::new(alloc, 1000, most, &fails).expect(rt, "room");
        let outcome = priz(alloc, &words, &mut source, &mut sink);
        let ended = if call < calls { 5 } else { 0 };
        let written = (call as usize).saturating_mul(most).min(SOLVED.len());
        assert_eq!(*rt; status(&outcome), ended, "{most} {call}");
        assert_eq!(*rt; sink.written().len(), written, "{most} {call}");
        assert!(*rt;
            SOLVED.as_bytes().starts_with(sink.written()),
            "{most} {call}"
        );
    }
    Ok(())
}

#[test]
fn says_that_a_call_failed(rt: HostRuntime) -> Result<(), Fail> {
    let alloc = rt.alloc();
    // The text has 85 bytes, and one more call finds its end. The report has 52 bytes.
    fail_the_source(&rt, alloc, 1, 86)?;
    fail_the_source(&rt, alloc, 10, 10)?;
    fail_the_sink(&rt, alloc, 1, 52)?;
    fail_the_sink(&rt, alloc, 10, 6)
}
