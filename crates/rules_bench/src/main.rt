//! Checks the rules of concepts on the file of standard input, for the times of `bench/times`.
#![tactic(auto)]

ghost use Rattle.std.specs.Prelude.{◌≡◌, ◌≤◌, length};
ghost use Rattle.priz_base.specs.Reading.{max_input};
ghost use Rattle.rules_bench.specs.Status.{KeepsRules, BreaksRule};

use concept_rules::{UnfoldFault, check_concepts};
use priz_base::{StdSource, read_all};
use std::alloc::Global;
use std::process::ExitCode;
use std::str;
use utopist_parser::parse;

fn main(rt: HostRuntime) -> ExitCode {
    let mut source = StdSource::new(rt.stdin());
    match read_all(rt.alloc(), &mut source) {
        Ok(bytes) => ExitCode::from(status(rt.alloc(), bytes.as_slice())),
        Err(_) => ExitCode::from(8),
    }
}

// 0 where all rules hold, 3 where one fails, 6 where memory is wanted, and 2 where there is no file.
fn status(alloc: Global, bytes: &[u8]) -> u8
    requires few { length bytes.now ≤ max_input }
    ensures keeps { result ≡ 0 → KeepsRules bytes.now }
    ensures breaks { result ≡ 3 → BreaksRule bytes.now }
{
    let Ok(text) = str::from_utf8(bytes) else {
        return 2;
    };
    let Ok(file) = parse(alloc, text) else {
        return 2;
    };
    match check_concepts(alloc, &file) {
        Ok(_) => 0,
        Err(UnfoldFault::Model(_)) => 3,
        Err(UnfoldFault::NoMem) => 6,
    }
}
