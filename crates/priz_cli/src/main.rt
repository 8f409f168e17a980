//! `priz`: answers the compute statements of a file of concepts, by programs with their proofs or by countermodels.
#![tactic(auto)]

mod fault;
mod make;
mod message;
mod order;
mod outcome;
mod refusal;
mod solve;
#[cfg(test)]
mod tests;
#[cfg(test)]
mod tests_numbers;
mod top;
mod wording;
mod words;

use priz_base::{StdSink, StdSource};
use std::env;
use std::process::ExitCode;

fn main(rt: HostRuntime) -> ExitCode {
    let Ok(args) = env::args(&rt) else {
        return ExitCode::from(8);
    };
    let Ok(words) = args.collect::<Vec<String>>(rt.alloc()) else {
        return ExitCode::from(8);
    };
    let mut source = StdSource::new(rt.stdin());
    let mut sink = StdSink::new(rt.stdout());
    let outcome = top::run(rt.alloc(), &words, &mut source, &mut sink);
    ExitCode::from(outcome::status(&outcome))
}
