//! Arithmetic, with the faults of runs.
ghost use Rattle.std.specs.Prelude.{◌≡◌, ◌≤◌, ◌<◌, ◌↔◌, pos, ◌+ℤ◌, unsigned_abs, IsTrue};
ghost use Rattle.priz_frac.specs.Narrow.{widest};
ghost use Rattle.body_lang.specs.Precision.{narrowly};
ghost use Rattle.body_lang.specs.Values.{value_at};
ghost use Rattle.priz_frac.specs.Whole.{whole};
ghost use Rattle.body_lang.specs.Operation.{operate, holds, run_fault};
ghost use Rattle.body_lang.specs.Rounds.{round_count};

use body_lang::{Cmp, Op, RunFault};
use priz_frac::{Frac, FracFault};

/// The value of this number, or 0 where there is none.
pub(crate) fn value_at(values: &[Frac], i: u32) -> Frac
    ensures { result ≡ value_at values.now i }
{
    match values.get(i as usize) {
        Some(value) => *value,
        None => Frac::from_whole(0),
    }
}

pub(crate) fn operate(op: Op, x: Frac, y: Frac) -> Result<Frac, FracFault>
    ensures { result ≡ operate narrowly op x y }
{
    match op {
        Op::Add => x.add(y),
        Op::Sub => x.sub(y),
        Op::Mul => x.mul(y),
        Op::Div => x.div(y),
    }
}

pub(crate) fn run_fault(fault: FracFault) -> RunFault
    ensures { result ≡ run_fault fault }
{
    match fault {
        FracFault::Width => RunFault::Width,
        FracFault::ZeroDivisor => RunFault::ZeroDivisor,
    }
}

pub(crate) fn holds(cmp: Cmp, x: Frac, y: Frac) -> bool
    ensures { result ≡ holds cmp x y }
{
    let order = x.cmp(y);
    match cmp {
        Cmp::Less => order.is_lt(),
        Cmp::AtMost => order.is_le(),
        Cmp::Same => order.is_eq(),
    }
}

pub(crate) fn is_whole(x: Frac) -> bool
    ensures { IsTrue result ↔ (x.den ≡ 1) }
{
    x.den() == 1
}

/// How many whole numbers there are between two.
pub(crate) fn round_count(first: Frac, second: Frac) -> u64
    ensures { result ≡ round_count first.num second.num }
{
    let from = first.num();
    let to = second.num();
    if to < from {
        0
    } else {
        (to as i128 - from as i128) as u64 + 1
    }
}

/// The k-th of them, from 0.
pub(crate) fn round_value(first: Frac, second: Frac, k: u64) -> Frac
    requires { k < round_count first.num second.num }
    ensures { result ≡ whole (first.num +ℤ pos k) }
{
    // The last of them fits, and so each before it.
    let _ = second.num();
    Frac::from_whole((first.num() as i128 + k as i128) as i64)
}
