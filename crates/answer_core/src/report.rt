#![tactic(auto, using(priz_base::proofs::Kept::kept))]

ghost use Rattle.std.specs.Prelude.{◌≡◌, ◌≤◌, [], ◌∷◌, ◌++◌, length};
ghost use Rattle.priz_base.specs.Printing.{Prints};
ghost use Rattle.answer_core.specs.declared.effort.Effort.{Effort};
ghost use Rattle.answer_core.specs.Answers.{IsAnswer};
ghost use Rattle.answer_core.specs.Report.{head_text, value_line, value_lines, fault_line, values_text, answer_text};
ghost use Rattle.answer_core.specs.steps.Named.{HasNames};

use crate::wording::{fault_text, separate_text};
use crate::{Answer, Values};
use body_lang::RunFault;
use cert_text::{write_proof, write_worlds};
use itoa::Buffer;
use priz_base::NoMem;
use priz_frac::Frac;
use statement_set::Problem;
use utopist_syntax::print_fraction;

/// Appends the lines that report an answer. `index` is the number of the compute statement, from 1.
pub fn render(
    problem: &Problem,
    index: u32,
    answer: &Answer,
    out: &mut Vec<u8>,
) -> Result<(), NoMem>
    requires index { 1 ≤ index }
    requires answer { (effort : Effort) × IsAnswer problem.now effort answer.now }
    ensures { Prints (answer_text problem.now index answer.now) result out.old.items out.new.items }
{
    problem.is_well_formed();
    write_head(index, out)?;
    match answer {
        Answer::Program {
            block,
            separate,
            values,
        } => {
            out.extend_from_slice(separate_text(*separate))?;
            write_proof(block, out)?;
            write_values(problem, values, out)?;
        }
        Answer::NoProgram { worlds } => {
            out.extend_from_slice(b"no program\n")?;
            write_worlds(problem.vars(), worlds, out)?;
        }
    }
    Ok(())
}

fn write_head(index: u32, out: &mut Vec<u8>) -> Result<(), NoMem>
    ensures { Prints (head_text index) result out.old.items out.new.items }
{
    out.extend_from_slice(b"compute ")?;
    out.extend_from_slice(Buffer::new().format(index).as_bytes())?;
    out.extend_from_slice(b": ")?;
    Ok(())
}

fn write_values(problem: &Problem, values: &Values, out: &mut Vec<u8>) -> Result<(), NoMem>
    requires { HasNames problem.now values.now }
    ensures { Prints (values_text problem.now values.now) result out.old.items out.new.items }
{
    match values {
        Values::All(values) => write_all_values(problem, values.as_slice(), out),
        Values::Fault { stmt, kind } => write_fault(*stmt, *kind, out),
        Values::NoNumber(var) => write_line(b"no number: ", problem.name(*var).as_bytes(), out),
        Values::NoBody(stmt) => {
            let mut digits = Buffer::new();
            write_line(b"no body: statement ", digits.format(*stmt).as_bytes(), out)
        }
    }
}

fn write_all_values(problem: &Problem, values: &[Frac], out: &mut Vec<u8>) -> Result<(), NoMem>
    requires { length values.now ≡ length problem.now.wants }
    ensures { Prints (value_lines problem.now problem.now.wants values.now) result
        out.old.items out.new.items }
{
    for (i, want) in problem.wants().iter().enumerate() {
        write_value(problem.name(*want), values[i], out)?;
    }
    Ok(())
}

fn write_value(name: &str, value: Frac, out: &mut Vec<u8>) -> Result<(), NoMem>
    ensures { Prints (value_line name.now value) result out.old.items out.new.items }
{
    out.extend_from_slice(name.as_bytes())?;
    out.extend_from_slice(b" = ")?;
    print_fraction(value, out)?;
    out.push(b'\n')?;
    Ok(())
}

fn write_fault(stmt: u32, kind: RunFault, out: &mut Vec<u8>) -> Result<(), NoMem>
    ensures { Prints (fault_line stmt kind) result out.old.items out.new.items }
{
    out.extend_from_slice(b"fault: statement ")?;
    out.extend_from_slice(Buffer::new().format(stmt).as_bytes())?;
    write_line(b": ", fault_text(kind), out)?;
    Ok(())
}

fn write_line(front: &[u8], back: &[u8], out: &mut Vec<u8>) -> Result<(), NoMem>
    ensures { Prints (front.now ++ (back.now ++ 10 ∷ [])) result out.old.items out.new.items }
{
    out.extend_from_slice(front)?;
    out.extend_from_slice(back)?;
    out.push(b'\n')?;
    Ok(())
}
