/// A problem: the names of its variables, its statements, what is given and what is wanted, each variable by its number.
///
/// It has no equations, no bodies and no values.
#[derive(Clone, Copy, Debug)]
pub struct ProblemRow<'a> {
    pub names: &'a [&'a str],
    pub statements: &'a [StatementRow<'a>],
    pub givens: &'a [u32],
    pub wants: &'a [u32],
}

#[derive(Clone, Copy, Debug)]
pub struct StatementRow<'a> {
    pub inputs: &'a [u32],
    pub subs: &'a [SubtaskRow<'a>],
    pub output: u32,
}

#[derive(Clone, Copy, Debug)]
pub struct SubtaskRow<'a> {
    pub inputs: &'a [u32],
    pub outputs: &'a [u32],
}
