use crate::Subtask;
use body_lang::Body;
use priz_base::Var;
use sqlite_items::Items;
use std::marker::Model;

/// The output can be computed from the inputs and from programs for the subtasks, and the body says how, if one was
/// written: it takes the inputs by their places, and calls the subtasks by theirs.
///
/// Contracts see its body as a plain tree.
#[derive(Drop)]
pub struct Statement {
    pub inputs: Items<Var>,
    pub subs: Items<Subtask>,
    pub output: Var,
    pub body: Option<Body>,
}

impl Model for Statement {
    ghost use Rattle.std.specs.Coded.{codes};
    ghost use Rattle.std.specs.Option.{option_map};
    ghost use Rattle.body_lang.specs.View.{body_tree};
    ghost use Rattle.body_lang.specs.steps.Coding.{coded_body};
    ghost use Rattle.statement_set.specs.StatementTree.{StatementTree};

    ghost Value = { StatementTree };

    ghost coded = { Prim.hlevel (codes, coded_body) };

    ghost view = { λ s. record { inputs = s.inputs; subs = s.subs; output = s.output; body = option_map body_tree s.body } };
}
