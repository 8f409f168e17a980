use crate::Body;
use std::marker::Model;

/// An equation between variables. Contracts see its sides as plain trees.
///
/// A side has numbers, variables, minus signs and operators alone: no `Local`, `If`, loop or `Call`. `Input(v)` stands
/// for variable v.
#[derive(Drop)]
pub struct Equation {
    pub left: Body,
    pub right: Body,
}

impl Model for Equation {
    ghost use Rattle.body_lang.specs.Equations.{Sides};
    ghost use Rattle.body_lang.specs.steps.Coding.{coded_sides};
    ghost use Rattle.body_lang.specs.View.{body_tree};

    ghost Value = { Sides };

    ghost coded = { coded_sides };

    ghost view = { λ e. record { left = body_tree e.left; right = body_tree e.right } };
}
