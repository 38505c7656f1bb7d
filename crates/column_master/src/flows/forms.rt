//! The forms in which a solution may show a need.

ghost use Rattle.std.specs.Prelude.{◌≤◌};

use super::Solved;
use super::exact::exact_takings;
use super::margins::takings_with_margin;
use super::takings::{Takings, plain_takings};
use crate::relaxation::Relaxation;
use arc_num::Memory;
use flow_graph::FlowGraph;
use flow_model::FlowBox;
use simplex_basis::POINT;
use std::alloc::Global;

/// How the columns of a solution are taken.
#[derive(Clone, Copy, Debug, PartialEq, Eq)]
pub(super) enum Form {
    /// As often as exact fractions say.
    Exact,
    /// So that the rows are kept with a margin.
    Margin(Margin),
    /// At their levels.
    Plain,
}

/// By how much the right sides of rows are moved.
#[derive(Clone, Copy, Debug, PartialEq, Eq)]
pub(super) enum Margin {
    /// 2^-20.
    Wide,
    /// 2^-28.
    Middling,
    /// 2^-36.
    Narrow,
    /// 2^-44.
    Slight,
}

/// The forms in the order in which they are tried.
pub(super) const FORMS: [Form; 6] = [
    Form::Exact,
    Form::Margin(Margin::Wide),
    Form::Margin(Margin::Middling),
    Form::Margin(Margin::Narrow),
    Form::Margin(Margin::Slight),
    Form::Plain,
];

impl Margin {
    /// The bits that a move of 1 is shifted by.
    pub(super) fn bits(self) -> u32
        ensures { result ≤ 44 }
    {
        match self {
            Margin::Wide => 20,
            Margin::Middling => 28,
            Margin::Narrow => 36,
            Margin::Slight => 44,
        }
    }

    /// The bits of the scale, which leave room below the margin.
    pub(super) fn grain(self) -> u32
        ensures { result ≤ 60 }
    {
        match self {
            Margin::Wide | Margin::Middling => 40,
            Margin::Narrow => 48,
            Margin::Slight => 56,
        }
    }
}

/// The columns of a solution in one form, if they have it.
pub(super) fn takings_in(
    alloc: Global,
    graph: &FlowGraph,
    solved: Solved<'_>,
    ranges: &FlowBox,
    form: Form,
) -> Result<Option<Takings>, Memory> {
    let Solved { pool, relaxation } = solved;
    match form {
        Form::Exact => exact_takings(alloc, relaxation),
        Form::Margin(margin) => {
            let takings = takings_with_margin(alloc, graph, pool, relaxation, ranges, margin)?;
            Ok(Some(takings))
        }
        Form::Plain => Ok(Some(plain_takings(alloc, relaxation)?)),
    }
}

/// Whether no form can show a need for the goal: there is no solution, or it costs too much by more than rounding does.
pub(super) fn is_hopeless(relaxation: &Relaxation, goal: Option<u64>) -> bool {
    if !relaxation.is_feasible() {
        return true;
    }
    match (goal, relaxation.value()) {
        (Some(goal), Some(value)) => {
            let most = i128::from(goal).saturating_sub(1) << POINT;
            value.saturating_sub(value >> 20) > most
        }
        _ => false,
    }
}
