//! Column generation.

use crate::drafts::{Draft, Shown};
use crate::passes::{Passes, Through};
use crate::relaxation::{BasicName, Relaxation};
use crate::rows::{item_rows, rows_of};
use arc_num::Memory;
pub(crate) use asking::{field_of, lay};
use column_pool::ColumnPool;
use flow_graph::FlowGraph;
use flow_model::FlowBox;
use packing_laws::Instance;
use simplex_basis::{BasisFault, ONE, POINT};
use std::alloc::Global;

mod asking;

/// How much work a solve may do: so many rounds, in each of which the graph of each type is asked once. It ends as soon as
/// its bound reaches the cut.
#[derive(Clone, Copy, Debug, PartialEq, Eq)]
pub struct Effort {
    pub rounds: u32,
    pub cut: u64,
}

/// How a solve ended.
#[derive(Clone, Copy, Debug, PartialEq, Eq)]
pub enum Ended {
    /// No path gains, or the bound is what the columns cost, rounded up.
    Solved,
    /// The bound reached the cut.
    Cut,
    /// The rows have no solution.
    Empty,
    /// The rounds ran out, or numbers left their ranges.
    Stopped,
}

/// How a solve ended, and what all solutions cost at least as far as it came. Nothing is proved of it.
#[derive(Clone, Copy, Debug, PartialEq, Eq)]
pub struct Outlook {
    pub ended: Ended,
    pub bound: u64,
}

impl Outlook {
    pub(crate) const START: Outlook = Outlook {
        ended: Ended::Stopped,
        bound: 0,
    };
}

/// The best that the rounds of a solve have shown.
#[derive(Debug, Drop)]
pub(crate) struct Progress {
    pub bound: u64,
    pub is_empty: bool,
    pub draft: Option<Draft>,
}

impl Progress {
    pub(crate) fn new() -> Progress {
        Progress {
            bound: 0,
            is_empty: false,
            draft: None,
        }
    }

    pub(crate) fn keep(&mut self, shown: Shown) {
        match shown.bound {
            None => {
                self.is_empty = true;
                self.draft = Some(shown.draft);
            }
            Some(bound) if bound > self.bound || self.draft.is_none() => {
                self.bound = bound;
                self.draft = Some(shown.draft);
            }
            Some(_) => {}
        }
    }
}

/// What one round found.
#[derive(Drop)]
struct Round {
    shown: Shown,
    /// How many columns woke.
    woken: u32,
}

/// The columns that were ever found, and room to find more.
#[derive(Drop)]
pub(crate) struct Generator {
    pub(crate) alloc: Global,
    pub(crate) pool: ColumnPool,
    pub(crate) passes: Passes,
    pub(crate) item_rows: Vec<Option<u32>>,
    /// The own price of each arc, by its number less 1; 0 between the rounds.
    pub(crate) own: Vec<i64>,
    /// In a dive the rest of the demand of each item, by number; else nothing.
    pub(crate) rest: Vec<u32>,
    /// The best path through each item, by number.
    through: Vec<Option<Through>>,
    /// A first basis.
    pub(crate) seeds: Vec<BasicName>,
    /// The columns that were awake last.
    awake: Vec<usize>,
    /// Arcs on a path of any type, at most.
    pub(crate) hops: u32,
    most_cost: u32,
}

impl Generator {
    /// A generator with the columns of a first basis.
    pub(crate) fn new(
        alloc: Global,
        instance: &Instance,
        graph: &FlowGraph,
    ) -> Result<Generator, Memory> {
        let items = instance.item_count() as usize + 1;
        let nodes = most_nodes(graph);
        let mut generator = Generator {
            alloc,
            pool: ColumnPool::new(alloc),
            passes: Passes::new(alloc, nodes)?,
            item_rows: item_rows(alloc, instance)?,
            own: vec![in alloc; 0; graph.arc_count() as usize]?,
            rest: Vec::new(alloc),
            through: vec![in alloc; None; items]?,
            seeds: Vec::new(alloc),
            awake: Vec::new(alloc),
            hops: 0,
            most_cost: most_cost(instance),
        };
        generator.count_hops(graph);
        generator.seed(alloc, instance, graph)?;
        Ok(generator)
    }

    /// Counts the arcs on the longest path.
    fn count_hops(&mut self, graph: &FlowGraph) {
        self.own.as_mut_slice().fill(1);
        for index in 0..graph.type_count() {
            let bin_type = index.saturating_add(1);
            let field = field_of(graph, bin_type, self.own.as_slice());
            let longest = self.passes.go_ahead(field, [].as_slice(), [].as_slice());
            self.hops = self.hops.max(u32::try_from(longest).unwrap_or(0));
        }
        self.own.as_mut_slice().fill(0);
    }

    /// The program of a box, started from the names of a basis, or from the first one where there are none.
    pub(crate) fn open(
        &self,
        instance: &Instance,
        graph: &FlowGraph,
        ranges: &FlowBox,
        names: &[BasicName],
    ) -> Result<Relaxation, BasisFault> {
        let rows = rows_of(self.alloc, instance, graph, ranges)?;
        let bits = price_bits(self.most_cost);
        let mut relaxation = Relaxation::new(self.alloc, graph, rows, bits, self.most_cost)?;
        for number in self.awake.as_slice() {
            let _fresh = relaxation.wake(&self.pool, *number)?;
        }
        let names = if names.is_empty() {
            self.seeds.as_slice()
        } else {
            names
        };
        relaxation.start(self.alloc, &self.pool, names)?;
        relaxation.rest(self.alloc, &self.pool)?;
        Ok(relaxation)
    }

    /// Remembers which columns are awake, for the next box.
    pub(crate) fn remember(&mut self, relaxation: &Relaxation) -> Result<(), Memory> {
        self.awake.clear();
        relaxation.push_awake(&mut self.awake)
    }

    /// Solves a program by column generation, as far as the effort goes. What was shown on the way stands in the progress,
    /// whatever the answer is.
    pub(crate) fn solve(
        &mut self,
        instance: &Instance,
        graph: &FlowGraph,
        relaxation: &mut Relaxation,
        effort: &Effort,
        progress: &mut Progress,
    ) -> Result<Ended, BasisFault> {
        self.lay_rest(instance, relaxation)?;
        if relaxation.is_dive() {
            relaxation.keep_proper(self.alloc, &self.pool, self.rest.as_slice())?;
        }
        for _ in 0..effort.rounds {
            relaxation.optimize(&self.pool)?;
            relaxation.compute_prices()?;
            let round = self.round(instance, graph, relaxation)?;
            let woken = round.woken;
            progress.keep(round.shown);
            if let Some(end) = end_shown(relaxation, progress, effort.cut) {
                return Ok(end);
            }
            if woken == 0 {
                if relaxation.is_dive() || !relaxation.sharpen() {
                    self.lift(instance, graph, relaxation, progress)?;
                    return Ok(end_without_gain(relaxation, progress, effort.cut));
                }
                relaxation.invert()?;
            }
        }
        Ok(Ended::Stopped)
    }
}

/// Whether what the rounds have shown ends the solve.
fn end_shown(relaxation: &Relaxation, progress: &Progress, cut: u64) -> Option<Ended> {
    if progress.is_empty {
        return Some(Ended::Empty);
    }
    if progress.bound >= cut {
        return Some(Ended::Cut);
    }
    if !relaxation.is_feasible() {
        return None;
    }
    let value = relaxation.value()?;
    if i128::from(progress.bound) >= rounded_up(value) {
        return Some(Ended::Solved);
    }
    None
}

fn end_without_gain(relaxation: &Relaxation, progress: &Progress, cut: u64) -> Ended {
    if progress.bound >= cut {
        Ended::Cut
    } else if relaxation.is_feasible() {
        Ended::Solved
    } else {
        Ended::Stopped
    }
}

/// A value in units of 2^-40, less what rounding may do, in whole units rounded up.
pub(crate) fn rounded_up(value: i128) -> i128 {
    let less = value.saturating_sub(value >> 30);
    less.saturating_add(i128::from(ONE) - 1) >> POINT
}

/// What the columns cost, rounded up, where rounding alone does not explain that it is above the bound; else 0.
pub(crate) fn cost_beyond(relaxation: &Relaxation, bound: u64) -> u64 {
    match relaxation.value() {
        Some(value) if relaxation.is_feasible() && rounded_up(value) > i128::from(bound) => {
            let above = value.saturating_add(i128::from(ONE) - 1) >> POINT;
            u64::try_from(above).unwrap_or(0)
        }
        _ => 0,
    }
}

/// The bits behind the point of prices: so many that a cost has no more than 52 with them.
fn price_bits(most_cost: u32) -> u32 {
    let bits = 32 - most_cost.leading_zeros();
    POINT.min(52u32.saturating_sub(bits))
}

fn most_cost(instance: &Instance) -> u32 {
    let types = instance.types().iter();
    types.fold(1, |most: u32, bin_type| most.max(bin_type.cost))
}

/// How many nodes a type has at most.
fn most_nodes(graph: &FlowGraph) -> u32 {
    let mut most = 1u32;
    for index in 0..graph.type_count() {
        let nodes = graph.node_count(index.saturating_add(1)).unwrap_or(1);
        most = most.max(nodes);
    }
    most
}
