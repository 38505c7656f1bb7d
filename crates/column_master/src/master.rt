//! The master, which prices the boxes of a search.

use crate::drafts::Draft;
use crate::flows::{Solved, flow_of, need_of, nothing};
use crate::generator::{Effort, Ended, Generator, Outlook, Progress, cost_beyond};
use crate::prices::{closing_prices, valid_prices};
use crate::relaxation::{BasicName, Relaxation};
use crate::rows::rows_of;
use arc_num::Memory;
use cert_text::{Claim, Need, Prices};
use column_pool::ColumnPool;
use flow_graph::FlowGraph;
use flow_model::{FlowBox, Tally};
use packing_laws::Instance;
use path_prices::Scratch;
use simplex_basis::BasisFault;
use std::alloc::Global;
use std::marker::Model;

/// The prices of a box, and a flow in fractions, told as a need tells one: whole multiples of paths, which may lie outside
/// the box.
#[derive(Debug, Drop)]
pub struct NodePrices {
    pub prices: Prices,
    pub flow: Need,
}

/// Prices boxes of one graph, by column generation. The columns that it finds stay for the boxes that come.
#[derive(Drop)]
pub struct Master<'a> {
    alloc: Global,
    instance: &'a Instance,
    graph: &'a FlowGraph,
    scratch: Scratch,
    tally: Tally,
    generator: Generator,
    relaxation: Option<Relaxation>,
    outlook: Outlook,
}

impl<'a> Model for Master<'a> {
    ghost use Rattle.column_master.specs.Masters.{MasterValue};
    ghost use Rattle.column_master.specs.inner.Ready.{IsReady};

    ghost Value = { MasterValue };

    ghost view = { λ s. record { instance = s.instance.now; graph = s.graph.now } };

    ghost invariant = { λ s. IsReady s.instance.now s.graph.now s.scratch s.tally };
}

impl<'a> Master<'a> {
    ghost use Rattle.std.specs.Prelude.{◌≡◌, IfOk, IfSome, length};
    ghost use Rattle.flow_graph.specs.Arcs.{numbered};
    ghost use Rattle.flow_graph.specs.Faithful.{IsFaithful};
    ghost use Rattle.cert_text.specs.Lines.{IsClaim};
    ghost use Rattle.cert_laws.specs.Needs.{IsNeeded};
    ghost use Rattle.column_master.specs.NodePrices.{AreClosing, AreNodePrices, IsFlowOf};

    /// A master with the columns of a first basis.
    pub fn new(
        alloc: Global,
        instance: &'a Instance,
        graph: &'a FlowGraph,
    ) -> Result<Master<'a>, Memory>
        requires { IsFaithful instance.now graph.now }
        ensures { IfOk result (λ m. m ≡ record { instance = instance.now; graph = graph.now }) }
    {
        let scratch = Scratch::new(alloc, graph, instance)?;
        let tally = Tally::new(alloc, graph)?;
        let generator = Generator::new(alloc, instance, graph)?;
        Ok(Master {
            alloc,
            instance,
            graph,
            scratch,
            tally,
            generator,
            relaxation: None,
            outlook: Outlook::START,
        })
    }

    /// Prices a box in so many rounds at most, from the first basis.
    pub fn price_node(&mut self, ranges: &FlowBox, rounds: u32) -> Result<NodePrices, Memory>
        requires { length ranges.now ≡ length (numbered self.old.graph) }
        ensures same { self.new ≡ self.old }
        ensures priced { IfOk result (AreNodePrices self.old.instance self.old.graph ranges.now) }
    {
        let effort = Effort {
            rounds,
            cut: u64::MAX,
        };
        self.price_from(ranges, [].as_slice(), &effort)
    }

    /// Prices a box from the basis with these names, or from the first one where there are none, as far as the effort goes.
    pub fn price_from(
        &mut self,
        ranges: &FlowBox,
        names: &[BasicName],
        effort: &Effort,
    ) -> Result<NodePrices, Memory>
        requires { length ranges.now ≡ length (numbered self.old.graph) }
        ensures same { self.new ≡ self.old }
        ensures priced { IfOk result (AreNodePrices self.old.instance self.old.graph ranges.now) }
    {
        let draft = self.relax(ranges, names, effort)?;
        let prices = valid_prices(
            self.alloc,
            self.instance,
            self.graph,
            ranges,
            draft.as_ref(),
            &mut self.scratch,
        )?;
        let flow = self.flow()?;
        Ok(NodePrices { prices, flow })
    }

    /// A flow in fractions that shows that no prices close the box that was priced last for the goal; without a goal, that none
    /// show it empty. Several are tried: the solution in exact fractions, with margins, and as it stands. For another box it
    /// rarely finds one. What shows the need for a goal shows it for each greater goal.
    pub fn need(&mut self, ranges: &FlowBox, goal: Option<u64>) -> Result<Option<Need>, Memory>
        requires { length ranges.now ≡ length (numbered self.old.graph) }
        ensures same { self.new ≡ self.old }
        ensures flow { IfOk result (λ found. IfSome found (IsFlowOf self.old.graph)) }
        ensures needed { IfOk result (λ found. IfSome found (IsNeeded self.old.instance self.old.graph ranges.now goal)) }
    {
        match &self.relaxation {
            Some(relaxation) => need_of(
                self.alloc,
                self.instance,
                self.graph,
                Solved {
                    pool: &self.generator.pool,
                    relaxation,
                },
                ranges,
                goal,
                &mut self.tally,
            ),
            None => Ok(None),
        }
    }

    /// Prices that close a box for the claim: in small numbers where such are found, else the given ones.
    pub fn shorten(
        &mut self,
        ranges: &FlowBox,
        prices: Prices,
        claim: &Claim,
    ) -> Result<Prices, Memory>
        requires ranges { length ranges.now ≡ length (numbered self.old.graph) }
        requires claim { IsClaim claim.now }
        requires given { AreClosing self.old.instance self.old.graph ranges.now claim.now prices }
        ensures same { self.new ≡ self.old }
        ensures closing { IfOk result (AreClosing self.old.instance self.old.graph ranges.now claim.now) }
    {
        let short = self.short_draft(ranges, &prices, claim)?;
        closing_prices(
            self.alloc,
            self.instance,
            self.graph,
            ranges,
            claim,
            short.as_ref(),
            prices,
            &mut self.scratch,
        )
    }

    /// Solves a program of this master, as a copy with other bounds, as far as the effort goes.
    pub fn solve(&mut self, relaxation: &mut Relaxation, effort: &Effort) -> Result<Outlook, Memory>
        ensures same { self.new ≡ self.old }
    {
        let mut progress = Progress::new();
        self.solve_into(relaxation, effort, &mut progress)
    }

    /// How the solve of the box that was priced last ended.
    pub fn outlook(&self) -> Outlook {
        self.outlook
    }

    /// The least goal for which a need of the box that was priced last may be found: one more than its bound, or than what the
    /// columns cost where the bound stayed below that by rounding.
    pub fn least_goal(&self) -> u64 {
        let bound = self.outlook.bound;
        let cost = match &self.relaxation {
            Some(relaxation) => cost_beyond(relaxation, bound),
            None => 0,
        };
        bound.max(cost).saturating_add(1)
    }

    /// The program of the box that was priced last; none where no basis was made.
    pub fn relaxation(&self) -> Option<&Relaxation> {
        self.relaxation.as_ref()
    }

    /// All columns that were ever found.
    pub fn columns(&self) -> &ColumnPool {
        &self.generator.pool
    }

    /// Prices in small numbers that may close the box for the claim.
    fn short_draft(
        &mut self,
        ranges: &FlowBox,
        prices: &Prices,
        claim: &Claim,
    ) -> Result<Option<Draft>, Memory>
        ensures same { self.new ≡ self.old }
    {
        let rows = rows_of(self.alloc, self.instance, self.graph, ranges)?;
        let given = Draft::of_prices(self.alloc, self.instance.item_count(), prices)?;
        let shown = self
            .generator
            .shorter(self.instance, self.graph, rows.as_slice(), &given, claim)?;
        Ok(shown.map(|shown| shown.draft))
    }

    /// Solves the program of a box, keeps it, and answers the best prices that came up.
    fn relax(
        &mut self,
        ranges: &FlowBox,
        names: &[BasicName],
        effort: &Effort,
    ) -> Result<Option<Draft>, Memory>
        ensures same { self.new ≡ self.old }
    {
        self.relaxation = None;
        self.outlook = Outlook::START;
        let opened = self
            .generator
            .open(self.instance, self.graph, ranges, names);
        let mut relaxation = match opened {
            Ok(relaxation) => relaxation,
            Err(BasisFault::Broken) => return Ok(None),
            Err(BasisFault::Memory) => return Err(Memory),
        };
        let mut progress = Progress::new();
        self.outlook = self.solve_into(&mut relaxation, effort, &mut progress)?;
        self.generator.remember(&relaxation)?;
        self.relaxation = Some(relaxation);
        Ok(progress.draft)
    }

    fn solve_into(
        &mut self,
        relaxation: &mut Relaxation,
        effort: &Effort,
        progress: &mut Progress,
    ) -> Result<Outlook, Memory>
        ensures same { self.new ≡ self.old }
    {
        let solved = self
            .generator
            .solve(self.instance, self.graph, relaxation, effort, progress);
        let ended = match solved {
            Ok(ended) => ended,
            Err(BasisFault::Broken) => Ended::Stopped,
            Err(BasisFault::Memory) => return Err(Memory),
        };
        Ok(Outlook {
            ended,
            bound: progress.bound,
        })
    }

    /// The flow of the program that is kept.
    fn flow(&mut self) -> Result<Need, Memory>
        ensures same { self.new ≡ self.old }
        ensures flow { IfOk result (IsFlowOf self.old.graph) }
    {
        match &self.relaxation {
            Some(relaxation) => flow_of(
                self.alloc,
                self.instance,
                self.graph,
                Solved {
                    pool: &self.generator.pool,
                    relaxation,
                },
                &mut self.tally,
            ),
            None => Ok(nothing(self.alloc, self.graph)),
        }
    }
}
