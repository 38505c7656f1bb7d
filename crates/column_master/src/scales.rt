//! Prices in small numbers.

use crate::drafts::{Draft, Shown};
use crate::generator::{Generator, Progress, lay, rounded_up};
use crate::relaxation::Relaxation;
use crate::rows::MasterRow;
use arc_num::Memory;
use cert_text::Claim;
use flow_graph::FlowGraph;
use packing_laws::Instance;

/// The scales that are tried, each of which many small numbers divide.
const SCALES: [i64; 40] = [
    1, 2, 3, 4, 5, 6, 7, 8, 9, 10, 12, 14, 15, 16, 18, 20, 24, 28, 30, 36, 40, 42, 48, 60, 72, 84,
    90, 96, 120, 168, 180, 240, 360, 420, 504, 720, 840, 1260, 2520, 5040,
];

/// Prices of more arcs than this are left as they are.
const MOST_ARCS: usize = 500;

impl Generator {
    /// Where the bound is one below what the columns cost, rounded up, keeps prices in small numbers that show one more, if
    /// there are such: rounded prices may show just less than what exact ones do.
    pub(crate) fn lift(
        &mut self,
        instance: &Instance,
        graph: &FlowGraph,
        relaxation: &Relaxation,
        progress: &mut Progress,
    ) -> Result<(), Memory> {
        let next = progress.bound.saturating_add(1);
        if relaxation.is_dive() || !is_at(relaxation, next) {
            return Ok(());
        }
        let rows = relaxation.rows();
        let prices = relaxation.basis().prices();
        let unit = relaxation.unit();
        let draft = Draft::of_rows(self.alloc, instance.item_count(), rows, prices, unit)?;
        let claim = Claim::Bound(next);
        if let Some(shown) = self.shorter(instance, graph, rows, &draft, &claim)? {
            progress.keep(shown);
        }
        Ok(())
    }

    /// The prices of a draft in the least scale under which they still show the claim, where the rows keep their bounds;
    /// none where there is no such scale.
    pub(crate) fn shorter(
        &mut self,
        instance: &Instance,
        graph: &FlowGraph,
        rows: &[MasterRow],
        draft: &Draft,
        claim: &Claim,
    ) -> Result<Option<Shown>, Memory> {
        if draft.arcs.len() > MOST_ARCS {
            return Ok(None);
        }
        self.rest.clear();
        let measure = draft.measure();
        for scale in SCALES {
            if scale >= measure {
                return Ok(None);
            }
            let rounded = draft.rounded(self.alloc, scale, measure)?;
            let found = self.closing(instance, graph, rows, rounded, claim)?;
            if found.is_some() {
                return Ok(found);
            }
        }
        Ok(None)
    }

    /// The draft with gains that are not too great, where it shows the claim then.
    fn closing(
        &mut self,
        instance: &Instance,
        graph: &FlowGraph,
        rows: &[MasterRow],
        draft: Draft,
        claim: &Claim,
    ) -> Result<Option<Shown>, Memory> {
        let units = instance.units();
        if !reaches(draft.most_shown(rows, units), claim) || draft.is_large(self.hops) {
            return Ok(None);
        }
        lay(self.own.as_mut_slice(), draft.arcs.as_slice());
        let mut excesses = Vec::new(self.alloc);
        for index in 0..graph.type_count() {
            let bin_type = index.saturating_add(1);
            excesses.push(self.excess_of(instance, graph, bin_type, &draft))?;
        }
        let shown = draft.repaired(rows, units, excesses.as_slice())?;
        if reaches(shown.bound, claim) {
            return Ok(Some(shown));
        }
        Ok(None)
    }
}

/// Whether what is shown, which is none for everything, is as much as the claim.
fn reaches(bound: Option<u64>, claim: &Claim) -> bool {
    match (bound, claim) {
        (None, _) => true,
        (Some(bound), Claim::Bound(goal)) => bound >= *goal,
        (Some(_), Claim::Empty) => false,
    }
}

/// Whether what the columns cost is so much, rounded up.
fn is_at(relaxation: &Relaxation, bound: u64) -> bool {
    relaxation.is_feasible() && relaxation.value().map(rounded_up) == Some(i128::from(bound))
}
