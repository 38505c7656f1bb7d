//! Prices as the simplex gives them, before they are tested.

ghost use Rattle.std.specs.Prelude.{◌≤◌};

use crate::rows::{MasterRow, RowName, range_in};
use arc_num::Memory;
use cert_text::ArcPrice;
use flow_graph::FlowGraph;
use packing_laws::Instance;
use simplex_basis::Price;
use std::alloc::Global;

mod rounding;

/// Prices that no test has seen: of items, by number, the place 0 for what carries nothing; and of arcs, of which one may
/// stand more than once, and then its prices add up.
#[derive(Debug, Drop)]
pub(crate) struct Draft {
    /// 0 where bins are worth nothing.
    pub scale: i64,
    pub items: Vec<i64>,
    pub arcs: Vec<ArcPrice>,
}

/// How much a type's gain is above what its bins cost, in units of a draft's scale.
#[derive(Clone, Copy, Debug, PartialEq, Eq)]
pub(crate) struct Excess {
    /// The number of the bin arc.
    pub arc: u32,
    pub cost: u32,
    /// The greatest price of a path.
    pub path: i128,
    /// The same and the price of the bin arc.
    pub gain: i128,
}

/// A draft, and the bound that it shows, unless it is wrong: none where it shows that the rows have no solution.
#[derive(Debug, Drop)]
pub(crate) struct Shown {
    pub draft: Draft,
    pub bound: Option<u64>,
}

impl Draft {
    /// The prices of the rows, those on the wrong side of 0 cut to 0.
    pub(crate) fn of_rows(
        alloc: Global,
        items: u32,
        rows: &[MasterRow],
        prices: &[Price],
        scale: i64,
    ) -> Result<Draft, Memory> {
        let mut draft = Draft {
            scale,
            items: vec![in alloc; 0; items as usize + 1]?,
            arcs: Vec::new(alloc),
        };
        for (row, price) in rows.iter().zip(prices.iter()) {
            draft.put(row.name, price.value())?;
        }
        Ok(draft)
    }

    fn put(&mut self, name: RowName, price: i64) -> Result<(), Memory> {
        match name {
            RowName::Demand { item } => set_price(self.items.as_mut_slice(), item, price.max(0)),
            RowName::Upper { arc } => self.put_arc(arc, price.min(0))?,
            RowName::Lower { arc } => self.put_arc(arc, price.max(0))?,
        }
        Ok(())
    }

    fn put_arc(&mut self, arc: u32, price: i64) -> Result<(), Memory> {
        if price != 0 {
            self.arcs.push(ArcPrice { arc, price })?;
        }
        Ok(())
    }

    /// Leaves out so many of the last bits of all prices and of the scale that a path over so many arcs has a price below
    /// 2^60, and answers how many.
    pub(crate) fn shrink(&mut self, hops: u32) -> u32 {
        let bits = spare_bits(self.greatest(), hops);
        if bits == 0 {
            return 0;
        }
        self.scale >>= bits;
        for price in self.items.as_mut_slice().iter_mut() {
            *price >>= bits;
        }
        for listed in self.arcs.as_mut_slice().iter_mut() {
            listed.price >>= bits;
        }
        bits
    }

    /// Whether a path over so many arcs may have a price of 2^60 or more.
    pub(crate) fn is_large(&self, hops: u32) -> bool {
        spare_bits(self.greatest(), hops) > 0
    }

    fn greatest(&self) -> u64 {
        let items = self.items.as_slice().iter();
        let arcs = self.arcs.as_slice().iter();
        let item = items.fold(0u64, |most, price| most.max(price.unsigned_abs()));
        arcs.fold(item, |most, listed| most.max(listed.price.unsigned_abs()))
    }

    /// What an arc has as its own price.
    pub(crate) fn arc_price(&self, arc: u32) -> i64 {
        let mut price = 0i64;
        for listed in self.arcs.as_slice() {
            if listed.arc == arc {
                price = price.saturating_add(listed.price);
            }
        }
        price
    }

    /// What the prices are worth where the rows keep their bounds.
    pub(crate) fn worth(&self, rows: &[MasterRow], units: u32) -> i128 {
        let mut worth = 0i128;
        for row in rows {
            if let RowName::Demand { item } = row.name {
                let price = self.items.get(item as usize).copied().unwrap_or(0);
                worth = worth.saturating_add(times(price, row.bound));
            }
        }
        for (place, listed) in self.arcs.as_slice().iter().enumerate() {
            if is_first(self.arcs.as_slice(), place, listed.arc) {
                let price = self.arc_price(listed.arc);
                let (lower, upper) = range_in(rows, units, listed.arc);
                let end = if price > 0 { lower } else { upper };
                worth = worth.saturating_add(times(price, end));
            }
        }
        worth
    }

    /// The least scale under which no gain is too great, if there is one.
    fn raised_scale(&self, excesses: &[Excess]) -> Option<i64> {
        let mut scale = self.scale;
        for excess in excesses {
            scale = scale.max(scale_for(excess)?);
        }
        Some(scale)
    }

    /// The prices with those of bin arcs lowered so far that no gain is too great.
    fn lower_bins(&mut self, excesses: &[Excess]) -> Result<(), Memory> {
        for excess in excesses {
            let above = excess.above(self.scale);
            if above > 0 {
                let price = i64::try_from(above).unwrap_or(i64::MAX);
                self.put_arc(excess.arc, -price)?;
            }
        }
        Ok(())
    }

    /// Makes the draft one whose gains are not too great, by the way that shows the greater bound, and answers what it
    /// shows then.
    pub(crate) fn repaired(
        self,
        rows: &[MasterRow],
        units: u32,
        excesses: &[Excess],
    ) -> Result<Shown, Memory> {
        let raised = self.raised_scale(excesses);
        let by_scale = raised.map_or(0, |scale| bound_of(self.worth(rows, units), scale));
        let mut draft = self;
        let kept = draft.arcs.len();
        draft.lower_bins(excesses)?;
        let worth = draft.worth(rows, units);
        if draft.scale == 0 {
            let bound = if worth > 0 { None } else { Some(0) };
            return Ok(Shown { draft, bound });
        }
        let by_bins = bound_of(worth, draft.scale);
        if by_scale < by_bins {
            let bound = Some(by_bins);
            return Ok(Shown { draft, bound });
        }
        draft.arcs.truncate(kept);
        draft.scale = raised.unwrap_or(draft.scale);
        let bound = Some(by_scale);
        Ok(Shown { draft, bound })
    }
}

impl Excess {
    /// The gain of a type under prices whose bin arc is priced too.
    pub(crate) fn of_type(
        instance: &Instance,
        graph: &FlowGraph,
        bin_type: u32,
        own: i64,
        path: i64,
    ) -> Excess {
        Excess {
            arc: graph.arcs_of(bin_type).map_or(0, |numbers| numbers.0),
            cost: instance.bin_type(bin_type).map_or(0, |found| found.cost),
            path: i128::from(path),
            gain: i128::from(own) + i128::from(path),
        }
    }

    /// How much the gain is above the cost.
    pub(crate) fn above(&self, scale: i64) -> i128 {
        self.gain.saturating_sub(times(scale, self.cost))
    }
}

fn set_price(items: &mut [i64], item: u32, price: i64) {
    let place = item as usize;
    if place < items.len() {
        items[place] = price;
    }
}

/// So many bits too many has a price that is taken so often.
fn spare_bits(greatest: u64, hops: u32) -> u32
    ensures { result ≤ 32 }
{
    for bits in 0..32u32 {
        let most = u128::from(greatest >> bits) + 1;
        if most * (u128::from(hops) + 2) < 1 << 60 {
            return bits;
        }
    }
    32
}

fn times(price: i64, count: u32) -> i128 {
    i128::from(price) * i128::from(count)
}

/// Whether no earlier price is one of the arc.
fn is_first(listed: &[ArcPrice], place: usize, arc: u32) -> bool {
    let before = listed.iter().take(place);
    !before.into_iter().any(|other| other.arc == arc)
}

/// The least scale under which a gain is not above the cost, if there is one.
fn scale_for(excess: &Excess) -> Option<i64> {
    if excess.gain <= 0 {
        return Some(0);
    }
    if excess.cost == 0 {
        return None;
    }
    let cost = i128::from(excess.cost);
    i64::try_from((excess.gain.saturating_add(cost) - 1) / cost).ok()
}

/// What a worth is in whole units of cost, rounded up; 0 where it is below 0 or without a measure.
fn bound_of(worth: i128, scale: i64) -> u64 {
    if worth <= 0 || scale <= 0 {
        return 0;
    }
    let scale = i128::from(scale);
    u64::try_from((worth - 1) / scale + 1).unwrap_or(u64::MAX)
}
