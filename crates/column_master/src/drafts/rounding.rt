//! Drafts of given prices, and drafts in smaller numbers.

use super::{Draft, bound_of, set_price};
use crate::rows::MasterRow;
use arc_num::Memory;
use cert_text::{ArcPrice, ItemPrice, Prices};
use std::alloc::Global;

impl Draft {
    /// Prices as a draft, for so many items.
    pub(crate) fn of_prices(alloc: Global, items: u32, prices: &Prices) -> Result<Draft, Memory> {
        let mut draft = Draft {
            scale: small(prices.scale),
            items: vec![in alloc; 0; items as usize + 1]?,
            arcs: Vec::from_slice(alloc, prices.arcs.as_slice())?,
        };
        for listed in prices.items.as_slice() {
            draft.put_item(listed);
        }
        Ok(draft)
    }

    fn put_item(&mut self, listed: &ItemPrice) {
        set_price(self.items.as_mut_slice(), listed.item, small(listed.price));
    }

    /// What the prices are measured by: the scale, or the greatest price of an item where there is none.
    pub(crate) fn measure(&self) -> i64 {
        if self.scale > 0 {
            return self.scale;
        }
        let items = self.items.as_slice().iter();
        items.fold(0, |most: i64, price| most.max(*price))
    }

    /// The prices as the nearest multiples of one part in a scale, where now they are measured by another number.
    pub(crate) fn rounded(&self, alloc: Global, scale: i64, measure: i64) -> Result<Draft, Memory> {
        let mut items = Vec::new(alloc);
        for price in self.items.as_slice() {
            items.push(nearest(*price, scale, measure))?;
        }
        let mut arcs = Vec::new(alloc);
        for listed in self.arcs.as_slice() {
            push_rounded(*listed, scale, measure, &mut arcs)?;
        }
        let scale = if self.scale > 0 { scale } else { 0 };
        Ok(Draft { scale, items, arcs })
    }

    /// The bound that the draft shows if no gain is too great: none where it shows that the rows have no solution.
    pub(crate) fn most_shown(&self, rows: &[MasterRow], units: u32) -> Option<u64> {
        let worth = self.worth(rows, units);
        if self.scale > 0 {
            return Some(bound_of(worth, self.scale));
        }
        if worth > 0 { None } else { Some(0) }
    }
}

fn push_rounded(
    listed: ArcPrice,
    scale: i64,
    measure: i64,
    out: &mut Vec<ArcPrice>,
) -> Result<(), Memory> {
    let price = nearest(listed.price, scale, measure);
    if price != 0 {
        out.push(ArcPrice {
            arc: listed.arc,
            price,
        })?;
    }
    Ok(())
}

fn small(price: u64) -> i64 {
    i64::try_from(price).unwrap_or(i64::MAX)
}

/// So many parts of one in a measure as the nearest number of parts of one in a scale.
fn nearest(price: i64, scale: i64, measure: i64) -> i64 {
    if measure <= 0 {
        return 0;
    }
    let measure = i128::from(measure);
    let half = measure / 2;
    let wide = i128::from(price) * i128::from(scale);
    let away = if wide < 0 {
        wide.saturating_sub(half)
    } else {
        wide.saturating_add(half)
    };
    i64::try_from(away / measure).unwrap_or(0)
}
