//! Prices laid out in tables, by place.

ghost use Rattle.std.specs.Prelude.{◌≡◌, ℕ, ◌+◌, ◌≤◌, pos, All, length, slice_index, slice_index_or};
ghost use Rattle.packing_laws.specs.Instances.{IsAmong};
ghost use Rattle.path_prices.specs.inner.Tables.{HoldsItems, HoldsArcs};

use cert_text::{ArcPrice, ItemPrice};

/// Lays prices of items out in a table of zeros.
pub(crate) fn lay_items(table: &mut [u64], prices: &[ItemPrice])
    requires clear { (k : ℕ) → slice_index table.old k ≡ 0 }
    requires room { All (λ x. IsAmong x.item (length table.old)) prices.now }
    ensures { HoldsItems prices.now table.new }
{
    for index in (0..prices.len()).rev() {
        let listed = prices[index];
        table[listed.item as usize - 1] = listed.price;
    }
}

/// Lays prices of arcs out in a table of zeros.
pub(crate) fn lay_arcs(table: &mut [i64], prices: &[ArcPrice])
    requires clear { (k : ℕ) → slice_index_or table.old k (pos 0) ≡ pos 0 }
    requires room { All (λ x. IsAmong x.arc (length table.old)) prices.now }
    ensures { HoldsArcs prices.now table.new }
{
    for index in (0..prices.len()).rev() {
        let listed = prices[index];
        table[listed.arc as usize - 1] = listed.price;
    }
}

/// Makes a table that holds these prices a table of zeros again.
pub(crate) fn clear_items(table: &mut [u64], prices: &[ItemPrice])
    requires laid { HoldsItems prices.now table.old }
    requires room { All (λ x. IsAmong x.item (length table.old)) prices.now }
    ensures { (k : ℕ) → slice_index table.new k ≡ 0 }
{
    for listed in prices {
        table[listed.item as usize - 1] = 0;
    }
}

/// Makes a table that holds these prices a table of zeros again.
pub(crate) fn clear_arcs(table: &mut [i64], prices: &[ArcPrice])
    requires laid { HoldsArcs prices.now table.old }
    requires room { All (λ x. IsAmong x.arc (length table.old)) prices.now }
    ensures { (k : ℕ) → slice_index_or table.new k (pos 0) ≡ pos 0 }
{
    for listed in prices {
        table[listed.arc as usize - 1] = 0;
    }
}
