//! Copies that contracts see as equal.

ghost use Rattle.std.specs.Prelude.{◌≡◌, IfOk};

use arc_num::{Listed, Memory};
use cert_text::{Need, Prices};

/// The prices once more.
pub(crate) fn prices_again(prices: &Prices) -> Result<Prices, Memory>
    ensures { IfOk result (λ p. p ≡ prices.now) }
{
    let items = Vec::from_slice(prices.items.allocator(), prices.items.as_slice())?;
    let arcs = Vec::from_slice(prices.arcs.allocator(), prices.arcs.as_slice())?;
    Ok(Prices {
        scale: prices.scale,
        items: Listed::new(items),
        arcs: Listed::new(arcs),
    })
}

/// The need once more.
pub(crate) fn need_again(need: &Need) -> Result<Need, Memory>
    ensures { IfOk result (λ n. n ≡ need.now) }
{
    let parts = Vec::from_slice(need.parts.allocator(), need.parts.as_slice())?;
    Ok(Need {
        scale: need.scale,
        parts: Listed::new(parts),
    })
}
