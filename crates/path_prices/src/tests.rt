//! Prices that are worked by hand, for three units of an item of which a bin holds two.

ghost use Rattle.std.specs.Prelude.{IfOk, unsigned_abs};
ghost use Rattle.arc_num.specs.declared.TheConstants.{MAX_PRICE};
ghost use Rattle.cert_text.specs.Lines.{ArePrices, IsBetween};
ghost use Rattle.path_prices.specs.Scratches.{NamesAmong};

use crate::{Scratch, best_path, first_excess, gain, gains_are_known, is_enough, worth};
use arc_num::{Listed, Memory};
use cert_text::{ArcPrice, Claim, ItemPrice, Prices};
use flow_model::{examples_come_out, graph_of_two, root_box, three_of_one};
use std::alloc::Global;
use std::test::Fail;

fn needs_send<T: Send + Sync>(_value: &T) {}

/// The price 1 of a unit, and a price of a bin, without a measure.
fn prices_of(alloc: Global, bin: i64) -> Result<Prices, Memory>
    requires bin { IsBetween 1 MAX_PRICE (unsigned_abs bin) }
    ensures prices { IfOk result (λ p. ArePrices p) }
    ensures names { IfOk result (λ p. NamesAmong 1 5 p) }
{
    let unit = ItemPrice { item: 1, price: 1 };
    let arc = ArcPrice { arc: 1, price: bin };
    Ok(Prices {
        scale: 0,
        items: Listed::new(vec![in alloc; unit]?),
        arcs: Listed::new(vec![in alloc; arc]?),
    })
}

#[test]
fn two_units_gain_what_the_bin_does_not_cost(rt: HostRuntime) -> Result<(), Fail> {
    let alloc = rt.alloc();
    let instance = three_of_one(alloc)?.ok_or("no instance")?;
    let graph = graph_of_two(alloc)?;
    examples_come_out();
    let mut scratch = Scratch::new(alloc, &graph, &instance)?;
    needs_send(&scratch);
    let dear = prices_of(alloc, -2)?;
    let cheap = prices_of(alloc, -1)?;
    assert_eq!(rt; gain(&graph, &dear, 1, &mut scratch), 0);
    assert_eq!(rt; gain(&graph, &cheap, 1, &mut scratch), 1);
    assert_eq!(rt; first_excess(&instance, &graph, &dear, &mut scratch), None);
    assert_eq!(rt;
        first_excess(&instance, &graph, &cheap, &mut scratch),
        Some(1)
    );
    Ok(())
}

#[test]
fn a_bin_of_two_units_is_the_best(rt: HostRuntime) -> Result<(), Fail> {
    let alloc = rt.alloc();
    let instance = three_of_one(alloc)?.ok_or("no instance")?;
    let graph = graph_of_two(alloc)?;
    examples_come_out();
    let mut scratch = Scratch::new(alloc, &graph, &instance)?;
    let prices = prices_of(alloc, -2)?;
    let mut arcs = Vec::with_capacity(alloc, 3)?;
    best_path(&graph, &prices, 1, &mut scratch, &mut arcs);
    assert_eq!(rt; arcs.as_slice(), &[2, 5][..]);
    Ok(())
}

#[test]
fn three_bins_take_more_than_three_units_give(rt: HostRuntime) -> Result<(), Fail> {
    let alloc = rt.alloc();
    let instance = three_of_one(alloc)?.ok_or("no instance")?;
    let graph = graph_of_two(alloc)?;
    examples_come_out();
    let ranges = root_box(alloc, &instance, &graph)?;
    let prices = prices_of(alloc, -2)?;
    assert_eq!(rt; worth(&instance, &ranges, &prices), -3);
    Ok(())
}

#[test]
fn worths_that_are_enough(rt: HostRuntime) {
    for (worth, is_so) in [(6, true), (5, false)] {
        assert_eq!(rt; is_enough(&Claim::Bound(6), 1, worth), is_so);
        assert!(rt; !is_enough(&Claim::Empty, 1, worth));
    }
    for (worth, is_so) in [(1, true), (0, false)] {
        assert_eq!(rt; is_enough(&Claim::Bound(6), 0, worth), is_so);
        assert_eq!(rt; is_enough(&Claim::Empty, 0, worth), is_so);
    }
    gains_are_known();
}
