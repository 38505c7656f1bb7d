//! Flows as sums of paths, and as packings.

use crate::tests::fixtures::{NO_FLOWS, flow_of, needs_send, three_units};
use flow_model::{Tally, graph_of_two, is_flow};
use packing_laws::{Bin, Count, Packing, cost};
use pattern_extract::{ExtractFault, examples_come_out, extract, paths_of};
use std::test::Fail;

/// How often the bins are used that hold as many single units of the item.
fn bins_with(packing: &Packing, units: usize) -> u64 {
    let mut times = 0;
    for bin in packing.bins() {
        if holds(bin, units) {
            times = u64::from(bin.times).saturating_add(times);
        }
    }
    times
}

/// Whether as many single units of the item are in a bin of the first type.
fn holds(bin: &Bin, units: usize) -> bool {
    let unit = Count {
        item: 1,
        form: 1,
        count: 1,
    };
    let counts = bin.counts.as_slice();
    bin.bin_type == 1 && counts.len() == units && counts.iter().all(|count| *count == unit)
}

#[test]
fn a_flow_is_a_sum_of_runs(rt: HostRuntime) -> Result<(), Fail> {
    let alloc = rt.alloc();
    let instance = three_units(alloc)?;
    let graph = graph_of_two(alloc)?;
    examples_come_out();
    let mut tally = Tally::new(alloc, &graph)?;
    let flow = flow_of(alloc, &[2, 2, 0, 0, 2])?;
    if !is_flow(&instance, &graph, &flow, &mut tally) {
        return Err("two bins of two units are a flow".into());
    }
    let runs = paths_of(alloc, &graph, &flow)?;
    assert_eq!(rt; runs.len(), 1);
    let run = &runs[0];
    assert_eq!(rt; (run.t, run.times), (1, 2));
    assert_eq!(rt; run.arcs.as_slice(), &[2, 5][..]);
    assert!(rt; *run == run.clone()?);
    needs_send(&runs);
    Ok(())
}

/// Values of a flow, what its packing costs, and how many bins have no unit, one and two.
const PACKED: [([u64; 5], u128, [u64; 3]); 2] = [
    ([2, 2, 0, 0, 2], 6, [0, 1, 1]),
    ([3, 2, 1, 0, 2], 9, [1, 1, 1]),
];

#[test]
fn surplus_units_are_trimmed_and_empty_bins_are_kept(rt: HostRuntime) -> Result<(), Fail> {
    let alloc = rt.alloc();
    let instance = three_units(alloc)?;
    let graph = graph_of_two(alloc)?;
    examples_come_out();
    for (values, price, bins) in PACKED {
        let packing = extract(alloc, &instance, &graph, &flow_of(alloc, &values)?)?;
        assert_eq!(rt; cost(&instance, &packing), price);
        for units in 0..3usize {
            assert_eq!(rt; bins_with(&packing, units), bins[units]);
        }
    }
    Ok(())
}

#[test]
fn the_first_violated_row_is_named(rt: HostRuntime) -> Result<(), Fail> {
    let alloc = rt.alloc();
    let instance = three_units(alloc)?;
    let graph = graph_of_two(alloc)?;
    examples_come_out();
    for (values, row) in NO_FLOWS {
        let fault = extract(alloc, &instance, &graph, &flow_of(alloc, &values)?).err();
        assert_eq!(rt; fault, Some(ExtractFault::NotFlow { row }));
    }
    Ok(())
}
