//! The columns of a first basis: for each item with a demand the cheapest way to fill a bin with it.

use crate::generator::{Generator, field_of};
use crate::relaxation::BasicName;
use crate::ways::found_along;
use arc_num::Memory;
use flow_graph::FlowGraph;
use packing_laws::Instance;
use std::alloc::Global;

/// A path that has some copies of an item.
#[derive(Drop)]
struct Seed {
    bin_type: u32,
    cost: u32,
    copies: i64,
    numbers: Vec<u32>,
}

impl Seed {
    /// Whether a copy costs less in another seed.
    fn is_beaten(&self, cost: u32, copies: i64) -> bool {
        let here = i128::from(self.cost) * i128::from(copies);
        let there = i128::from(cost) * i128::from(self.copies);
        there < here
    }
}

impl Generator {
    /// Puts a column for each item with a demand into the pool, and keeps their names as those of a first basis.
    pub(crate) fn seed(
        &mut self,
        alloc: Global,
        instance: &Instance,
        graph: &FlowGraph,
    ) -> Result<(), Memory> {
        let mut items = vec![in alloc; 0; instance.item_count() as usize + 1]?;
        let mut number = 0usize;
        for item in instance.items() {
            number = number.saturating_add(1);
            if item.demand > 0 && number < items.len() {
                items[number] = 1;
                self.seed_item(alloc, instance, graph, items.as_slice())?;
            }
            if number < items.len() {
                items[number] = 0;
            }
        }
        Ok(())
    }

    fn seed_item(
        &mut self,
        alloc: Global,
        instance: &Instance,
        graph: &FlowGraph,
        items: &[i64],
    ) -> Result<(), Memory> {
        let mut best: Option<Seed> = None;
        for index in 0..graph.type_count() {
            let bin_type = index.saturating_add(1);
            let cost = instance.bin_type(bin_type).map_or(0, |found| found.cost);
            let field = field_of(graph, bin_type, self.own.as_slice());
            let copies = self.passes.go_ahead(field, items, [].as_slice());
            if copies > 0
                && best
                    .as_ref()
                    .is_none_or(|seed| seed.is_beaten(cost, copies))
            {
                let numbers = self.passes.best_path(alloc, field)?;
                best = Some(Seed {
                    bin_type,
                    cost,
                    copies,
                    numbers,
                });
            }
        }
        match best {
            Some(seed) => self.plant(alloc, instance, graph, seed),
            None => Ok(()),
        }
    }

    fn plant(
        &mut self,
        alloc: Global,
        instance: &Instance,
        graph: &FlowGraph,
        seed: Seed,
    ) -> Result<(), Memory> {
        let rows = self.item_rows.as_slice();
        let found = found_along(alloc, instance, graph, rows, seed.bin_type, seed.numbers)?;
        let place = self.pool.put(found.way, found.column)?;
        self.seeds.push(BasicName::Column(place.number))?;
        Ok(())
    }
}
