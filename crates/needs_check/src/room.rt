//! Room to work in.

use arc_num::{MAX_ITEMS, Memory};
use flow_graph::FlowGraph;
use flow_model::Tally;
use packing_laws::Instance;
use std::alloc::Global;
use std::marker::Model;

/// Room for the parts of a need by arc, and for their sums by node and by item. Between calls it holds no part.
#[derive(Debug, Drop)]
pub struct NeedRoom {
    pub(crate) values: Vec<u64>,
    pub(crate) carried: Vec<u128>,
    pub(crate) tally: Tally,
}

impl Model for NeedRoom {
    ghost use Rattle.std.specs.Prelude.{length};
    ghost use Rattle.needs_check.specs.Rooms.{NeedRoomValue};
    ghost use Rattle.needs_check.specs.inner.Laid.{IsClear};

    ghost Value = { NeedRoomValue };

    ghost view = { λ r. record { arcs = length r.values.items; items = length r.carried.items; tally = r.tally } };

    ghost invariant = { λ r. IsClear r.values.items };
}

impl NeedRoom {
    ghost use Rattle.std.specs.Prelude.{IfOk};
    ghost use Rattle.flow_graph.specs.Faithful.{GraphOf};
    ghost use Rattle.needs_check.specs.Rooms.{IsNeedRoomOf};

    /// Room for the needs of certificates of an instance, over its graph.
    pub fn new(alloc: Global, graph: &FlowGraph, instance: &Instance) -> Result<NeedRoom, Memory>
        requires { GraphOf instance.now graph.now }
        ensures { IfOk result (λ room. IsNeedRoomOf graph.now room) }
    {
        let _instance = instance;
        let arcs = graph.arc_count() as usize;
        Ok(NeedRoom {
            values: vec![in alloc; 0; arcs]?,
            carried: vec![in alloc; 0; MAX_ITEMS as usize]?,
            tally: Tally::new(alloc, graph)?,
        })
    }
}
