//! A need that is worked by hand.

ghost use Rattle.std.specs.Prelude.{◌≡◌, ◌≤◌, IfOk, All, length};
ghost use Rattle.packing_laws.specs.Instances.{IsAmong};
ghost use Rattle.flow_graph.specs.Arcs.{numbered};
ghost use Rattle.cert_text.specs.Lines.{IsNeed};

use arc_num::{Listed, Memory};
use cert_text::{ArcPart, Need};
use flow_graph::FlowGraph;
use flow_model::{examples_come_out, graph_of_two, root_box, three_of_one};
use needs_check::{NeedRoom, check_need};
use std::alloc::Global;
use std::test::Fail;

fn needs_send<T: Send + Sync>(_value: &T) {}

/// Three halves on the bin arc and on the first unit, and some on the second unit.
fn halves(alloc: Global, graph: &FlowGraph, last: u64) -> Result<Need, Memory>
    requires graph { length (numbered graph.now) ≡ 5 }
    requires last { IsAmong last 4 }
    ensures need { IfOk result (λ need. IsNeed need) }
    ensures arcs { IfOk result (λ need. All (λ x. x.arc ≤ length (numbered graph.now)) need.parts) }
{
    let _graph = graph;
    let bins = ArcPart { arc: 1, value: 3 };
    let first = ArcPart { arc: 2, value: 3 };
    let second = ArcPart {
        arc: 5,
        value: last,
    };
    Ok(Need {
        scale: 2,
        parts: Listed::new(Vec::from_slice(alloc, &[bins, first, second])?),
    })
}

#[test]
fn halves_are_needed_for_a_goal_that_they_stay_below(rt: HostRuntime) -> Result<(), Fail> {
    let alloc = rt.alloc();
    let Some(instance) = three_of_one(alloc)? else {
        return Err("the numbers are those of an instance".into());
    };
    let graph = graph_of_two(alloc)?;
    examples_come_out();
    let ranges = root_box(alloc, &instance, &graph)?;
    let mut room = NeedRoom::new(alloc, &graph, &instance)?;
    let need = halves(alloc, &graph, 3)?;
    let leak = halves(alloc, &graph, 4)?;
    assert!(rt; check_need(&instance, &graph, &ranges, Some(6), &need, &mut room));
    assert!(rt; !check_need(&instance, &graph, &ranges, Some(5), &need, &mut room));
    assert!(rt; !check_need(&instance, &graph, &ranges, Some(0), &need, &mut room));
    assert!(rt; check_need(&instance, &graph, &ranges, None, &need, &mut room));
    assert!(rt; !check_need(&instance, &graph, &ranges, Some(6), &leak, &mut room));
    needs_send(&room);
    Ok(())
}
