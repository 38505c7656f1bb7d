//! The values of worked texts, and texts with one fault each.

use flow_graph::FlowGraph;
use flow_model::graph_of_two;
use solution_text::{SolutionFault, read_solution};
use std::alloc::Global;
use std::test::Fail;

fn no_fault(alloc: Global, graph: &FlowGraph, text: &[u8], values: &[u64]) -> bool {
    match read_solution(alloc, text, graph) {
        Ok(flow) => flow.values.as_slice() == values,
        Err(_) => false,
    }
}

/// Texts, and the values that they give the five arcs.
const VALUES: [(&str, [u64; 5]); 7] = [
    ("Z1 2\nF2 2.0\nF5 2\n", [2, 2, 0, 0, 2]),
    ("Z1 3\nF2 2\nF3 1\nF5 2", [3, 2, 1, 0, 2]),
    ("", [0; 5]),
    ("# F9 x\n\n \t\r\n#\r\nF4\t7\r\n", [0, 0, 0, 7, 0]),
    ("  F5 -0.000  \nF3 -00\n", [0; 5]),
    (
        "F2 4611686018427387904.\n",
        [0, 4611686018427387904, 0, 0, 0],
    ),
    (
        "F2 000000000000000000000000000000000000000000000000000000000000000000000000000001\n",
        [0, 1, 0, 0, 0],
    ),
];

#[test]
fn values_are_read(rt: HostRuntime) -> Result<(), Fail> {
    let alloc = rt.alloc();
    let graph = graph_of_two(alloc)?;
    for (text, values) in VALUES {
        assert!(rt; no_fault(alloc, &graph, text.as_bytes(), &values));
    }
    Ok(())
}

/// Texts with a fault.
const FAULTS: [(&str, SolutionFault); 17] = [
    ("Z1\n", SolutionFault::Fields { line: 1 }),
    ("# Z1\n\nZ1 2 3\n", SolutionFault::Fields { line: 3 }),
    (" # 1 2\n", SolutionFault::Fields { line: 1 }),
    ("Z1 1\nZ2 1\n", SolutionFault::NoColumn { line: 2 }),
    ("F1 1\n", SolutionFault::NoColumn { line: 1 }),
    ("F02 1\n", SolutionFault::NoColumn { line: 1 }),
    ("F6 x\n", SolutionFault::NoColumn { line: 1 }),
    ("F 1\n", SolutionFault::NoColumn { line: 1 }),
    ("f2 1\n", SolutionFault::NoColumn { line: 1 }),
    ("Z1 1.5\n", SolutionFault::Value { line: 1 }),
    ("Z1 -1\n", SolutionFault::Value { line: 1 }),
    ("Z1 .0\n", SolutionFault::Value { line: 1 }),
    ("Z1 4611686018427387905\n", SolutionFault::Value { line: 1 }),
    ("Z1 1\nZ1 1.0.\n", SolutionFault::Value { line: 2 }),
    ("Z1 1\nZ1 1\n", SolutionFault::Twice { line: 2 }),
    (
        "Z1 0\n#\nF2 1\nZ1 2\nF2 1",
        SolutionFault::Twice { line: 4 },
    ),
    ("\r\nF3 1\r\nF3 1\r\nF4", SolutionFault::Twice { line: 3 }),
];

#[test]
fn each_fault_has_its_line(rt: HostRuntime) -> Result<(), Fail> {
    let alloc = rt.alloc();
    let graph = graph_of_two(alloc)?;
    for (text, fault) in FAULTS {
        assert!(rt; read_solution(alloc, text.as_bytes(), &graph).is_err_and(|e| e == fault));
    }
    Ok(())
}
