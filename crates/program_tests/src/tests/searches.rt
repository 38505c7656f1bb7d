use crate::tests::{Outcome, run_failing};
use arc_program::Status;
use std::test::Fail;

/// Three units that weigh 1, in bins of capacity 2 that cost 3.
const THREE: &str = "1 1 2 3 -1 1 1 3 1";

/// Two units that weigh 6, in one bin of capacity 10.
const ONE_BIN: &str = "1 1 10 1 1 1 1 2 6";

/// Two units that weigh 6, in one bin of cost 1 or in bins of cost 5.
const TWO_TYPES: &str = "1 2 10 1 1 10 5 -1 1 1 2 6";

impl Outcome {
    /// Whether the report begins with these bytes.
    fn begins(&self, text: &str) -> bool {
        self.out.bytes().starts_with(text.as_bytes())
    }
}

#[test]
fn outcomes_are_told_and_left(rt: HostRuntime) -> Result<(), Fail> {
    for (words, text, begin, made) in [
        (
            "solve --mvp a",
            THREE,
            "optimal 6\n1 type 1: 1.1*1\n1 type 1: 1.1*2\nsplits ",
            true,
        ),
        ("solve a --mvp --nodes=0", THREE, "bracket 5 6\n", true),
        ("solve a --mvp", ONE_BIN, "infeasible\nsplits ", true),
        (
            "solve a --mvp",
            TWO_TYPES,
            "optimal 6\n1 type 1: 1.1*1\n1 type 2: 1.1*1\nsplits ",
            true,
        ),
        (
            "make 17 2 --nodes 4 --workers 8",
            "",
            "make 17 2 units ",
            true,
        ),
        ("bound a --mvp --cert c", THREE, "bound 6 ", false),
        ("compile a --mvp", THREE, "dims 1 ", false),
        ("solve b", THREE, "", false),
    ] {
        let outcome = run_failing(&rt, rt.alloc(), words, text, (99, 99, 99))?;
        assert!(rt; outcome.begins(begin), "{words} {text}");
        assert_eq!(rt; outcome.made, made, "{words} {text}");
    }
    Ok(())
}
