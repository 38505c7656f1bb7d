use crate::tests::ends_so;
use arc_program::Status;
use std::test::Fail;

const MODEL: &str = "NAME vpack\nROWS\n N COST\n E N1_1\n E N1_2\n E N1_3\n G D1\nCOLUMNS\n\
     \x20MARK1 'MARKER' 'INTORG'\n Z1 COST 3\n Z1 N1_1 1\n Z1 N1_3 -1\n F2 N1_1 -1\n F2 N1_2 1\n\
     \x20F2 D1 1\n F3 N1_1 -1\n F3 N1_3 1\n F4 N1_2 -1\n F4 N1_3 1\n F5 N1_2 -1\n F5 N1_3 1\n\
     \x20F5 D1 1\n MARK2 'MARKER' 'INTEND'\nRHS\n RHS D1 3\nBOUNDS\n UP BND Z1 3\n UP BND F2 3\n\
     \x20UP BND F3 3\n UP BND F4 3\n UP BND F5 3\nENDATA\n";

/// The model over one graph for two types, the first of which has one bin.
const JOINT_MODEL: &str = "NAME vpack\nROWS\n N COST\n E N1\n E N2\n E N3\n E N4\n G D1\nCOLUMNS\n\
     \x20MARK1 'MARKER' 'INTORG'\n Z1 COST 1\n Z1 N1 1\n Z1 N3 -1\n Z2 COST 5\n Z2 N1 1\n\
     \x20Z2 N4 -1\n F3 N1 -1\n F3 N2 1\n F3 D1 1\n F4 N1 -1\n F4 N3 1\n F5 N1 -1\n F5 N4 1\n\
     \x20F6 N2 -1\n F6 N3 1\n F7 N2 -1\n F7 N4 1\n MARK2 'MARKER' 'INTEND'\nRHS\n RHS D1 2\n\
     BOUNDS\n UP BND Z1 1\n UP BND Z2 2\n UP BND F3 2\n UP BND F4 2\n UP BND F5 2\n\
     \x20UP BND F6 2\n UP BND F7 2\nENDATA\n";

#[test]
fn reports_and_refusals_come_out(rt: HostRuntime) -> Result<(), Fail> {
    for (words, text, status, out, said) in [
        (
            "compile a",
            "1 9 3 4 1 3 3 2 1",
            Status::Done,
            "dims 1 types 1 items 3 units 5\ntype 1 level 20 29 main 6 11 final 6 11\narcs 12\n",
            "",
        ),
        (
            "compile a",
            "1 10 2 6 1 5 1",
            Status::Done,
            "dims 1 types 1 items 2 units 2\ntype 1 level 6 7 main 3 4 final 2 3\narcs 4\n",
            "",
        ),
        (
            "compile a --mvp --workers 2",
            "1 2 10 1 1 7 2 -1 2 2 2 6 4 1 3 5",
            Status::Done,
            "dims 1 types 2 items 2 units 5\ntype 1 level 15 21 main 5 9 final 4 8\n\
             type 2 level 10 12 main 4 6 final 2 4\narcs 14\n",
            "",
        ),
        (
            "export --mvp a",
            "1 1 2 3 -1 1 1 3 1",
            Status::Done,
            MODEL,
            "",
        ),
        (
            "export --joint --mvp a",
            "1 2 10 1 1 10 5 -1 1 1 2 6",
            Status::Done,
            JOINT_MODEL,
            "",
        ),
        (
            "solve a",
            "1 10 1 6 3",
            Status::Done,
            "optimal 3\n3 type 1: 1.1*1\nsplits 0 plain 0\n",
            "",
        ),
        (
            "solve a",
            "1 10 0",
            Status::Done,
            "optimal 0\nsplits 0 plain 0\n",
            "",
        ),
        (
            "solve a",
            "1 10 1 11 1",
            Status::Done,
            "infeasible\nsplits 0 plain 0\n",
            "",
        ),
        (
            "solve --workers=64 --mvp a",
            "2 1 3 3 1 -1 1 2 2 3 0 0 3",
            Status::Done,
            "optimal 1\n1 type 1: 1.1*1 1.2*1\nsplits 0 plain 0\n",
            "",
        ),
        (
            "solve a --nodes 0 --mvp",
            "1 1 2 3 -1 1 1 3 1",
            Status::Bracketed,
            "bracket 5 6\n1 type 1: 1.1*1\n1 type 1: 1.1*2\nsplits 0 plain 0\n",
            "",
        ),
        (
            "make 1 1",
            "",
            Status::Done,
            "make 1 1 units 39 material 10\ntype 1 main 5 8 final 5 8\noptimal 10\n",
            "",
        ),
        ("", "", Status::Usage, "", "vpack: no command\n"),
        ("solve", "", Status::Usage, "", "vpack: too few words\n"),
        (
            "compile a --cert b",
            "",
            Status::Usage,
            "",
            "vpack: word 3: no such option\n",
        ),
        (
            "export --joint=a b",
            "",
            Status::Usage,
            "",
            "vpack: word 2: bad value\n",
        ),
        (
            "solve a --joint",
            "",
            Status::Usage,
            "",
            "vpack: word 3: no such option\n",
        ),
        (
            "solve -- -x",
            "",
            Status::ReadFault,
            "",
            "vpack: cannot read -x\n",
        ),
        (
            "solve a",
            "",
            Status::BadInstance,
            "",
            "vpack: a: token 1: missing\n",
        ),
        (
            "solve a",
            "1 10 1 6 3 7",
            Status::BadInstance,
            "",
            "vpack: a: token 6: one token too many\n",
        ),
        (
            "solve a",
            "1 10 1 0 1",
            Status::BadInstance,
            "",
            "vpack: a: token 4: item 1 form 1 has no weight\n",
        ),
        (
            "export a",
            "1 10 1 6 1000001",
            Status::BadInstance,
            "",
            "vpack: a: token 5: out of range\n",
        ),
        (
            "export --joint a",
            "1 10 1 6",
            Status::BadInstance,
            "",
            "vpack: a: token 5: missing\n",
        ),
        (
            "compile a",
            "1 10 1 6 -1",
            Status::BadInstance,
            "",
            "vpack: a: token 5: not a number\n",
        ),
    ] {
        let so = ends_so(&rt, rt.alloc(), words, "a", text, status, out, said)?;
        assert!(rt; so, "{words} {text}");
    }
    Ok(())
}
