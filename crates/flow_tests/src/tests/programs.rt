//! A worked text both ways, texts with one fault each, and each form of line.

ghost use Rattle.std.specs.Prelude.{IfOk};
ghost use Rattle.flow_model.specs.Programs.{IsProgram};

use flow_model::Program;
use mps_text::{
    MpsCause, MpsFault, examples_come_out, meanings_are_given, meanings_keep_the_rules, read_mps,
    three_units_keep_the_rules, write_mps, written_is_read,
};
use std::alloc::Global;
use std::test::Fail;

const THREE_UNITS: &[u8] =
    b"NAME vpack\nROWS\n N COST\n E N1_1\n E N1_2\n E N1_3\n G D1\nCOLUMNS\n MARK1 'MARKER' 'INTORG'\n Z1 COST 3\n Z1 N1_1 1\n Z1 N1_3 -1\n F2 N1_1 -1\n F2 N1_2 1\n F2 D1 1\n F3 N1_1 -1\n F3 N1_3 1\n F4 N1_2 -1\n F4 N1_3 1\n F5 N1_2 -1\n F5 N1_3 1\n F5 D1 1\n MARK2 'MARKER' 'INTEND'\nRHS\n RHS D1 3\nBOUNDS\n UP BND Z1 3\n UP BND F2 3\n UP BND F3 3\n UP BND F4 3\n UP BND F5 3\nENDATA\n";

const BOUND_MISSING: &[u8] =
    b"NAME vpack\nROWS\n N COST\n E N1_1\n E N1_2\n E N1_3\n G D1\nCOLUMNS\n MARK1 'MARKER' 'INTORG'\n Z1 COST 3\n Z1 N1_1 1\n Z1 N1_3 -1\n F2 N1_1 -1\n F2 N1_2 1\n F2 D1 1\n F3 N1_1 -1\n F3 N1_3 1\n F4 N1_2 -1\n F4 N1_3 1\n F5 N1_2 -1\n F5 N1_3 1\n F5 D1 1\n MARK2 'MARKER' 'INTEND'\nRHS\n RHS D1 3\nBOUNDS\n UP BND Z1 3\n UP BND F2 3\n UP BND F3 3\n UP BND F4 3\nENDATA\n";

const EACH_FORM: &[u8] =
    b"NAME a b\r\n* note\r\nROWS\r\n\tN\tC\r\n E R\r\n G S\r\nCOLUMNS\r\n M 'MARKER' 'INTORG'\r\n X S 1 C -2\r\n X R 8\r\n Y\tS\t3\tR\t0\r\n M 'MARKER' 'INTEND'\r\n \t\r\nRHS\r\n B R -4 S 5\r\nBOUNDS\r\n FX B X 6\r\n LO B Y 1\r\n UP B Y 7\r\nENDATA\r\n";

/// The same program as it is written.
const EACH_FORM_WRITTEN: &[u8] =
    b"NAME vpack\nROWS\n N C\n E R\n G S\nCOLUMNS\n MARK1 'MARKER' 'INTORG'\n X C -2\n X R 8\n X S 1\n Y S 3\n MARK2 'MARKER' 'INTEND'\nRHS\n RHS R -4\n RHS S 5\nBOUNDS\n FX BND X 6\n LO BND Y 1\n UP BND Y 7\nENDATA\n";

fn read(alloc: Global, text: &[u8]) -> Result<Program, MpsFault>
    ensures { IfOk result (λ p. IsProgram p) }
{
    if text.len() < 1 << 32 {
        read_mps(alloc, text)
    } else {
        Err(MpsFault::Memory)
    }
}

#[test]
fn texts_are_read_and_written(rt: HostRuntime) -> Result<(), Fail> {
    let alloc = rt.alloc();
    examples_come_out();
    three_units_keep_the_rules();
    written_is_read();
    meanings_keep_the_rules();
    meanings_are_given();
    for (text, expected) in [(THREE_UNITS, THREE_UNITS), (EACH_FORM, EACH_FORM_WRITTEN)] {
        let written = write_mps(alloc, &read(alloc, text)?)?;
        assert!(rt; written.as_slice() == expected);
    }
    Ok(())
}

/// Texts with one fault each, the line of it and its cause.
const CAUSES: [(&[u8], u64, MpsCause); 11] = [
    (b"NAME\n", 2, MpsCause::Section),
    (b"NAME\nROWS\n N\n", 3, MpsCause::Fields),
    (b"NAME\n* note\nROWS\n\n N C\n N D\n", 6, MpsCause::Kind),
    (b"NAME\nROWS\n N C\n E C\n", 4, MpsCause::Name),
    (b"NAME\nROWS\n N C\nCOLUMNS\n X C 1\n", 5, MpsCause::Real),
    (
        b"NAME\nROWS\n N C\nCOLUMNS\n M 'MARKER' 'INTORG'\n X Q 1\n",
        6,
        MpsCause::Row,
    ),
    (
        b"NAME\nROWS\n N C\nCOLUMNS\n M 'MARKER' 'INTORG'\n X C +1\n",
        6,
        MpsCause::Value,
    ),
    (
        b"NAME\nROWS\n N C\nCOLUMNS\n M 'MARKER' 'INTORG'\n X C 0\n X C 1\n",
        7,
        MpsCause::Twice,
    ),
    (
        b"NAME\nROWS\n N C\nCOLUMNS\nBOUNDS\n UP B Y 1\n",
        6,
        MpsCause::Column,
    ),
    (
        b"NAME\nROWS\n N C\n E R\nCOLUMNS\nRHS\n B C 1\n",
        7,
        MpsCause::Row,
    ),
    (BOUND_MISSING, 31, MpsCause::Bound),
];

#[test]
fn each_cause_has_its_line(rt: HostRuntime) {
    for (text, line, cause) in CAUSES {
        assert!(rt; read(rt.alloc(), text).is_err_and(|e| e == MpsFault::Bad { line, cause }));
    }
}
