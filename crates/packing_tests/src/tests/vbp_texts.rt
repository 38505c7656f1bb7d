//! Texts of the layout with one type of bins.

use crate::tests::layouts::{Layout, expect_faults, fault_of, repeated};
use arc_num::MAX_INSTANCE;
use packing_laws::ReadFault;
use packing_laws::ReadFault::{Extra, NotNumber, Range, Short, ZeroWeight};
use std::test::Fail;
use vbp_reader::{
    a_text_reads_as_its_numbers, a_text_reads_as_its_row, examples_come_out, memory_is_no_place,
    read_vbp,
};

#[test]
fn a_text_reads(rt: HostRuntime) -> Result<(), Fail> {
    let text = b" 002 10 5\r\n2\t6 0 3\n0 2147483647 1000000\ncaps 1 2 7";
    prove!(text.len() <= MAX_INSTANCE);
    let instance = read_vbp(rt.alloc(), text)?;
    assert_eq!(rt;
        (
            instance.dims(),
            instance.type_count(),
            instance.item_count()
        ),
        (2, 1, 2)
    );
    assert_eq!(rt; instance.units(), 1_000_003);
    assert_eq!(rt; (instance.cap_of(1), instance.cap_of(2)), (None, Some(7)));
    a_text_reads_as_its_row();
    a_text_reads_as_its_numbers();
    memory_is_no_place();
    examples_come_out();
    Ok(())
}

/// Texts at the limits of each place, and their first bad place.
const LIMITS: [(&str, Option<ReadFault>); 17] = [
    ("", Some(Short { index: 1 })),
    ("1 10 1 6", Some(Short { index: 5 })),
    ("1 10 1 6 3", None),
    ("1 10 1 6 3 7", Some(Extra { index: 6 })),
    ("0 10 0", Some(Range { index: 1 })),
    ("9", Some(Short { index: 2 })),
    ("33", Some(Range { index: 1 })),
    ("1 2147483647 1 2147483647 1000000", None),
    ("1 2147483648 0", Some(Range { index: 2 })),
    (
        "1 99999999999999999999999999999999999 0",
        Some(Range { index: 2 }),
    ),
    ("1 10 1001", Some(Range { index: 3 })),
    ("1 10 1 2147483648 1", Some(Range { index: 4 })),
    (
        "1 10 1 0 1",
        Some(ZeroWeight {
            index: 4,
            item: 1,
            form: 1,
        }),
    ),
    ("1 10 1 6 1000001", Some(Range { index: 5 })),
    ("1 10 1 6 -1", Some(NotNumber { index: 5 })),
    ("1 1e1 0", Some(NotNumber { index: 2 })),
    ("0001 010 00", None),
];

#[test]
fn each_place_has_its_limits(rt: HostRuntime) {
    expect_faults(&rt, rt.alloc(), Layout::Vbp, &LIMITS);
}

/// Texts with caps, and their first bad place.
const CAPS: [(&str, Option<ReadFault>); 14] = [
    ("1 10 1 2 4 caps 1 1 2", None),
    ("1 10 1 2 4 caps", Some(Short { index: 7 })),
    ("1 10 1 2 4 caps 2", Some(Range { index: 7 })),
    ("1 10 1 2 4 caps 1 1 0", Some(Range { index: 9 })),
    ("1 10 1 2 4 caps 1 1 1000000", None),
    ("1 10 1 2 4 caps 1 1 1000001", Some(Range { index: 9 })),
    ("1 10 1 2 4 Caps 1 1 2", Some(Extra { index: 6 })),
    ("1 10 1 2 4 caps 0", None),
    ("1 10 1 2 4 caps 0 5", Some(Extra { index: 8 })),
    ("1 10 1 2 4 caps x", Some(NotNumber { index: 7 })),
    ("1 10 2 2 4 3 4 caps 2 2 1 1 1", Some(Range { index: 12 })),
    ("1 10 2 2 4 3 4 caps 2 1 1 2 1", None),
    (
        "32 7 1 1 1 1 1 1 1 1 1 1 1 1 1 1 1 1 1 1 1 1 1 1 1 1 1 1 1 1 1 1 1 0 caps 0",
        None,
    ),
    (
        "31 1 1 1 1 1 1 1 1 1 1 1 1 1 1 1 1 1 1 1 1 1 1 1 1 1 1 1 1 1 1 1 2 1 1 1 1 1 1 1 1 1 1 1 1 1 1 1 1 1 1 1 1 1 1 1 1 1 1 1 1 1 1 1 1 1 1 1 1 1 1 1 1 1 1 1 1 1 1 1 1 1 1 1 1 1 1 1 1 1 1 1 1 1 1 1 1 caps 2 1 1 2 1",
        Some(Range { index: 99 }),
    ),
];

#[test]
fn caps_have_their_places(rt: HostRuntime) {
    expect_faults(&rt, rt.alloc(), Layout::Vbp, &CAPS);
}

#[test]
fn a_thousand_items_read(rt: HostRuntime) -> Result<(), Fail> {
    let mut text = repeated(rt.alloc(), b"1 10 1000", b" 1 1", 1_000)?;
    assert_eq!(rt; fault_of(rt.alloc(), Layout::Vbp, text.as_slice()), None);
    text.extend_from_slice(b" caps 31")?;
    assert_eq!(rt;
        fault_of(rt.alloc(), Layout::Vbp, text.as_slice()),
        Some(Short { index: 2_006 })
    );
    text.extend_from_slice(b"1")?;
    assert_eq!(rt;
        fault_of(rt.alloc(), Layout::Vbp, text.as_slice()),
        Some(Range { index: 2_005 })
    );
    Ok(())
}
