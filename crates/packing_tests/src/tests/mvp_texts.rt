//! Texts of the layout with several types of bins.

use crate::tests::layouts::{Layout, expect_faults, fault_of, repeated};
use arc_num::MAX_INSTANCE;
use mvp_reader::{a_text_reads_as_its_row, examples_come_out, memory_is_no_place, read_mvp};
use packing_laws::ReadFault;
use packing_laws::ReadFault::{Extra, NotNumber, Range, Short, Total, ZeroWeight};
use std::test::Fail;

#[test]
fn a_text_reads(rt: HostRuntime) -> Result<(), Fail> {
    let text = b"2 2\n10 5 4 2\n0 7 0 -1\n1\n2 3 6 0 0 2\ncaps 1 1 2\n";
    prove!(text.len() <= MAX_INSTANCE);
    let instance = read_mvp(rt.alloc(), text)?;
    assert_eq!(rt;
        (
            instance.dims(),
            instance.type_count(),
            instance.item_count()
        ),
        (2, 2, 1)
    );
    assert_eq!(rt; instance.units(), 3);
    assert_eq!(rt; instance.cap_of(1), Some(2));
    a_text_reads_as_its_row();
    memory_is_no_place();
    examples_come_out();
    Ok(())
}

/// Texts at the limits of each place, and their first bad place.
const LIMITS: [(&str, Option<ReadFault>); 16] = [
    ("", Some(Short { index: 1 })),
    ("33", Some(Range { index: 1 })),
    ("1 0", Some(Range { index: 2 })),
    ("1 65", Some(Range { index: 2 })),
    ("1 1 2147483647 2147483647 2147483647 0", None),
    ("1 1 2147483648", Some(Range { index: 3 })),
    ("1 1 5 2147483648", Some(Range { index: 4 })),
    ("1 1 5 -1", Some(NotNumber { index: 4 })),
    ("1 1 5 1 2147483648", Some(Range { index: 5 })),
    ("1 1 5 1 -1 1001", Some(Range { index: 6 })),
    ("1 1 5 1 -1 1 0 1", Some(Range { index: 7 })),
    ("1 1 5 1 -1 1 65", Some(Range { index: 7 })),
    ("1 1 5 1 -1 1 1 1000001", Some(Range { index: 8 })),
    (
        "2 1 5 5 1 -1 1 2 1 1 0 0 0",
        Some(ZeroWeight {
            index: 13,
            item: 1,
            form: 2,
        }),
    ),
    ("1 1 2 3 -1 1 1 1000000 2147483647", None),
    ("1 1 2 3 -1 1 1 3 1 1", Some(Extra { index: 10 })),
];

#[test]
fn each_place_has_its_limits(rt: HostRuntime) {
    expect_faults(&rt, rt.alloc(), Layout::Mvp, &LIMITS);
}

/// Texts with caps, and their first bad place.
const CAPS: [(&str, Option<ReadFault>); 12] = [
    ("1 1 2 3 -1 1 1 3 1 caps 1 1 1000000", None),
    ("1 1 2 3 -1 1 1 3 1 caps", Some(Short { index: 11 })),
    ("1 1 2 3 -1 1 1 3 1 caps 2", Some(Range { index: 11 })),
    ("1 1 2 3 -1 1 1 3 1 caps 1 1 0", Some(Range { index: 13 })),
    (
        "1 1 2 3 -1 1 1 3 1 caps 1 1 1000001",
        Some(Range { index: 13 }),
    ),
    (
        "1 1 2 3 -1 1 1 3 1 caps 1 1 -1",
        Some(NotNumber { index: 13 }),
    ),
    ("1 1 2 3 -1 1 1 3 1 Caps 1 1 2", Some(Extra { index: 10 })),
    ("1 1 2 3 -1 1 1 3 1 caps 0", None),
    ("1 1 2 3 -1 1 1 3 1 caps 0 5", Some(Extra { index: 12 })),
    (
        "1 1 2 3 -1 2 1 3 1 1 3 1 caps 2 2 1 1 1",
        Some(Range { index: 17 }),
    ),
    (
        "32 1 7 1 1 1 1 1 1 1 1 1 1 1 1 1 1 1 1 1 1 1 1 1 1 1 1 1 1 1 1 1 1 1 3 -1 0 caps 0",
        None,
    ),
    (
        "31 1 1 1 1 1 1 1 1 1 1 1 1 1 1 1 1 1 1 1 1 1 1 1 1 1 1 1 1 1 1 1 1 3 -1 2 1 1 1 1 1 1 1 1 1 1 1 1 1 1 1 1 1 1 1 1 1 1 1 1 1 1 1 1 1 1 1 1 1 1 1 1 1 1 1 1 1 1 1 1 1 1 1 1 1 1 1 1 1 1 1 1 1 1 1 1 1 1 1 1 1 1 caps 2 1 1 2 1",
        Some(Range { index: 104 }),
    ),
];

#[test]
fn caps_have_their_places(rt: HostRuntime) {
    expect_faults(&rt, rt.alloc(), Layout::Mvp, &CAPS);
}

#[test]
fn so_many_types_and_items_read(rt: HostRuntime) -> Result<(), Fail> {
    let mut types = repeated(rt.alloc(), b"1 64", b" 5 1 -1", 64)?;
    types.extend_from_slice(b" 0")?;
    assert_eq!(rt; fault_of(rt.alloc(), Layout::Mvp, types.as_slice()), None);
    let items = repeated(rt.alloc(), b"1 1 5 1 -1 1000", b" 1 1 1", 1_000)?;
    assert_eq!(rt; fault_of(rt.alloc(), Layout::Mvp, items.as_slice()), None);
    Ok(())
}

#[test]
fn forms_are_counted_over_all_items(rt: HostRuntime) -> Result<(), Fail> {
    let item = repeated(rt.alloc(), b" 64 1", b" 1", 64)?;
    let mut text = repeated(rt.alloc(), b"1 1 10 1 -1 126", item.as_slice(), 125)?;
    assert_eq!(rt;
        fault_of(rt.alloc(), Layout::Mvp, text.as_slice()),
        Some(Short { index: 8_257 })
    );
    text.extend_from_slice(b" 1 1 1")?;
    assert_eq!(rt;
        fault_of(rt.alloc(), Layout::Mvp, text.as_slice()),
        Some(Total { index: 8_257 })
    );
    Ok(())
}
