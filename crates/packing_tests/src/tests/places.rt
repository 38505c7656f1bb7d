//! Walks over the places of a text.

use layout_walk::{Places, caps, each_text_reads_or_has_a_bad_place, form, vector};
use packing_laws::{ItemCap, ReadFault};
use std::test::Fail;

#[test]
fn places_are_walked(rt: HostRuntime) -> Result<(), Fail> {
    let mut places = Places::new(b"7 -1 3 0 5 0 0 9");
    assert_eq!(rt; places.number(7, 7)?, 7);
    assert_eq!(rt; places.limit()?, None);
    assert_eq!(rt; places.limit()?, Some(3));
    let weights = form(rt.alloc(), &mut places, 2, 1, 1)?;
    assert_eq!(rt; weights.as_slice(), [0, 5].as_slice());
    let zero = ReadFault::ZeroWeight {
        index: 7,
        item: 2,
        form: 4,
    };
    assert_eq!(rt; form(rt.alloc(), &mut places, 2, 2, 4).err(), Some(zero));
    assert_eq!(rt; places.count(), 7);
    assert_eq!(rt; places.end(), Err(ReadFault::Extra { index: 8 }));
    assert_eq!(rt; places.end(), Ok(()));
    assert_eq!(rt; places.number(0, 9), Err(ReadFault::Short { index: 9 }));
    each_text_reads_or_has_a_bad_place();
    Ok(())
}

#[test]
fn a_vector_may_be_all_zeros(rt: HostRuntime) -> Result<(), Fail> {
    let mut places = Places::new(b"0 0 4");
    let zeros = vector(rt.alloc(), &mut places, 2)?;
    assert_eq!(rt; zeros.as_slice(), [0, 0].as_slice());
    assert_eq!(rt; places.number(1, 4)?, 4);
    Ok(())
}

#[test]
fn caps_are_walked(rt: HostRuntime) -> Result<(), Fail> {
    let listed = caps(rt.alloc(), &mut Places::new(b"caps 2 1 7 3 9"), 30, 3)?;
    let expected = [ItemCap { item: 1, count: 7 }, ItemCap { item: 3, count: 9 }];
    assert_eq!(rt; listed.as_slice(), expected.as_slice());
    let none = caps(rt.alloc(), &mut Places::new(b" \n"), 32, 3)?;
    assert!(rt; none.is_empty());
    let past_32 = caps(rt.alloc(), &mut Places::new(b"caps 2 1 7 3 9"), 31, 3);
    assert_eq!(rt; past_32.err(), Some(ReadFault::Range { index: 2 }));
    assert_eq!(rt; Places::new(b"caps").caps_word(), Ok(true));
    let other = Places::new(b"Caps").caps_word();
    assert_eq!(rt; other, Err(ReadFault::Extra { index: 1 }));
    Ok(())
}
