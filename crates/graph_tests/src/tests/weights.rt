//! Weights in two dimensions.

use crate::tests::fixtures::needs_send;
use std::test::Fail;
use weight_vec::{
    Weights, at_most_comes_before, padding_keeps_fits, padding_keeps_order, sums_keep_order,
};

#[test]
fn two_dimensions(rt: HostRuntime) -> Result<(), Fail> {
    let zero = Weights::<2>::zero();
    assert!(rt; zero.is_zero());
    let Some(small) = Weights::<2>::pad_from(&[3]) else {
        return Err("one weight is not too many".into());
    };
    let Some(great) = Weights::<2>::pad_from(&[5, 7]) else {
        return Err("two weights are not too many".into());
    };
    assert!(rt; Weights::<2>::pad_from(&[1, 2, 3]).is_none());
    assert_eq!(rt; (small.get(0), small.get(1)), (3, 0));
    assert!(rt; small.fits(&great) && !great.fits(&small));
    assert!(rt; small < great);
    let Some(sum) = small.add(&great) else {
        return Err("8 and 7 are not too great".into());
    };
    assert_eq!(rt; sum, small.plus(&great));
    assert_eq!(rt; (sum.get(0), sum.get(1)), (8, 7));
    assert_eq!(rt; small.low(&great), small);
    assert_eq!(rt; small.high(&great), great);
    assert!(rt; small.sub(&great).is_none());
    assert_eq!(rt; great.sub(&zero), Some(great));
    needs_send(&small);
    Ok(())
}

#[test]
fn laws_hold() {
    at_most_comes_before();
    sums_keep_order();
    padding_keeps_fits();
    padding_keeps_order();
}
