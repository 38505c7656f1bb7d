use simplex_basis::{
    Aim, Basic, Basis, BasisFault, Broken, Coefficient, Columns, Row, Sense, Variable,
};
use std::alloc::Global;
use std::test::Fail;

/// Two rows: lengths of 4 and of 3, cut from bars of 10. The columns are the ways to cut a bar.
#[derive(Drop)]
struct Bars {
    ways: [[Coefficient; 2]; 3],
}

impl Columns for Bars {
    fn coefficients(&self, number: u32) -> &[Coefficient] {
        match self.ways.get(number as usize) {
            Some(way) => way.as_slice(),
            None => [].as_slice(),
        }
    }
}

fn cut_bars() -> Bars {
    Bars {
        ways: [way(2, 0), way(0, 3), way(1, 2)],
    }
}

fn way(first: i32, second: i32) -> [Coefficient; 2] {
    [coefficient(0, first), coefficient(1, second)]
}

fn coefficient(row: u32, value: i32) -> Coefficient {
    Coefficient { row, value }
}

fn row(sense: Sense, bound: u32) -> Row {
    Row { sense, bound }
}

fn bar(number: u32) -> Basic {
    Basic {
        variable: Variable::Column(number),
        cost: 1,
    }
}

/// In units of 2^-20, rounded.
fn rounded(value: i128) -> i128 {
    value.saturating_add(1 << 19) >> 20
}

fn level_of(basis: &Basis, row: usize) -> i128 {
    match basis.levels().get(row) {
        Some(level) => rounded(level.value()),
        None => 0,
    }
}

fn price_of(basis: &Basis, row: usize) -> i128 {
    match basis.prices().get(row) {
        Some(price) => rounded(i128::from(price.value())),
        None => 0,
    }
}

/// The value, the level of row 1 and the prices of both rows, in units of 2^-20.
fn seen(basis: &Basis) -> Result<[i128; 4], Broken> {
    let value = rounded(basis.value()?);
    Ok([
        value,
        level_of(basis, 1),
        price_of(basis, 0),
        price_of(basis, 1),
    ])
}

/// Ten pieces of the first length and twelve of the second, from bars that are cut for one length alone.
fn plain_bars(alloc: Global, bars: &Bars) -> Result<Basis, BasisFault> {
    let rows = [row(Sense::AtLeast, 10), row(Sense::AtLeast, 12)];
    let mut basis = Basis::new(alloc, rows.as_slice(), 40)?;
    basis.rebuild([bar(1), bar(0)].as_slice(), bars)?;
    Ok(basis)
}

#[test]
fn bars_are_cut_at_the_least_cost(rt: HostRuntime) -> Result<(), Fail> {
    let bars = cut_bars();
    let mut basis = plain_bars(rt.alloc(), &bars)?;
    assert_eq!(rt; seen(&basis)?, [9 << 20, 4 << 20, 1 << 19, 349525]);
    assert_eq!(rt; basis.enter(bar(2), bars.coefficients(2))?, Some(1));
    assert_eq!(rt; seen(&basis)?, [8 << 20, 6 << 20, 1 << 19, 1 << 18]);
    basis.invert(&bars)?;
    assert_eq!(rt; seen(&basis)?, [8 << 20, 6 << 20, 1 << 19, 1 << 18]);
    assert_eq!(rt; basis.pivots(), 2);
    Ok(())
}

/// At least three of a column that is in both rows, of which the second takes two.
fn three_in_two(alloc: Global, bars: &Bars) -> Result<Basis, BasisFault> {
    let rows = [row(Sense::AtLeast, 3), row(Sense::AtMost, 2)];
    let mut basis = Basis::new(alloc, rows.as_slice(), 30)?;
    basis.exchange_negatives(bars)?;
    basis.set_aim(Aim::Feasible)?;
    Ok(basis)
}

/// Gives the second row another bound.
fn widen(basis: &mut Basis, bound: u32) -> Result<(), BasisFault> {
    if basis.rows().len() > 1 {
        basis.set_bound(1, bound);
    }
    basis.compute_levels()
}

#[test]
fn rows_that_no_solution_keeps_leave_an_artificial_column(rt: HostRuntime) -> Result<(), Fail> {
    let bars = Bars {
        ways: [way(1, 1), way(0, 0), way(0, 0)],
    };
    let mut basis = three_in_two(rt.alloc(), &bars)?;
    assert_eq!(rt; rounded(basis.value()?), 3 << 20);
    assert_eq!(rt; basis.enter(bar(0), bars.coefficients(0))?, Some(1));
    assert_eq!(rt; rounded(basis.value()?), 1 << 20);
    assert!(rt; !basis.is_feasible());
    widen(&mut basis, 3)?;
    assert!(rt; basis.is_feasible());
    basis.set_aim(Aim::Cheapest)?;
    assert_eq!(rt; rounded(basis.value()?), 3 << 20);
    assert_eq!(rt; (basis.unit(), basis.aim()), (1 << 30, Aim::Cheapest));
    Ok(())
}

#[test]
fn numbers_out_of_range_are_found(rt: HostRuntime) -> Result<(), Fail> {
    let alloc = rt.alloc();
    let wide = Basis::new(alloc, [row(Sense::AtMost, u32::MAX)].as_slice(), 40);
    assert_eq!(rt; wide.err(), Some(BasisFault::Broken));
    let mut basis = Basis::new(alloc, [row(Sense::AtMost, 1)].as_slice(), 40)?;
    for column in [coefficient(1, 1), coefficient(0, 1 << 21)] {
        assert_eq!(rt; basis.enter(bar(0), [column].as_slice()), Err(Broken));
    }
    assert_eq!(rt; basis.enter(bar(0), [coefficient(0, -1)].as_slice())?, None);
    assert!(rt; basis.column_of_inverse(0).is_some());
    assert!(rt; basis.column_of_inverse(1).is_none());
    Ok(())
}
