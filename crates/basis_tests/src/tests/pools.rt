use arc_num::Memory;
use column_pool::{Arcs, Awake, Column, ColumnPool, Content, Split, SplitRow, Way};
use simplex_basis::{
    Aim, Basic, Basis, BasisFault, Coefficient, Columns, ONE, Row, Sense, Variable,
};
use std::alloc::Global;
use std::test::Fail;

fn way(alloc: Global, bin_type: u32, arcs: &[u32]) -> Result<Way, Memory> {
    let arcs = Arcs::new(Vec::from_slice(alloc, arcs)?);
    Ok(Way { bin_type, arcs })
}

/// A column with so many copies of item 1, whose row is row 0.
fn column(alloc: Global, cost: u32, copies: u32) -> Result<Column, Memory> {
    let content = Content {
        item: 1,
        form: 1,
        copies,
    };
    let coefficient = Coefficient {
        row: 0,
        value: copies.min(9) as i32,
    };
    Ok(Column {
        cost,
        coefficients: Vec::from_slice(alloc, [coefficient].as_slice())?,
        contents: Vec::from_slice(alloc, [content].as_slice())?,
    })
}

/// Puts a way with its column into a pool: its number, and whether it is new.
fn put(
    pool: &mut ColumnPool,
    alloc: Global,
    way: Way,
    cost: u32,
    copies: u32,
) -> Result<(usize, bool), Memory> {
    let place = pool.put(way, column(alloc, cost, copies)?)?;
    Ok((place.number, place.is_new))
}

/// Two ways of a first type, which takes one unit or two, and one of a second type.
fn three_ways(alloc: Global) -> Result<ColumnPool, Memory> {
    let mut pool = ColumnPool::new(alloc);
    for (bin_type, first, cost, copies) in [(1, 2, 3, 1), (1, 3, 3, 2), (2, 2, 2, 1)] {
        let way = way(alloc, bin_type, [first, 5].as_slice())?;
        let _place = put(&mut pool, alloc, way, cost, copies)?;
    }
    Ok(pool)
}

fn cost_of(pool: &ColumnPool, number: usize) -> Option<u32> {
    match pool.get(number) {
        Some((_, column)) => Some(column.cost),
        None => None,
    }
}

#[test]
fn each_way_stands_once(rt: HostRuntime) -> Result<(), Fail> {
    let alloc = rt.alloc();
    let mut pool = three_ways(alloc)?;
    pool.known();
    assert_eq!(rt; (pool.len(), pool.is_empty()), (3, false));
    let again = way(alloc, 1, [3, 5].as_slice())?;
    assert_eq!(rt; put(&mut pool, alloc, again, 9, 9)?, (1, false));
    assert_eq!(rt; (cost_of(&pool, 1), cost_of(&pool, 3)), (Some(3), None));
    Ok(())
}

/// All three ways awake, with a row that counts those with arc 2.
fn all_awake(alloc: Global) -> Result<Awake, Memory> {
    let pool = three_ways(alloc)?;
    let counted = SplitRow {
        split: Split::Arc(2),
        row: 1,
    };
    let mut awake = Awake::new(alloc, [counted].as_slice())?;
    for number in [0, 1, 1, 2, 7] {
        let _fresh = awake.wake(&pool, number)?;
    }
    Ok(awake)
}

#[test]
fn columns_are_woken_once(rt: HostRuntime) -> Result<(), Fail> {
    let awake = all_awake(rt.alloc())?;
    assert_eq!(rt; (awake.len(), awake.is_awake(2)), (3, true));
    assert_eq!(rt; awake.number_at(1), Some(1));
    let entries = (awake.coefficients(0).len(), awake.coefficients(1).len());
    assert_eq!(rt; entries, (2, 1));
    Ok(())
}

/// At least four units, from bins of which at most one has arc 2: each unit costs a bin and a half of column 1.
fn by_second_column(alloc: Global, awake: &Awake) -> Result<Basis, BasisFault> {
    let units = Row {
        sense: Sense::AtLeast,
        bound: 4,
    };
    let counted = Row {
        sense: Sense::AtMost,
        bound: 1,
    };
    let start = Basic {
        variable: Variable::Column(1),
        cost: 3,
    };
    let mut basis = Basis::new(alloc, [units, counted].as_slice(), 40)?;
    basis.rebuild([start].as_slice(), awake)?;
    Ok(basis)
}

#[test]
fn the_cheapest_column_that_is_awake_is_found(rt: HostRuntime) -> Result<(), Fail> {
    let awake = all_awake(rt.alloc())?;
    let basis = by_second_column(rt.alloc(), &awake)?;
    assert_eq!(rt; basis.aim(), Aim::Cheapest);
    assert_eq!(rt; basis.value()? / i128::from(ONE), 6);
    let (prices, unit) = (basis.prices(), basis.unit());
    assert_eq!(rt; awake.cheapest(prices, unit, 0), None);
    assert_eq!(rt; awake.cheapest(prices, unit, ONE), Some(1));
    let mut reduced = Vec::new(rt.alloc());
    awake.push_reduced(prices, unit, &mut reduced)?;
    assert_eq!(rt; reduced.as_slice(), [ONE + ONE / 2, 0, ONE / 2].as_slice());
    Ok(())
}
