//! The ranks of labels among the different ones.

ghost use Rattle.std.specs.Prelude.{◌≡◌, ◌<◌, true, Contains, length, All, IfOk, List, ℕ, slice_index, slice_index_or};
ghost use Rattle.std.specs.Cmp.{IsTotalOrder};
ghost use Rattle.std.specs.List.Sorted.{IsStrictlySortedBy};
ghost use Rattle.joint_graph.specs.Numbers.{IsNumber};
ghost use Rattle.joint_graph.specs.inner.Ranks.{AreRanks};

use arc_num::Memory;
use label_graph::sort_distinct;
use std::alloc::Global;

// A number for each label, from 1 on, and how many different ones there are.
#[derive(Drop)]
pub struct Ranks {
    pub numbers: Vec<u64>,
    pub count: u64,
}

// The place of the wanted element, from 1 on.
pub fn number_in<T: Ord>(sorted: &[T], wanted: &T) -> u64
    requires exact { (x y : T) → T.eq x y ≡ true → x ≡ y }
    requires ordered { IsStrictlySortedBy T.cmp sorted.now }
    requires there { Contains sorted.now wanted.now }
    ensures { IsNumber sorted.now result wanted.now }
{
    match sorted.binary_search(wanted) {
        Ok(index) => index as u64 + 1,
        Err(_) => unreachable!(),
    }
}

// The rank of each label: equal ones have the same, and greater ones a greater one.
pub fn rank_all<T: Ord + Copy + Drop>(alloc: Global, labels: &[T]) -> Result<Ranks, Memory>
    requires exact { (x y : T) → T.eq x y ≡ true → x ≡ y }
    ensures { IfOk result (λ r. (distinct : List T) × AreRanks T.cmp labels.now distinct r.numbers.items × (r.count ≡ length distinct)) }
{
    let mut distinct = Vec::from_slice(alloc, labels)?;
    sort_distinct(&mut distinct);
    let numbers = numbers_in(alloc, distinct.as_slice(), labels)?;
    Ok(Ranks {
        numbers,
        count: distinct.as_slice().len() as u64,
    })
}

// The place of each label among the different ones.
fn numbers_in<T: Ord + Copy + Drop>(
    alloc: Global,
    distinct: &[T],
    labels: &[T],
) -> Result<Vec<u64>, Memory>
    requires exact { (x y : T) → T.eq x y ≡ true → x ≡ y }
    requires ordered { IsStrictlySortedBy T.cmp distinct.now }
    requires there { All (λ l. Contains distinct.now l) labels.now }
    ensures sized { IfOk result (λ numbers. length numbers.items ≡ length labels.now) }
    ensures each { IfOk result (λ numbers. (i : ℕ) (d : T) → i < length labels.now → IsNumber distinct.now (slice_index numbers.items i) (slice_index_or labels.now i d)) }
{
    let mut numbers = Vec::with_capacity(alloc, labels.len())?;
    for index in 0..labels.len() {
        numbers.push(number_in(distinct, &labels[index]))?;
    }
    Ok(numbers)
}

// A call that costs nothing: any order is total.
pub fn order_is_total<T: Ord>()
    ensures { IsTotalOrder T.cmp }
{}
