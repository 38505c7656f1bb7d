//! The best ways through the nodes of a type, in passes over its arcs.

ghost use Rattle.std.specs.Prelude.{◌≡◌, ◌↔◌, ◌+◌, ◌-◌, ◌^◌, ◌<◌, ◌≤◌, [], ◌∷◌, ◌++◌, ℕ, ℤ, pos, ◌+ℤ◌, unsigned_abs, All, IsTrue, length, slice_index_or, vec_len};
ghost use Rattle.std.specs.Vec.{vec_capacity};
ghost use Rattle.path_prices.specs.inner.Tables.{IsWithin, AreWithin};
ghost use Rattle.path_prices.specs.inner.Passes.{AreArcs, ArePricesFrom, HoldsBest, IsBestOf, carried_in, ends_at, price_on, best_from};

use arc_num::{MAX_ARCS, MAX_PRICE};
use flow_graph::TypeArc;

// The whole price of an arc with this price of its own.
fn whole_price(items: &[u64], own: i64, arc: &TypeArc) -> i128
    requires own { unsigned_abs own ≤ MAX_PRICE }
    requires items { All (λ x. x ≤ MAX_PRICE) items.now }
    requires item { arc.now.item ≤ length items.now }
    ensures value { result ≡ own +ℤ pos (carried_in items.now arc.now) }
    ensures small { IsWithin (2 ^ 63) result }
{
    let own = i128::from(own);
    if arc.item == 0 {
        return own;
    }
    own + i128::from(items[arc.item as usize - 1])
}

/// Makes the value of each node the best that a way from it is worth: the prices of its arcs and the value that its last
/// node has now.
pub(crate) fn raise_values(arcs: &[TypeArc], items: &[u64], own: &[i64], values: &mut [i128])
    requires arcs { AreArcs (length values.old) (length items.now) arcs.now }
    requires few { length arcs.now ≤ MAX_ARCS }
    requires items { All (λ x. x ≤ MAX_PRICE) items.now }
    requires size { length own.now ≡ length arcs.now }
    requires own { All (λ x. unsigned_abs x ≤ MAX_PRICE) own.now }
    requires values { AreWithin (2 ^ 100) values.old }
    ensures within { AreWithin (2 ^ 101) values.new }
    ensures best { (v : ℕ) → v < length values.new → slice_index_or values.new v (pos 0) ≡ best_from (price_on items.now own.now arcs.now) (λ w. slice_index_or values.old w (pos 0)) 0 arcs.now v }
{
    for index in (0..arcs.len()).rev() {
        let arc = &arcs[index];
        let price = whole_price(items, own[index], arc);
        let there = price + values[arc.head as usize];
        let here = values[arc.tail as usize];
        values[arc.tail as usize] = here.max(there);
    }
}

// A value of a node from which no way is best: far below the price of any path.
const FAR: i128 = -1_267_650_600_228_229_401_496_703_205_376;

/// Gives the last node the value 0, and the others one far below.
pub(crate) fn reset_values(values: &mut [i128])
    requires { 0 < length values.old }
    ensures { (v : ℕ) → v < length values.new → slice_index_or values.new v (pos 0) ≡ ends_at (length values.new - 1) v }
{
    values.fill(FAR);
    let last = values.len() - 1;
    values[last] = 0;
}

/// Appends the numbers of the arcs of a way from the source that is worth the value of the source. The first arc has the
/// number `first`.
pub(crate) fn push_best_way(
    arcs: &[TypeArc],
    items: &[u64],
    own: &[i64],
    values: &[i128],
    first: u32,
    into: &mut Vec<u32>,
)
    requires arcs { AreArcs (length values.now) (length items.now) arcs.now }
    requires numbers { first + length arcs.now < 2 ^ 32 }
    requires items { All (λ x. x ≤ MAX_PRICE) items.now }
    requires size { length own.now ≡ length arcs.now }
    requires own { All (λ x. unsigned_abs x ≤ MAX_PRICE) own.now }
    requires values { AreWithin (2 ^ 101) values.now }
    requires source { 1 < length values.now }
    requires empty { into.old.items ≡ [] }
    requires room { length values.now ≤ vec_capacity into.old + 1 }
    ensures { (price : ℕ → ℤ) → ArePricesFrom price first items.now own.now arcs.now → HoldsBest price (length values.now - 1) first arcs.now values.now → IsBestOf price (length values.now - 1) first arcs.now (slice_index_or values.now 1 (pos 0)) into.new.items }
{
    let mut node = 1;
    let mut left = values[1];
    for index in 0..arcs.len() {
        let arc = &arcs[index];
        if goes_on(items, own[index], arc, values, node, left) {
            push_within(into, first + index as u32);
            node = arc.head;
            left = values[node as usize];
        }
    }
}

// Whether the arc goes out of the node, and its price and the value of its head are together what is left.
fn goes_on(items: &[u64], own: i64, arc: &TypeArc, values: &[i128], node: u32, left: i128) -> bool
    requires own { unsigned_abs own ≤ MAX_PRICE }
    requires items { All (λ x. x ≤ MAX_PRICE) items.now }
    requires item { arc.now.item ≤ length items.now }
    requires values { AreWithin (2 ^ 101) values.now }
    requires head { arc.now.head < length values.now }
    ensures { IsTrue result ↔ ((arc.now.tail ≡ node) × (left ≡ (own +ℤ pos (carried_in items.now arc.now)) +ℤ slice_index_or values.now arc.now.head (pos 0))) }
{
    let there = whole_price(items, own, arc) + values[arc.head as usize];
    arc.tail == node && left == there
}

// Appends a number where there is room.
fn push_within(into: &mut Vec<u32>, number: u32)
    requires { vec_len into.old < vec_capacity into.old }
    ensures items { into.new.items ≡ into.old.items ++ number ∷ [] }
    ensures length { vec_len into.new ≡ vec_len into.old + 1 }
    ensures room { vec_capacity into.old ≤ vec_capacity into.new }
{
    let _ = into.push(number);
}
