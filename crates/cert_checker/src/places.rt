//! Which lines may stand where.

ghost use Rattle.std.specs.Prelude.{◌≡◌, ◌↔◌, ℕ, ◌<◌, ◌≤◌, All, AllPairs, IsTrue, length, unsigned_abs};
ghost use Rattle.cert_text.specs.Lines.{IsBetween, ArePrices, IsNeed, IsClaim, IsGoal, IsTreeLine, IsInPlace};
ghost use Rattle.cert_text.specs.declared.lines.CertLine.{CertLine};
ghost use Rattle.cert_checker.specs.inner.Rising.{rises, is_price};

use arc_num::{MAX_DIMS, MAX_ITEMS, MAX_NUMBERED, MAX_PRICE, MAX_VALUE};
use cert_text::{ArcPart, ArcPrice, Claim, ItemPrice, Need, Prices, TreeLine};

/// Whether the head of this version may stand behind so many lines.
pub(crate) fn is_head_place(count: u64, version: u32) -> bool
    ensures { (before : ℕ) → IsTrue result ↔ IsInPlace count before (CertLine.Head version) }
{
    count == 0 && version >= 1 && version <= 3
}

/// Whether this claim may stand behind so many lines in a version.
pub(crate) fn is_claim_place(count: u64, version: u32, claim: &Claim, goal: Option<u64>) -> bool
    ensures { IsTrue result ↔ IsInPlace count version (CertLine.Claim claim.now goal) }
{
    count == 1 && is_claim(claim) && is_goal(version, claim, goal)
}

/// Whether this place of the tree may stand behind so many lines in a version.
pub(crate) fn is_tree_place(count: u64, version: u32, line: &TreeLine) -> bool
    ensures { IsTrue result ↔ IsInPlace count version (CertLine.Tree line.now) }
{
    count >= 2 && is_place(version, line)
}

/// Whether a claim is one that a line can tell.
fn is_claim(claim: &Claim) -> bool
    ensures { IsTrue result ↔ IsClaim claim.now }
{
    match *claim {
        Claim::Bound(bound) => bound <= MAX_PRICE,
        Claim::Empty => true,
    }
}

/// Whether a claim of a version may have a goal.
fn is_goal(version: u32, claim: &Claim, goal: Option<u64>) -> bool
    requires { IsClaim claim.now }
    ensures { IsTrue result ↔ IsGoal version claim.now goal }
{
    match (claim, goal) {
        (Claim::Empty, goal) => goal.is_none(),
        (Claim::Bound(_), None) => version == 1,
        (Claim::Bound(bound), Some(goal)) => {
            version >= 2 && (goal == *bound || goal == *bound + 1)
        }
    }
}

/// Whether a place of the tree is one that a version can tell.
fn is_place(version: u32, line: &TreeLine) -> bool
    ensures { IsTrue result ↔ IsTreeLine version line.now }
{
    match line {
        TreeLine::Split { arc, .. } => *arc >= 1,
        TreeLine::Needed { arc, need, .. } => version >= 2 && *arc >= 1 && is_need(need),
        TreeLine::Leaf(prices) => are_prices(prices),
        TreeLine::Step { dim, step } => {
            version >= 3 && *dim >= 1 && *dim <= MAX_DIMS && *step <= MAX_VALUE
        }
    }
}

fn are_prices(prices: &Prices) -> bool
    ensures { IsTrue result ↔ ArePrices prices.now }
{
    are_few(prices)
        && are_item_prices(prices.items.as_slice())
        && are_arc_prices(prices.arcs.as_slice())
}

// Whether the scale and the numbers of prices are within the limits.
fn are_few(prices: &Prices) -> bool
    ensures { IsTrue result ↔ ((prices.now.scale ≤ MAX_PRICE) × (length prices.now.items ≤ MAX_ITEMS) × (length prices.now.arcs ≤ MAX_NUMBERED)) }
{
    prices.scale <= MAX_PRICE
        && prices.items.as_slice().len() <= MAX_ITEMS as usize
        && prices.arcs.as_slice().len() <= MAX_NUMBERED as usize
}

fn is_need(need: &Need) -> bool
    ensures { IsTrue result ↔ IsNeed need.now }
{
    let parts = need.parts.as_slice();
    is_price(need.scale) && parts.len() <= MAX_NUMBERED as usize && are_parts(parts)
}

// Whether a number is from 1 to 2^62.
fn is_price(price: u64) -> bool
    ensures { result ≡ is_price price }
{
    1 <= price && price <= MAX_PRICE
}

// Whether the items ascend strictly from 1 on, each with a price.
fn are_item_prices(prices: &[ItemPrice]) -> bool
    ensures { IsTrue result ↔ (AllPairs (λ x y. x.item < y.item) prices.now × All (λ x. (1 ≤ x.item) × IsBetween 1 MAX_PRICE x.price) prices.now) }
{
    items_rise(prices)
}

fn items_rise(prices: &[ItemPrice]) -> bool
    ensures { result ≡ rises (λ x. x.item) (λ x. is_price x.price) 0 prices.now }
{
    let mut last = 0;
    for listed in prices {
        if listed.item <= last || !is_price(listed.price) {
            return false;
        }
        last = listed.item;
    }
    true
}

// Whether the arcs ascend strictly from 1 on, each with a price.
fn are_arc_prices(prices: &[ArcPrice]) -> bool
    ensures { IsTrue result ↔ (AllPairs (λ x y. x.arc < y.arc) prices.now × All (λ x. (1 ≤ x.arc) × IsBetween 1 MAX_PRICE (unsigned_abs x.price)) prices.now) }
{
    arcs_rise(prices)
}

fn arcs_rise(prices: &[ArcPrice]) -> bool
    ensures { result ≡ rises (λ x. x.arc) (λ x. is_price (unsigned_abs x.price)) 0 prices.now }
{
    let mut last = 0;
    for listed in prices {
        if listed.arc <= last || !is_price(listed.price.unsigned_abs()) {
            return false;
        }
        last = listed.arc;
    }
    true
}

// Whether the arcs ascend strictly from 1 on, each with a part.
fn are_parts(parts: &[ArcPart]) -> bool
    ensures { IsTrue result ↔ (AllPairs (λ x y. x.arc < y.arc) parts.now × All (λ x. (1 ≤ x.arc) × IsBetween 1 MAX_PRICE x.value) parts.now) }
{
    parts_rise(parts)
}

fn parts_rise(parts: &[ArcPart]) -> bool
    ensures { result ≡ rises (λ x. x.arc) (λ x. is_price x.value) 0 parts.now }
{
    let mut last = 0;
    for listed in parts {
        if listed.arc <= last || !is_price(listed.value) {
            return false;
        }
        last = listed.arc;
    }
    true
}
