//! A line from its fields.

ghost use Rattle.std.specs.Prelude.{◌≡◌, ◌≤◌, ◌<◌};
ghost use Rattle.cert_text.specs.inner.Fields.{word_at, prices_at, need_at, split_at, needed_at, leaf_at, step_at, tree_at, Skips, later_at, head_at, goal_at, bound_at, claimed_at, claim_at, begun_at, line_in, split_fields, Gives, GivesWhole};

use crate::faults::LineFault;
use crate::fields::{Fields, number_field, small_field};
use crate::lines::{CertLine, Claim, Need, Prices, TreeLine};
use crate::pairs::{arcs, items, parts};
use arc_num::{MAX_DIMS, MAX_ITEMS, MAX_NUMBERED, MAX_PRICE, MAX_VALUE};
use std::alloc::Global;

/// The line that a text without its line feed spells, where so many lines stand before it.
#[tactic(auto, unfolding(crate::specs::inner::Fields::line_in))]
pub(crate) fn line_of(
    alloc: Global,
    text: &[u8],
    before: u64,
    version: u32,
) -> Result<CertLine, LineFault>
    ensures { GivesWhole result (line_in before version (split_fields text.now)) }
{
    let mut fields = Fields::new(text);
    let line = begun(alloc, &mut fields, before, version)?;
    if !fields.is_empty() {
        return Err(LineFault::Bad);
    }
    Ok(line)
}

#[tactic(auto, unfolding(crate::specs::inner::Fields::begun_at))]
fn begun(
    alloc: Global,
    fields: &mut Fields<'_>,
    before: u64,
    version: u32,
) -> Result<CertLine, LineFault>
    ensures { Gives result (begun_at before version fields.old) fields.new }
{
    if before == 0 {
        head(fields)
    } else if before == 1 {
        claim(fields, version)
    } else {
        later(alloc, fields, version)
    }
}

/// Takes the next field, which is to be this word.
#[tactic(auto, unfolding(crate::specs::inner::Fields::word_at))]
fn take_word(fields: &mut Fields<'_>, word: &[u8]) -> Result<(), LineFault>
    ensures { Skips result (word_at word.now fields.old) fields.new }
{
    match fields.next() {
        Some(field) if field == word => Ok(()),
        _ => Err(LineFault::Bad),
    }
}

#[tactic(auto, unfolding(crate::specs::inner::Fields::head_at))]
fn head(fields: &mut Fields<'_>) -> Result<CertLine, LineFault>
    ensures { Gives result (head_at fields.old) fields.new }
{
    take_word(fields, b"vpack-certificate")?;
    let version = small_field(fields, 1, 3)?;
    Ok(CertLine::Head { version })
}

#[tactic(auto, unfolding(crate::specs::inner::Fields::claim_at))]
fn claim(fields: &mut Fields<'_>, version: u32) -> Result<CertLine, LineFault>
    ensures { Gives result (claim_at version fields.old) fields.new }
{
    take_word(fields, b"claim")?;
    claimed(fields, version)
}

#[tactic(auto, unfolding(crate::specs::inner::Fields::claimed_at))]
fn claimed(fields: &mut Fields<'_>, version: u32) -> Result<CertLine, LineFault>
    ensures { Gives result (claimed_at version fields.old) fields.new }
{
    let Some(word) = fields.next() else {
        return Err(LineFault::Bad);
    };
    if word == b"empty".as_slice() {
        let claim = Claim::Empty;
        return Ok(CertLine::Claim { claim, goal: None });
    }
    if word == b"bound".as_slice() {
        return bound(fields, version);
    }
    Err(LineFault::Bad)
}

#[tactic(auto, unfolding(crate::specs::inner::Fields::bound_at))]
fn bound(fields: &mut Fields<'_>, version: u32) -> Result<CertLine, LineFault>
    ensures { Gives result (bound_at version fields.old) fields.new }
{
    let bound = number_field(fields, 0, MAX_PRICE)?;
    let goal = goal(fields, version, bound)?;
    let claim = Claim::Bound(bound);
    Ok(CertLine::Claim { claim, goal })
}

/// The goal of a bound: none in version 1, and else the bound or one more.
#[tactic(auto, unfolding(crate::specs::inner::Fields::goal_at))]
fn goal(fields: &mut Fields<'_>, version: u32, bound: u64) -> Result<Option<u64>, LineFault>
    requires { bound ≤ MAX_PRICE }
    ensures { Gives result (goal_at version bound fields.old) fields.new }
{
    if version <= 1 {
        return Ok(None);
    }
    take_word(fields, b"goal")?;
    let goal = number_field(fields, bound, bound + 1)?;
    Ok(Some(goal))
}

/// A place of the tree, or the end.
#[tactic(auto, unfolding(crate::specs::inner::Fields::later_at))]
fn later(alloc: Global, fields: &mut Fields<'_>, version: u32) -> Result<CertLine, LineFault>
    ensures { Gives result (later_at version fields.old) fields.new }
{
    let Some(word) = fields.next() else {
        return Err(LineFault::Bad);
    };
    if word == b"end".as_slice() {
        return Ok(CertLine::End);
    }
    let line = tree(alloc, fields, word, version)?;
    Ok(CertLine::Tree(line))
}

/// A place of the tree behind its word.
#[tactic(auto, unfolding(crate::specs::inner::Fields::tree_at))]
fn tree(
    alloc: Global,
    fields: &mut Fields<'_>,
    word: &[u8],
    version: u32,
) -> Result<TreeLine, LineFault>
    ensures { Gives result (tree_at version word.now fields.old) fields.new }
{
    if word == b"split".as_slice() {
        return split(fields);
    }
    if word == b"leaf".as_slice() {
        return leaf(alloc, fields);
    }
    if word == b"need".as_slice() && version >= 2 {
        return needed(alloc, fields);
    }
    if word == b"step".as_slice() && version >= 3 {
        return step(fields);
    }
    Err(LineFault::Bad)
}

#[tactic(auto, unfolding(crate::specs::inner::Fields::split_at))]
fn split(fields: &mut Fields<'_>) -> Result<TreeLine, LineFault>
    ensures { Gives result (split_at fields.old) fields.new }
{
    let arc = small_field(fields, 1, u32::MAX)?;
    let k = small_field(fields, 0, u32::MAX)?;
    Ok(TreeLine::Split { arc, k })
}

#[tactic(auto, unfolding(crate::specs::inner::Fields::needed_at))]
fn needed(alloc: Global, fields: &mut Fields<'_>) -> Result<TreeLine, LineFault>
    ensures { Gives result (needed_at fields.old) fields.new }
{
    let arc = small_field(fields, 1, u32::MAX)?;
    let k = small_field(fields, 0, u32::MAX)?;
    let need = need(alloc, fields)?;
    Ok(TreeLine::Needed { arc, k, need })
}

#[tactic(auto, unfolding(crate::specs::inner::Fields::need_at))]
fn need(alloc: Global, fields: &mut Fields<'_>) -> Result<Need, LineFault>
    ensures { Gives result (need_at fields.old) fields.new }
{
    let scale = number_field(fields, 1, MAX_PRICE)?;
    let count = small_field(fields, 0, MAX_NUMBERED)?;
    let parts = parts(alloc, fields, count)?;
    Ok(Need { scale, parts })
}

#[tactic(auto, unfolding(crate::specs::inner::Fields::leaf_at))]
fn leaf(alloc: Global, fields: &mut Fields<'_>) -> Result<TreeLine, LineFault>
    ensures { Gives result (leaf_at fields.old) fields.new }
{
    let prices = prices(alloc, fields)?;
    Ok(TreeLine::Leaf(prices))
}

#[tactic(auto, unfolding(crate::specs::inner::Fields::prices_at))]
fn prices(alloc: Global, fields: &mut Fields<'_>) -> Result<Prices, LineFault>
    ensures { Gives result (prices_at fields.old) fields.new }
{
    let scale = number_field(fields, 0, MAX_PRICE)?;
    let item_count = small_field(fields, 0, MAX_ITEMS)?;
    let items = items(alloc, fields, item_count)?;
    let arc_count = small_field(fields, 0, MAX_NUMBERED)?;
    let arcs = arcs(alloc, fields, arc_count)?;
    Ok(Prices { scale, items, arcs })
}

#[tactic(auto, unfolding(crate::specs::inner::Fields::step_at))]
fn step(fields: &mut Fields<'_>) -> Result<TreeLine, LineFault>
    ensures { Gives result (step_at fields.old) fields.new }
{
    let dim = small_field(fields, 1, MAX_DIMS)?;
    let step = small_field(fields, 0, MAX_VALUE)?;
    Ok(TreeLine::Step { dim, step })
}
