//! For the last pieces of a list, the greatest sums of their weights within each room, dimension by dimension.

ghost use Rattle.std.specs.Prelude.{◌≡◌, ◌⊎◌, ℕ, ◌+◌, ◌^◌, ◌≤◌, ◌<◌, [], length, slice_index, slice_index_or, IfOk, MatchOption};
ghost use Rattle.weight_vec.specs.Weight.{AtMost};
ghost use Rattle.lift_build.specs.inner.Tables.{IsTable, IsNextTable, MayBeNext, AreZeros, HasMember, IsLeast, IsRow, AreRows, IsFirstRow, IsNextRow, IsLiftAt, IsLiftBy};

use arc_num::{Listed, Memory};
use label_graph::Piece;
use std::alloc::Global;
use weight_vec::Weights;

// How many numbers all tables have together at most: 256 MB.
const MAX_SUMS: usize = 67_108_864;

/// A row of tables for each number of last pieces, from none on, with a table for each dimension. A table that would be
/// too large is left out, and so are all that would stand on it.
pub fn rows_of<const N: usize>(
    alloc: Global,
    pieces: &[Piece<N>],
    cap: &Weights<N>,
) -> Result<Vec<Listed<Listed<u32>>>, Memory>
    requires small { N ≤ 32 }
    requires few { length pieces.now < 2 ^ 32 }
    ensures { IfOk result (λ rows. AreRows pieces.now cap.now (length pieces.now + 1) rows.items) }
{
    cap.known();
    let limit = MAX_SUMS / (N + 1);
    let mut rows = Vec::new(alloc);
    rows.push(first_row(alloc, cap, limit)?)?;
    for index in (0..pieces.len()).rev() {
        let count = pieces.len() - index;
        let row = row_of(
            alloc,
            rows[count - 1].as_slice(),
            &pieces[index],
            limit / (count + 1),
        )?;
        rows.push(row)?;
    }
    Ok(rows)
}

// The row where no piece is to come: within each room there is nothing but 0.
fn first_row<const N: usize>(
    alloc: Global,
    cap: &Weights<N>,
    limit: usize,
) -> Result<Listed<Listed<u32>>, Memory>
    requires small { N ≤ 32 }
    ensures { IfOk result (IsFirstRow N cap.now) }
{
    cap.known();
    let mut row = Vec::new(alloc);
    for d in 0..N {
        let table = zeros(alloc, cap.get(d) as usize + 1, limit)?;
        row.push(table)?;
    }
    Ok(Listed::new(row))
}

// So many zeros, or none where they are too many.
fn zeros(alloc: Global, count: usize, limit: usize) -> Result<Listed<u32>, Memory>
    ensures { IfOk result (AreZeros count) }
{
    if count > limit {
        return Ok(Listed::empty(alloc));
    }
    let table = vec![in alloc; 0u32; count]?;
    Ok(Listed::new(table))
}

// The row with one piece more before those of a row.
fn row_of<const N: usize>(
    alloc: Global,
    behind: &[Listed<u32>],
    piece: &Piece<N>,
    limit: usize,
) -> Result<Listed<Listed<u32>>, Memory>
    requires small { N ≤ 32 }
    requires count { length behind.now ≡ N }
    requires few { (d : ℕ) → d < N → length (slice_index_or behind.now d []) ≤ 2 ^ 32 }
    requires tables { (d : ℕ) → d < N → IsTable (slice_index_or behind.now d []) }
    ensures { IfOk result (IsNextRow behind.now piece.now) }
{
    let mut row = Vec::new(alloc);
    for d in 0..N {
        let table = table_of(
            alloc,
            behind[d].as_slice(),
            piece.weight.get(d),
            piece.copies,
            limit,
        )?;
        row.push(table)?;
    }
    Ok(Listed::new(row))
}

// The table with up to so many copies of a weight before those of a table, where it is not too large.
fn table_of(
    alloc: Global,
    behind: &[u32],
    weight: u32,
    copies: u32,
    limit: usize,
) -> Result<Listed<u32>, Memory>
    requires { length behind.now ≤ 2 ^ 32 }
    ensures { IfOk result (MayBeNext behind.now weight copies) }
{
    if behind.len() > limit {
        return Ok(Listed::empty(alloc));
    }
    let mut least: Vec<Option<u32>> = Vec::with_capacity(alloc, behind.len())?;
    let mut table: Vec<u32> = Vec::with_capacity(alloc, behind.len())?;
    let mut last: u32 = 0;
    for sum in 0..behind.len() {
        let needed = copies_for(least.as_slice(), behind, weight, copies, sum);
        last = marked(needed, sum as u32, last);
        least.push(needed)?;
        table.push(last)?;
    }
    Ok(Listed::new(table))
}

// The greatest sum that can be made: the last one, or this one if some number of copies makes it.
fn marked(needed: Option<u32>, sum: u32, last: u32) -> u32
    ensures { MatchOption needed (result ≡ last) (λ _. result ≡ sum) }
{
    match needed {
        Some(_) => sum,
        None => last,
    }
}

// The least number of copies of the weight that make the sum with a member of a table, if any do. Those of smaller sums are given.
fn copies_for(
    least: &[Option<u32>],
    behind: &[u32],
    weight: u32,
    copies: u32,
    sum: usize,
) -> Option<u32>
    requires count { length least.now ≡ sum }
    requires within { sum < length behind.now }
    requires least { (v : ℕ) → v < sum → IsLeast behind.now weight copies v (slice_index_or least.now v None) }
    ensures { IsLeast behind.now weight copies sum result }
{
    if behind[sum] as usize == sum {
        return Some(0);
    }
    if weight == 0 {
        return None;
    }
    if sum < weight as usize {
        return None;
    }
    let before = least[sum - weight as usize];
    match before {
        Some(taken) => one_more(taken, copies),
        None => None,
    }
}

// One copy more, if there is one.
fn one_more(taken: u32, copies: u32) -> Option<u32>
    ensures more { taken < copies → result ≡ Some (taken + 1) }
    ensures full { copies ≤ taken → result ≡ None }
{
    if taken < copies {
        Some(taken + 1)
    } else {
        None
    }
}

/// The weight, lifted in each dimension to the capacity less the greatest sum within the room that is left.
pub fn lifted<const N: usize>(
    row: &[Listed<u32>],
    cap: &Weights<N>,
    used: &Weights<N>,
) -> Weights<N>
    requires small { N ≤ 32 }
    requires count { length row.now ≡ N }
    requires fits { AtMost used.now cap.now }
    requires tables { (d : ℕ) → d < N → IsTable (slice_index_or row.now d []) }
    requires sized { (d : ℕ) → d < N → (length (slice_index_or row.now d []) ≡ 0) ⊎ (length (slice_index_or row.now d []) ≡ slice_index cap.now d + 1) }
    ensures { IsLiftBy N row.now cap.now used.now result }
{
    let mut parts = [0; N];
    for d in 0..N {
        parts[d] = lift_at(row[d].as_slice(), cap.get(d), used.get(d));
    }
    match Weights::pad_from(&parts) {
        Some(lifted) => lifted,
        None => unreachable!(),
    }
}

// The weight in one dimension, lifted by its table.
fn lift_at(table: &[u32], most: u32, used: u32) -> u32
    requires fits { used ≤ most }
    requires table { IsTable table.now }
    requires sized { (length table.now ≡ 0) ⊎ (length table.now ≡ most + 1) }
    ensures { IsLiftAt table.now most used result }
{
    let room = (most - used) as usize;
    if room < table.len() {
        most - table[room]
    } else {
        used
    }
}
