//! Lines judged one after the other, and runs of lines judged side by side.

ghost use Rattle.std.specs.Prelude.{◌≡◌, ◌+◌, ◌++◌, ◌≤◌, ◌<◌, true, IfOk, IfSome, List, length, map};
ghost use Rattle.std.specs.Thread.{IsSync};
ghost use Rattle.packing_laws.specs.Instances.{InstanceValue};
ghost use Rattle.flow_graph.specs.Arcs.{TypeValue, numbered};
ghost use Rattle.flow_graph.specs.Faithful.{GraphOf};
ghost use Rattle.path_prices.specs.Scratches.{IsScratchOf};
ghost use Rattle.needs_check.specs.Rooms.{IsNeedRoomOf};
ghost use Rattle.cert_text.specs.declared.lines.CertLine.{CertLine};
ghost use Rattle.cert_checker.specs.inner.LineRefs.{line_of};
ghost use Rattle.cert_checker.specs.inner.Runs.{AreTold, behind};
ghost use Rattle.cert_checker.specs.inner.Standing.{IsTold, StandingValue, most_lines};

use crate::lines::{Line, LineRef, behind_leaves, is_leaf, leaf_count};
use crate::standing::Standing;
use arc_num::{Gate, Memory};
use cert_laws::Cause;
use flow_graph::FlowGraph;
use needs_check::NeedRoom;
use packing_laws::Instance;
use path_prices::Scratch;
use std::alloc::Global;
use std::thread::{Threads, join};

/// Lines that were judged.
#[derive(Debug, Drop)]
pub(crate) struct Judged {
    /// Behind the lines that are accepted.
    pub(crate) standing: Standing,
    /// Why the next line is refused, if one is.
    pub(crate) refusal: Option<Cause>,
}

/// Lets a leaf behind so many others through its gate. Answers how many leaves there are with this line.
fn enter<G: Gate>(gate: &G, line: LineRef<'_>, leaves: u64) -> u64 {
    if !is_leaf(line) {
        return leaves;
    }
    let number = leaves.saturating_add(1);
    if let Ok(piece) = u32::try_from(number) {
        gate.pass(piece);
    }
    number
}

/// Tells a line.
fn tell(
    instance: &Instance,
    graph: &FlowGraph,
    standing: &mut Standing,
    line: LineRef<'_>,
    scratch: &mut Scratch,
    room: &mut NeedRoom,
) -> Result<Option<Cause>, Memory>
    requires count { standing.old.progress.count < most_lines }
    requires graph { GraphOf instance.now graph.now }
    requires root { length standing.old.root ≡ length (numbered graph.now) }
    requires items { scratch.old.items ≡ length instance.now.items }
    requires scratch { IsScratchOf graph.now scratch.old }
    requires room { IsNeedRoomOf graph.now room.old }
    ensures scratch { scratch.new ≡ scratch.old }
    ensures room { IsNeedRoomOf graph.now room.new }
    ensures told { IfOk result (λ verdict. IsTold instance.now graph.now standing.old (line_of line.entry) verdict standing.new) }
{
    match line {
        LineRef::Head { version } => Ok(standing.tell_head(version)),
        LineRef::Claim { claim, goal } => Ok(standing.tell_claim(claim, goal)),
        LineRef::Place(place) => standing.tell_place(instance, graph, place, scratch, room),
        LineRef::End => Ok(standing.tell_end()),
    }
}

/// Lines told one after the other, up to the first that is refused. So many leaves stand before them.
fn one_by_one<G: Gate, T: Line>(
    instance: &Instance,
    graph: &FlowGraph,
    gate: &G,
    mut standing: Standing,
    lines: &[T],
    leaves: u64,
    scratch: &mut Scratch,
    room: &mut NeedRoom,
) -> Result<Judged, Memory>
    requires graph { GraphOf instance.now graph.now }
    requires root { length standing.root ≡ length (numbered graph.now) }
    requires few { standing.progress.count + length lines.now ≤ most_lines }
    requires items { scratch.old.items ≡ length instance.now.items }
    requires scratch { IsScratchOf graph.now scratch.old }
    requires room { IsNeedRoomOf graph.now room.old }
    ensures { IfOk result (λ judged. AreTold instance.now graph.now standing (map T.told lines.now) judged.refusal judged.standing) }
{
    let mut leaves = leaves;
    for line in lines {
        let shown = line.shown();
        leaves = enter(gate, shown, leaves);
        if let Some(cause) = tell(instance, graph, &mut standing, shown, scratch, room)? {
            return Ok(Judged {
                standing,
                refusal: Some(cause),
            });
        }
    }
    Ok(Judged {
        standing,
        refusal: None,
    })
}

/// Lines told one after the other behind a standing, with rooms of their own.
fn alone<G: Gate, T: Line>(
    alloc: Global,
    instance: &Instance,
    graph: &FlowGraph,
    gate: &G,
    standing: &Standing,
    lines: &[T],
    leaves: u64,
) -> Result<Judged, Memory>
    requires graph { GraphOf instance.now graph.now }
    requires root { length standing.now.root ≡ length (numbered graph.now) }
    requires few { standing.now.progress.count + length lines.now ≤ most_lines }
    ensures { IfOk result (λ judged. AreTold instance.now graph.now standing.now (map T.told lines.now) judged.refusal judged.standing) }
{
    let mut scratch = Scratch::new(alloc, graph, instance)?;
    let mut room = NeedRoom::new(alloc, graph, instance)?;
    one_by_one(
        instance,
        graph,
        gate,
        standing.copied()?,
        lines,
        leaves,
        &mut scratch,
        &mut room,
    )
}

/// Goes on behind lines as if they were accepted. Tells whether it came behind all of them.
fn go_ahead<T: Line>(standing: &mut Standing, lines: &[T]) -> Result<bool, Memory>
    requires few { standing.old.progress.count + length lines.now ≤ most_lines }
    ensures { IfOk result (λ done. done ≡ true → standing.new ≡ behind standing.old (map T.told lines.now)) }
{
    for line in lines {
        if !standing.skip(line.shown())? {
            return Ok(false);
        }
    }
    Ok(true)
}

/// Behind these lines, as if they were accepted; none where that cannot be.
fn ahead_of<T: Line>(standing: &Standing, lines: &[T]) -> Result<Option<Standing>, Memory>
    requires few { standing.now.progress.count + length lines.now ≤ most_lines }
    ensures there { IfOk result (λ ahead. IfSome ahead (λ s. s ≡ behind standing.now (map T.told lines.now))) }
    ensures root { IfOk result (λ ahead. IfSome ahead (λ s. s.root ≡ standing.now.root)) }
    ensures count { IfOk result (λ ahead. IfSome ahead (λ s. s.progress.count ≡ standing.now.progress.count + length lines.now)) }
{
    let mut ahead = standing.copied()?;
    if go_ahead(&mut ahead, lines)? {
        return Ok(Some(ahead));
    }
    Ok(None)
}

/// Two runs of lines, the second behind the first.
fn joined(left: Result<Judged, Memory>, right: Result<Judged, Memory>) -> Result<Judged, Memory>
    ensures { (I : InstanceValue) (g : List TypeValue) (old : StandingValue) (first last : List CertLine) → IfOk left (λ judged. AreTold I g old first judged.refusal judged.standing) → IfOk right (λ judged. AreTold I g (behind old first) last judged.refusal judged.standing) → IfOk result (λ judged. AreTold I g old (first ++ last) judged.refusal judged.standing) }
{
    let left = match left {
        Ok(left) => left,
        Err(memory) => return Err(memory),
    };
    match left.refusal {
        None => right,
        Some(_) => Ok(left),
    }
}

/// Where lines are cut in two for so many of the workers and the others, by their leaves.
fn cut<T: Line>(lines: &[T], share: u32, workers: u32) -> usize
    requires { 0 < workers }
    ensures { result ≤ length lines.now }
{
    let leaves = leaf_count(lines).saturating_mul(share as usize);
    behind_leaves(lines, leaves.div_ceil(workers as usize))
}

/// To how many workers one thread hands out runs, one after the other. Of more, half get theirs from a thread of its own.
const ROW: u32 = 8;

/// To how many of the workers the first run goes: to one, or to half of many.
fn first_share(workers: u32) -> u32
    requires { 1 < workers }
    ensures some { 1 ≤ result }
    ensures fewer { result < workers }
{
    if workers <= ROW { 1 } else { workers / 2 }
}

/// `alone`, by a thread of its own, while this one waits.
fn apart<R: Threads + Sync, G: Gate + Sync, T: Line>(
    rt: &R,
    alloc: Global,
    instance: &Instance,
    graph: &FlowGraph,
    gate: &G,
    standing: &Standing,
    lines: &[T],
    leaves: u64,
) -> Result<Judged, Memory>
    requires graph { GraphOf instance.now graph.now }
    requires root { length standing.now.root ≡ length (numbered graph.now) }
    requires few { standing.now.progress.count + length lines.now ≤ most_lines }
    ensures { IfOk result (λ judged. AreTold instance.now graph.now standing.now (map T.told lines.now) judged.refusal judged.standing) }
{
    let (judged, ()) = join(
        rt,
        || -> Result<Judged, Memory>
            requires { IsSync G.row × IsSync T.row × GraphOf instance.now graph.now × (length standing.now.root ≡ length (numbered graph.now)) × (standing.now.progress.count + length lines.now ≤ most_lines) }
            ensures { IfOk result (λ judged. AreTold instance.entry.now graph.entry.now standing.entry.now (map T.told lines.entry.now) judged.refusal judged.standing) }
        { alone(alloc, instance, graph, gate, standing, lines, leaves) },
        || {},
    );
    judged
}

/// Runs of lines judged side by side, as long as there are workers and leaves; by this thread where there is one worker.
#[cycle(sharing)]
pub(crate) fn side_by_side<R: Threads + Sync, G: Gate + Sync, T: Line>(
    rt: &R,
    alloc: Global,
    instance: &Instance,
    graph: &FlowGraph,
    gate: &G,
    standing: &Standing,
    lines: &[T],
    leaves: u64,
    workers: u32,
) -> Result<Judged, Memory>
    requires graph { GraphOf instance.now graph.now }
    requires root { length standing.now.root ≡ length (numbered graph.now) }
    requires few { standing.now.progress.count + length lines.now ≤ most_lines }
    ensures { IfOk result (λ judged. AreTold instance.now graph.now standing.now (map T.told lines.now) judged.refusal judged.standing) }
{
    if workers <= 1 || leaf_count(lines) <= 1 {
        return alone(alloc, instance, graph, gate, standing, lines, leaves);
    }
    hand_out(
        rt, alloc, instance, graph, gate, standing, lines, leaves, workers,
    )
}

/// Runs of lines handed out to threads of their own, while this one waits: the processor on which it works would else be taken for a
/// free one. What stands behind a run is known before its leaves are judged, as long as they hold; where they do not,
/// nothing behind it counts.
#[cycle(sharing)]
fn hand_out<R: Threads + Sync, G: Gate + Sync, T: Line>(
    rt: &R,
    alloc: Global,
    instance: &Instance,
    graph: &FlowGraph,
    gate: &G,
    standing: &Standing,
    lines: &[T],
    leaves: u64,
    workers: u32,
) -> Result<Judged, Memory>
    requires graph { GraphOf instance.now graph.now }
    requires root { length standing.now.root ≡ length (numbered graph.now) }
    requires few { standing.now.progress.count + length lines.now ≤ most_lines }
    ensures { IfOk result (λ judged. AreTold instance.now graph.now standing.now (map T.told lines.now) judged.refusal judged.standing) }
{
    if workers <= 1 || leaf_count(lines) <= 1 {
        return apart(rt, alloc, instance, graph, gate, standing, lines, leaves);
    }
    let share = first_share(workers);
    let others = workers - share;
    let (first, last) = lines.split_at(cut(lines, share, workers));
    let ahead = match ahead_of(standing, first) {
        Ok(Some(ahead)) => ahead,
        Ok(None) => return alone(alloc, instance, graph, gate, standing, lines, leaves),
        Err(memory) => return Err(memory),
    };
    let ahead = &ahead;
    let more = leaves.saturating_add(leaf_count(first) as u64);
    let (left, right) = join(
        rt,
        || -> Result<Judged, Memory>
            requires { IsSync R.row × IsSync G.row × IsSync T.row × GraphOf instance.now graph.now × (length standing.now.root ≡ length (numbered graph.now)) × (standing.now.progress.count + length first.now ≤ most_lines) }
            ensures { IfOk result (λ judged. AreTold instance.entry.now graph.entry.now standing.entry.now (map T.told first.entry.now) judged.refusal judged.standing) }
        {
            side_by_side::<R, G, T>(
                rt, alloc, instance, graph, gate, standing, first, leaves, share,
            )
        },
        || -> Result<Judged, Memory>
            requires { IsSync R.row × IsSync G.row × IsSync T.row × GraphOf instance.now graph.now × (length ahead.now.root ≡ length (numbered graph.now)) × (ahead.now.progress.count + length last.now ≤ most_lines) }
            ensures { IfOk result (λ judged. AreTold instance.entry.now graph.entry.now ahead.entry.now (map T.told last.entry.now) judged.refusal judged.standing) }
        { hand_out::<R, G, T>(rt, alloc, instance, graph, gate, ahead, last, more, others) },
    );
    joined(left, right)
}
