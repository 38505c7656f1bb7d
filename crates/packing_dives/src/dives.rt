//! Dives for packings.

ghost use Rattle.std.specs.Prelude.{◌≡◌, ◌<◌, ◌≤◌, IfOk, IfSome};
ghost use Rattle.packing_laws.specs.Packings.{cost_of};
ghost use Rattle.packing_laws.specs.Printed.{IsWrittenPacking, bins_of};

use crate::diving::{Diving, has_many};
use crate::variants::Variant;
use arc_num::Memory;
use bin_mending::mend;
use column_master::{Effort, Ended, Master, Relaxation};
use packing_laws::{Instance, Packing, cost};
use std::alloc::Global;

/// What dives are to reach: packings that cost less than `cut`. One that costs no more than `target` ends them.
#[derive(Clone, Copy, Debug, PartialEq, Eq)]
pub struct Goal {
    pub cut: u64,
    pub target: u64,
}

/// So many columns are rounded up at most.
const MOST_STEPS: u32 = 10_000;

/// So often the graphs are asked at most at each step.
const ROUNDS: u32 = 400;

/// So many dives with different choices, from the program of the box that was priced last, and the cheapest packing of them
/// all. None where there is no such program, or no dive comes to one that costs less than `cut`.
pub fn dive_often(
    alloc: Global,
    instance: &Instance,
    master: &mut Master,
    goal: Goal,
    times: u32,
) -> Result<Option<Packing>, Memory>
    ensures packing { IfOk result (λ f. IfSome f (IsWrittenPacking instance.now)) }
    ensures cost { IfOk result (λ f. IfSome f (λ p. cost_of instance.now (bins_of p) < goal.cut)) }
    ensures master { master.new ≡ master.old }
{
    let mut best = None;
    for turn in 0..times {
        let cut = least_cost(instance, &best, goal.cut);
        if cut <= goal.target {
            return Ok(best);
        }
        if let Some(packing) = dive(alloc, instance, master, Goal { cut, ..goal }, turn)? {
            best = Some(packing);
        }
    }
    Ok(best)
}

/// A dive from the program of the box that was priced last: again and again the whole copies in its solution are taken, all
/// bins by then are mended, and one column more is rounded up. The number of the dive decides what it chooses. The cheapest
/// packing that was come to; none where there is no such program, or nothing costs less than `cut`.
pub fn dive(
    alloc: Global,
    instance: &Instance,
    master: &mut Master,
    goal: Goal,
    turn: u32,
) -> Result<Option<Packing>, Memory>
    ensures packing { IfOk result (λ f. IfSome f (IsWrittenPacking instance.now)) }
    ensures cost { IfOk result (λ f. IfSome f (λ p. cost_of instance.now (bins_of p) < goal.cut)) }
    ensures master { master.new ≡ master.old }
{
    let mut best = None;
    let Some(relaxation) = copied_program(master)? else {
        return Ok(None);
    };
    let variant = Variant::numbered(turn, has_many(alloc, &relaxation)?);
    let mut diving = Diving::new(alloc, relaxation, variant);
    for _step in 0..MOST_STEPS {
        let cut = least_cost(instance, &best, goal.cut);
        if cut <= goal.target || !diving_on(master, &mut diving, cut)? {
            return Ok(best);
        }
        if let Some(packing) = mend(alloc, instance, diving.bins.as_slice(), cut)? {
            best = Some(packing);
        }
        if diving.is_through() || !diving.round_up(master.columns())? {
            return Ok(best);
        }
    }
    Ok(best)
}

/// Solves what is left, which at the start is solved, and takes the whole copies in its solution. False where nothing that
/// costs less than `cut` is to be had this way.
fn diving_on(master: &mut Master, diving: &mut Diving, cut: u64) -> Result<bool, Memory>
    ensures { master.new ≡ master.old }
{
    let outlook = if diving.is_new() && master.outlook().ended == Ended::Solved {
        master.outlook()
    } else {
        let effort = Effort {
            rounds: ROUNDS,
            cut: cut.saturating_sub(diving.cost),
        };
        master.solve(&mut diving.relaxation, &effort)?
    };
    let is_open = match outlook.ended {
        Ended::Solved | Ended::Stopped => diving.relaxation.is_feasible(),
        Ended::Cut | Ended::Empty => false,
    };
    if is_open && outlook.bound.saturating_add(diving.cost) < cut {
        diving.take_whole(master.columns())
    } else {
        Ok(false)
    }
}

/// A copy of the program of the box that was priced last.
fn copied_program(master: &Master) -> Result<Option<Relaxation>, Memory> {
    match master.relaxation() {
        Some(relaxation) => relaxation.copy(master.columns()),
        None => Ok(None),
    }
}

/// What the packing costs, where there is one that costs less than `cut`; else `cut`.
fn least_cost(instance: &Instance, best: &Option<Packing>, cut: u64) -> u64
    ensures { result ≤ cut }
{
    match best {
        Some(packing) => u64::try_from(cost(instance, packing))
            .unwrap_or(cut)
            .min(cut),
        None => cut,
    }
}
