//! Dives for packings from the program of a box.

ghost use Rattle.std.specs.Prelude.{◌≡◌, IfOk, IfSome};
ghost use Rattle.packing_laws.specs.Printed.{IsWrittenPacking};
ghost use Rattle.search_states.specs.States.{IsBest, IsBetter};

use crate::known::{Known, better_of, cost_of, known_from};
use arc_num::Memory;
use cert_text::Claim;
use column_master::Master;
use packing_dives::{Goal, dive, dive_often};
use packing_laws::{Instance, Packing};
use std::alloc::Global;

/// So many dives start from the root box.
const ROOT_DIVES: u32 = 24;

/// From each of so many boxes behind it a dive starts, and then from each of so many one.
const FIRST_BOXES: u32 = 6;

const EACH_OF: u32 = 4;

/// The cheapest packing that is known after dives from the program of the box that was priced last, of which this is shown, and
/// before which so many boxes were looked at.
pub(crate) fn dive_in(
    alloc: Global,
    instance: &Instance,
    master: &mut Master,
    best: Option<Known>,
    shown: &Claim,
    turn: u32,
) -> Result<Option<Known>, Memory>
    requires best { IsBest instance.now best }
    ensures best { IfOk result (IsBest instance.now) }
    ensures better { IfOk result (IsBetter best) }
    ensures master { master.new ≡ master.old }
{
    let goal = Goal {
        cut: cost_of(&best),
        target: bound_of(shown),
    };
    if goal.cut <= goal.target || !is_due(turn) {
        return Ok(best);
    }
    match packing_from(alloc, instance, master, goal, turn)? {
        Some(packing) => Ok(better_of(best, known_from(instance, packing)?)),
        None => Ok(best),
    }
}

// The cheapest packing that dives from a box come to, of many from the root box, and of one from each other.
fn packing_from(
    alloc: Global,
    instance: &Instance,
    master: &mut Master,
    goal: Goal,
    turn: u32,
) -> Result<Option<Packing>, Memory>
    ensures packing { IfOk result (λ f. IfSome f (IsWrittenPacking instance.now)) }
    ensures master { master.new ≡ master.old }
{
    if turn == 0 {
        dive_often(alloc, instance, master, goal, ROOT_DIVES)
    } else {
        dive(alloc, instance, master, goal, turn)
    }
}

// Whether a dive starts from a box before which so many were looked at.
fn is_due(turn: u32) -> bool {
    turn <= FIRST_BOXES || turn % EACH_OF == 0
}

// What is shown of a box, as a bound.
fn bound_of(shown: &Claim) -> u64 {
    match shown {
        Claim::Bound(bound) => *bound,
        Claim::Empty => u64::MAX,
    }
}
