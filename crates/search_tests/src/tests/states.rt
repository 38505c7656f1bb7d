//! Searches that are worked by hand, for three units of an item and bins that hold two of them for 3: two bins cost 6, in fractions
//! they cost 5 at least, and one bin is too few.

ghost use Rattle.std.specs.Prelude.{◌≡◌, IfOk, length};
ghost use Rattle.flow_model.specs.Worked.{three_of_one as three_of_one_is, its_graph};
ghost use Rattle.search_states.specs.States.{IsMasterOf, IsState};

use arc_num::{Listed, Memory};
use cert_text::Claim;
use column_master::Master;
use fixed_leaf::chords_of;
use flow_graph::FlowGraph;
use flow_model::{FlowBox, graph_of_two, root_box, three_of_one};
use packing_laws::{Bin, Count, Instance, Packing, homeless_item, is_packing};
use pattern_extract::examples_come_out;
use search_states::{
    Known, State, better_of, first_known, first_state, known_from, open_chord, open_leaf,
    split_leaf,
};
use search_tree::SplitAt;
use std::alloc::Global;
use std::test::Fail;

fn needs_send<T: Send + Sync>(_value: &T) {}

/// What a packing that may be known costs, and how many different bins it has.
fn seen(best: &Option<Known>) -> Option<(u64, usize)> {
    match best {
        Some(known) => Some((known.cost, known.packing.bins().len())),
        None => None,
    }
}

/// A bin for each of the three units.
fn single_bins(alloc: Global) -> Result<Packing, Memory> {
    let unit = Count {
        item: 1,
        form: 1,
        count: 1,
    };
    let bin = Bin {
        bin_type: 1,
        times: 3,
        counts: Listed::new(vec![in alloc; unit]?),
    };
    Ok(Packing::new(vec![in alloc; bin]?))
}

#[test]
fn first_packing_is_that_of_first_fit(rt: HostRuntime) -> Result<(), Fail> {
    let alloc = rt.alloc();
    let instance = three_of_one(alloc)?.ok_or("no instance")?;
    let best = first_known(alloc, &instance)?;
    assert_eq!(rt; seen(&best), Some((6, 2)));
    needs_send(&best);
    Ok(())
}

#[test]
fn bins_of_a_known_packing_are_joined(rt: HostRuntime) -> Result<(), Fail> {
    let alloc = rt.alloc();
    let instance = three_of_one(alloc)?.ok_or("no instance")?;
    let packing = single_bins(alloc)?;
    if !is_packing(&instance, &packing) {
        return Err("a bin for each unit is a packing".into());
    }
    let known = known_from(&instance, packing)?;
    assert_eq!(rt; seen(&Some(known)), Some((6, 2)));
    Ok(())
}

/// What is known of a packing of this cost.
fn known_at(alloc: Global, cost: u64) -> Known {
    let packing = Packing::new(Vec::new(alloc));
    Known { packing, cost }
}

#[test]
fn cheaper_packing_is_kept(rt: HostRuntime) {
    let alloc = rt.alloc();
    for (first, other, least) in [(9, 6, 6), (6, 9, 6), (6, 6, 6)] {
        let best = better_of(Some(known_at(alloc, first)), known_at(alloc, other));
        assert_eq!(rt; seen(&best), Some((least, 0)));
    }
    let best = better_of(None, known_at(alloc, 9));
    assert_eq!(rt; seen(&best), Some((9, 0)));
}

/// The range that a chord has in a box, if it is not that of the root box.
type Narrowed = Option<(u32, u32)>;

/// Ranges of the chords, which are the arcs 1, 4 and 5, and how the box is split.
const SPLITS: [((Narrowed, Narrowed, Narrowed), Option<SplitAt>); 4] = [
    ((None, None, None), Some(SplitAt { arc: 1, k: 1 })),
    ((Some((2, 2)), None, None), Some(SplitAt { arc: 4, k: 1 })),
    (
        (Some((2, 2)), Some((0, 0)), Some((2, 3))),
        Some(SplitAt { arc: 5, k: 2 }),
    ),
    ((Some((2, 2)), Some((0, 0)), Some((2, 2))), None),
];

/// Gives an arc of a box this range.
fn narrow(ranges: &mut FlowBox, arc: u32, narrowed: Narrowed)
    ensures { length ranges.new ≡ length ranges.old }
{
    if let Some((lower, upper)) = narrowed
        && lower <= upper
        && ranges.range(arc).is_some()
    {
        ranges.set_range(arc, lower, upper);
    }
}

/// How a part of the root box is split.
fn split_of(alloc: Global, parts: (Narrowed, Narrowed, Narrowed)) -> Result<Option<SplitAt>, Fail> {
    let instance = three_of_one(alloc)?.ok_or("no instance")?;
    let graph = graph_of_two(alloc)?;
    flow_model::examples_come_out();
    let chords = chords_of(alloc, &instance, &graph)?;
    let mut ranges = root_box(alloc, &instance, &graph)?;
    narrow(&mut ranges, 1, parts.0);
    narrow(&mut ranges, 4, parts.1);
    narrow(&mut ranges, 5, parts.2);
    Ok(open_chord(chords.as_slice(), &ranges))
}

#[test]
fn first_open_chord_is_split_in_the_middle(rt: HostRuntime) -> Result<(), Fail> {
    let alloc = rt.alloc();
    for (parts, split) in SPLITS {
        assert_eq!(rt; split_of(alloc, parts)?, split);
    }
    Ok(())
}

/// The first state of a search.
fn begun(
    alloc: Global,
    instance: &Instance,
    graph: &FlowGraph,
    master: &mut Master,
) -> Result<State, Fail>
    requires instance { instance.now ≡ three_of_one_is }
    requires graph { graph.now ≡ its_graph }
    requires master { IsMasterOf instance.now graph.now master.old }
    ensures state { IfOk result (IsState instance.now graph.now) }
    ensures master { master.new ≡ master.old }
{
    examples_come_out();
    if homeless_item(instance).is_some() {
        return Err("the item fits".into());
    }
    Ok(first_state(alloc, instance, graph, master)?)
}

/// The state behind the split of an open leaf.
fn split_once(
    alloc: Global,
    instance: &Instance,
    graph: &FlowGraph,
    master: &mut Master,
    state: State,
) -> Result<State, Fail>
    requires instance { instance.now ≡ three_of_one_is }
    requires graph { graph.now ≡ its_graph }
    requires master { IsMasterOf instance.now graph.now master.old }
    requires state { IsState instance.now graph.now state }
{
    examples_come_out();
    let index = open_leaf(&state).ok_or("each leaf is closed")?;
    Ok(split_leaf(alloc, instance, graph, master, state, index)?)
}

/// What is shown at the places of a tree, one after the other.
fn shown_in(alloc: Global, state: &State) -> Result<Vec<Claim>, Memory> {
    let mut claims = Vec::new(alloc);
    for place in state.tree.places() {
        claims.push(place.shown.claim)?;
    }
    Ok(claims)
}

#[test]
fn search_of_three_units_ends_with_one_split(rt: HostRuntime) -> Result<(), Fail> {
    let alloc = rt.alloc();
    let instance = three_of_one(alloc)?.ok_or("no instance")?;
    let graph = graph_of_two(alloc)?;
    examples_come_out();
    let mut master = Master::new(alloc, &instance, &graph)?;
    let state = begun(alloc, &instance, &graph, &mut master)?;
    let state = split_once(alloc, &instance, &graph, &mut master, state)?;
    let claims = shown_in(alloc, &state)?;
    let wanted = [Claim::Bound(5), Claim::Empty, Claim::Bound(6)];
    assert_eq!(rt; claims.as_slice(), &wanted[..]);
    assert_eq!(rt; seen(&state.best), Some((6, 2)));
    assert_eq!(rt; open_leaf(&state), None);
    needs_send(&state);
    Ok(())
}
