//! The pieces, the graphs and the sizes of worked instances.
use arc_compile::{
    TypeSize, compile, compile_gated, compiled_graphs_are_faithful, compiled_graphs_are_one,
    extended_weights_tell_fits, final_graphs_are_exact, level_size, padding_keeps_graphs,
    pieces_of, sizes_are_one, sizes_exist,
};
use arc_num::{Gate, Memory};
use flow_graph::ArcKind;
use packing_laws::{BinType, Instance, Item, ItemCap, Numbers, Vectors};
use std::alloc::Global;
use std::sync::atomic::{AtomicBool, Ordering};
use std::test::Fail;
use std::thread::Threads;

/// One type of bins without limit, items of one form each, its weights and the demand, and caps of items.
fn capped(
    alloc: Global,
    cap: &[u32],
    items: &[(&[u32], u32)],
    caps: &[(u32, u32)],
) -> Result<Option<Instance>, Memory> {
    let mut listed = Vec::new(alloc);
    for (weights, demand) in items {
        let form = Numbers::new(Vec::from_slice(alloc, weights)?);
        listed.push(Item {
            demand: *demand,
            forms: Vectors::new(vec![in alloc; form]?),
        })?;
    }
    let mut item_caps = Vec::new(alloc);
    for (item, count) in caps {
        item_caps.push(ItemCap {
            item: *item,
            count: *count,
        })?;
    }
    let bin_type = BinType {
        cap: Numbers::new(Vec::from_slice(alloc, cap)?),
        cost: 1,
        limit: None,
    };
    let types = vec![in alloc; bin_type]?;
    let dims = u32::try_from(cap.len()).unwrap_or(0);
    Ok(Instance::with_caps(dims, types, listed, item_caps))
}

/// The same without caps.
fn plain(alloc: Global, cap: &[u32], items: &[(&[u32], u32)]) -> Result<Option<Instance>, Memory> {
    capped(alloc, cap, items, &[])
}

/// A dear type without limit beside a cheap one of which there is one bin, and two units of an item.
fn two_types(alloc: Global) -> Result<Option<Instance>, Memory> {
    let mut types = Vec::new(alloc);
    for (cost, limit) in [(1, Some(1)), (5, None)] {
        types.push(BinType {
            cap: Numbers::new(Vec::from_slice(alloc, &[10])?),
            cost,
            limit,
        })?;
    }
    let form = Numbers::new(Vec::from_slice(alloc, &[6])?);
    let item = Item {
        demand: 2,
        forms: Vectors::new(vec![in alloc; form]?),
    };
    Ok(Instance::new(1, types, vec![in alloc; item]?))
}

fn size_of(alloc: Global, instance: &Instance) -> Result<(u128, u128), Memory> {
    let _types = instance.type_count();
    level_size(alloc, instance, 1)
}

#[test]
fn two_forms_on_a_bar(rt: HostRuntime) -> Result<(), Fail> {
    let alloc = rt.alloc();
    let items: [(&[u32], u32); 2] = [(&[5], 1), (&[6], 1)];
    let instance = plain(alloc, &[10], &items)?.ok_or("no instance")?;
    assert!(rt; instance.dims() + instance.cap_count() <= 1);
    let _types = instance.type_count();
    let pieces = pieces_of::<1>(alloc, &instance, 1)?;
    assert_eq!(rt; pieces.len(), 2);
    assert_eq!(rt;
        (pieces[0].item, pieces[0].form, pieces[0].copies),
        (2, 1, 1)
    );
    assert_eq!(rt;
        (pieces[1].item, pieces[1].form, pieces[1].copies),
        (1, 1, 1)
    );
    assert_eq!(rt; size_of(alloc, &instance)?, (6, 7));
    Ok(())
}

/// The numbers of nodes and arcs of the level, the main and the final graph of the first type, and of all arcs.
type Counts = ((u128, u128), (u32, u32), (u32, u32), u64);

fn counts_of<R: Threads + Sync>(
    rt: &R,
    alloc: Global,
    instance: &Instance,
) -> Result<Counts, Fail> {
    let level = size_of(alloc, instance)?;
    let compiled = compile(rt, alloc, instance, 1)?;
    let size = compiled.sizes.as_slice().first().ok_or("no size")?;
    Ok((
        level,
        (size.main_nodes, size.main_arcs),
        (size.final_nodes, size.final_arcs),
        u64::from(compiled.graph.arc_count()),
    ))
}

/// An instance, and what its graphs count.
#[derive(Clone, Copy)]
struct Row {
    cap: &'static [u32],
    items: &'static [(&'static [u32], u32)],
    caps: &'static [(u32, u32)],
    counts: Counts,
}

/// In one to 32 places, of which caps are the last.
const ROWS: [Row; 6] = [
    Row {
        cap: &[5, 5],
        items: &[(&[3, 2], 2), (&[2, 3], 2)],
        caps: &[],
        counts: ((7, 9), (3, 4), (3, 4), 5),
    },
    Row {
        cap: &[10],
        items: &[(&[2], 4)],
        caps: &[(1, 2)],
        counts: ((4, 5), (3, 4), (3, 4), 5),
    },
    Row {
        cap: &[5, 5, 5],
        items: &[(&[3, 2, 1], 2), (&[2, 3, 1], 2)],
        caps: &[],
        counts: ((7, 9), (3, 4), (3, 4), 5),
    },
    Row {
        cap: &[7, 6, 5],
        items: &[(&[3, 2, 1], 2), (&[2, 3, 2], 1), (&[1, 1, 4], 2)],
        caps: &[(1, 1), (3, 2)],
        counts: ((13, 17), (4, 6), (3, 5), 6),
    },
    Row {
        cap: &[3; 9],
        items: &[
            (&[1, 0, 1, 0, 1, 0, 1, 0, 1], 2),
            (&[0, 2, 0, 2, 0, 2, 0, 2, 0], 1),
        ],
        caps: &[(1, 1)],
        counts: ((7, 9), (3, 4), (3, 4), 5),
    },
    Row {
        cap: &[2; 31],
        items: &[(&[1; 31], 2)],
        caps: &[(1, 1)],
        counts: ((3, 3), (2, 2), (2, 2), 3),
    },
];

#[test]
fn up_to_32_places_have_their_counts(rt: HostRuntime) -> Result<(), Fail> {
    let alloc = rt.alloc();
    for row in ROWS {
        let instance = capped(alloc, row.cap, row.items, row.caps)?.ok_or("no instance")?;
        assert_eq!(rt; counts_of(&rt, alloc, &instance)?, row.counts);
    }
    Ok(())
}

#[test]
fn nothing_to_pack_has_one_node(rt: HostRuntime) -> Result<(), Fail> {
    let alloc = rt.alloc();
    let empty = plain(alloc, &[10], &[])?.ok_or("no instance")?;
    assert_eq!(rt; size_of(alloc, &empty)?, (1, 0));
    Ok(())
}

#[test]
fn three_forms_on_a_bar(rt: HostRuntime) -> Result<(), Fail> {
    let alloc = rt.alloc();
    let items: [(&[u32], u32); 3] = [(&[4], 1), (&[3], 3), (&[2], 1)];
    let instance = plain(alloc, &[9], &items)?.ok_or("no instance")?;
    for workers in [1, 4] {
        let compiled = compile(&rt, alloc, &instance, workers)?;
        assert_eq!(rt; compiled.graph.arc_count(), 12);
        let size = TypeSize {
            main_nodes: 6,
            main_arcs: 11,
            final_nodes: 6,
            final_arcs: 11,
        };
        assert_eq!(rt; compiled.sizes.as_slice(), &[size][..]);
    }
    Ok(())
}

#[test]
fn two_forms_merge_to_two_nodes(rt: HostRuntime) -> Result<(), Fail> {
    let alloc = rt.alloc();
    let items: [(&[u32], u32); 2] = [(&[6], 1), (&[5], 1)];
    let instance = plain(alloc, &[10], &items)?.ok_or("no instance")?;
    let compiled = compile(&rt, alloc, &instance, 1)?;
    let size = TypeSize {
        main_nodes: 3,
        main_arcs: 4,
        final_nodes: 2,
        final_arcs: 3,
    };
    assert_eq!(rt; compiled.sizes.as_slice(), &[size][..]);
    let second = ArcKind::Piece {
        t: 1,
        tail: 1,
        head: 2,
        item: 2,
        form: 1,
    };
    assert_eq!(rt; compiled.graph.arc(4), Some(second));
    assert_eq!(rt; compiled.graph.arc(5), None);
    Ok(())
}

/// A gate that holds the first piece back until the second has come, for at most so many turns.
#[derive(Drop)]
struct Meeting {
    second_came: AtomicBool,
    met: AtomicBool,
}

const TURNS: u64 = 500_000_000;

impl Gate for Meeting {
    fn pass(&self, piece: u32) {
        if piece == 2 {
            self.second_came.store(true, Ordering::SeqCst);
        } else if piece == 1 {
            for _ in 0..TURNS {
                if self.second_came.load(Ordering::SeqCst) {
                    self.met.store(true, Ordering::SeqCst);
                    return;
                }
            }
        }
    }
}

#[test]
fn two_types_at_once(rt: HostRuntime) -> Result<(), Fail> {
    let alloc = rt.alloc();
    let instance = two_types(alloc)?.ok_or("no instance")?;
    let gate = Meeting {
        second_came: AtomicBool::new(false),
        met: AtomicBool::new(false),
    };
    let compiled = compile_gated(&rt, alloc, &instance, 2, &gate)?;
    assert!(rt; gate.met.load(Ordering::SeqCst));
    assert_eq!(rt; compiled.graph.arc_count(), 6);
    assert_eq!(rt; compiled.graph.type_count(), 2);
    Ok(())
}

#[test]
fn laws_hold() {
    final_graphs_are_exact();
    compiled_graphs_are_faithful();
    compiled_graphs_are_one();
    extended_weights_tell_fits();
    padding_keeps_graphs();
    sizes_are_one();
    sizes_exist();
}
