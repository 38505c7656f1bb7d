//! A tree that is worked by hand, for three units of an item of which a bin holds two: in fractions they cost 5 at least, one bin
//! is too few, and two cost 6.

ghost use Rattle.std.specs.Prelude.{◌≡◌, ℕ, [], ◌∷◌, ◌<◌, ◌≤◌, None, Some, All, IfOk, length, unsigned_abs};
ghost use Rattle.arc_num.specs.declared.TheConstants.{MAX_PRICE};
ghost use Rattle.flow_graph.specs.Arcs.{numbered};
ghost use Rattle.flow_graph.specs.Chords.{high_part, low_part};
ghost use Rattle.flow_graph.specs.Faithful.{GraphOf};
ghost use Rattle.flow_model.specs.Worked.{three_of_one as three_of_one_is, its_graph};
ghost use Rattle.flow_model.specs.Boxes.{root_ranges};
ghost use Rattle.cert_text.specs.declared.lines.Claim.TheVariants.{Bound, Empty};
ghost use Rattle.cert_text.specs.Lines.{ArePrices, IsBetween, IsClaim, IsNeed};
ghost use Rattle.path_prices.specs.Scratches.{NamesAmong};
ghost use Rattle.search_tree.specs.Trees.{AreShown, IsShown, KeepsNeeds, LeavesReach};

use arc_num::{Listed, Memory};
use cert_text::{ArcPart, ArcPrice, Certificate, Claim, ItemPrice, Need, Prices, TreeLine};
use flow_graph::FlowGraph;
use flow_model::{FlowBox, examples_come_out, graph_of_two, root_box, three_of_one};
use packing_laws::Instance;
use path_prices::{Scratch, first_excess, is_enough, worth};
use search_tree::{
    Shown, SplitAt, Target, Tree, open_trees_have_points, parts_are_shown, reaches,
    tree_certificate,
};
use std::alloc::Global;
use std::process::Abort;
use std::test::Fail;

fn needs_send<T: Send + Sync>(_value: &T) {}

/// Prices of a unit and of a bin.
fn prices_of(alloc: Global, scale: u64, unit: u64, bin: i64) -> Result<Prices, Memory>
    requires scale { scale ≤ MAX_PRICE }
    requires unit { IsBetween 1 MAX_PRICE unit }
    requires bin { IsBetween 1 MAX_PRICE (unsigned_abs bin) }
    ensures prices { IfOk result (λ p. ArePrices p) }
    ensures names { IfOk result (λ p. NamesAmong 1 5 p) }
{
    let item = ItemPrice {
        item: 1,
        price: unit,
    };
    let arc = ArcPrice { arc: 1, price: bin };
    Ok(Prices {
        scale,
        items: Listed::new(vec![in alloc; item]?),
        arcs: Listed::new(vec![in alloc; arc]?),
    })
}

/// What prices show of a box, if they close it for a claim.
fn shown_of(
    alloc: Global,
    instance: &Instance,
    graph: &FlowGraph,
    ranges: &FlowBox,
    prices: Prices,
    claim: Claim,
) -> Result<Shown, Fail>
    requires graph { GraphOf instance.now graph.now }
    requires items { length instance.now.items ≡ 1 }
    requires arcs { length (numbered graph.now) ≡ 5 }
    requires size { length ranges.now ≡ 5 }
    requires prices { ArePrices prices }
    requires names { NamesAmong 1 5 prices }
    requires claim { IsClaim claim }
    ensures shown { IfOk result (λ s. IsShown instance.now graph.now ranges.now s) }
    ensures claim { IfOk result (λ s. s.claim ≡ claim) }
{
    let mut scratch = Scratch::new(alloc, graph, instance)?;
    if first_excess(instance, graph, &prices, &mut scratch).is_some() {
        return Err("a bin gains more than it costs".into());
    }
    if !is_enough(&claim, prices.scale, worth(instance, ranges, &prices)) {
        return Err("the prices are not worth enough".into());
    }
    Ok(Shown { prices, claim })
}

/// Three halves of a bin, and as many on its first and its second unit.
fn halves(alloc: Global) -> Result<Need, Memory>
    ensures need { IfOk result (λ need. IsNeed need) }
    ensures arcs { IfOk result (λ need. All (λ x. x.arc ≤ 5) need.parts) }
{
    let bins = ArcPart { arc: 1, value: 3 };
    let first = ArcPart { arc: 2, value: 3 };
    let second = ArcPart { arc: 5, value: 3 };
    Ok(Need {
        scale: 2,
        parts: Listed::new(Vec::from_slice(alloc, &[bins, first, second])?),
    })
}

/// A tree of one place, of which more is known in the end than at first.
fn one_place(
    alloc: Global,
    root: FlowBox,
    first: Shown,
    shown: Shown,
    need: Need,
) -> Result<Tree, Memory>
    ensures { IfOk result (λ t. t ≡ record { root = root; places = record { cuts = []; shown = shown; split = None; need = Some need } ∷ [] }) }
{
    let mut tree = Tree::new(alloc, root, first)?;
    tree.show(0, shown);
    tree.keep_need(0, need);
    Ok(tree)
}

/// What is known of the root box, at first and in the end, and of its parts with up to one bin and with more.
#[derive(Drop)]
struct Known {
    first: Shown,
    shown: Shown,
    low: Shown,
    high: Shown,
}

fn boxes_shown(alloc: Global, instance: &Instance, graph: &FlowGraph) -> Result<Known, Fail>
    requires instance { instance.now ≡ three_of_one_is }
    requires graph { graph.now ≡ its_graph }
    ensures shown { IfOk result (λ x. IsShown instance.now graph.now (root_ranges instance.now graph.now) x.shown) }
    ensures low { IfOk result (λ x. IsShown instance.now graph.now (low_part (root_ranges instance.now graph.now) 1 1) x.low) }
    ensures high { IfOk result (λ x. IsShown instance.now graph.now (high_part (root_ranges instance.now graph.now) 1 1) x.high) }
    ensures empty { IfOk result (λ x. x.low.claim ≡ Empty) }
    ensures two { IfOk result (λ x. x.high.claim ≡ Bound 6) }
{
    examples_come_out();
    let root = root_box(alloc, instance, graph)?;
    let mut one = root.clone()?;
    one.set_range(1, 0, 1);
    let mut more = root.clone()?;
    more.set_range(1, 2, 3);
    let prices = prices_of(alloc, 5, 7, 1)?;
    let first = shown_of(alloc, instance, graph, &root, prices, Claim::Bound(4))?;
    let prices = prices_of(alloc, 5, 7, 1)?;
    let shown = shown_of(alloc, instance, graph, &root, prices, Claim::Bound(5))?;
    let prices = prices_of(alloc, 0, 1, -2)?;
    let low = shown_of(alloc, instance, graph, &one, prices, Claim::Empty)?;
    let prices = prices_of(alloc, 2, 1, 4)?;
    let high = shown_of(alloc, instance, graph, &more, prices, Claim::Bound(6))?;
    Ok(Known {
        first,
        shown,
        low,
        high,
    })
}

/// The root box with its parts.
fn worked(alloc: Global, instance: &Instance, graph: &FlowGraph) -> Result<Tree, Fail>
    requires instance { instance.now ≡ three_of_one_is }
    requires graph { graph.now ≡ its_graph }
    ensures size { IfOk result (λ t. length t.places ≡ 3) }
    ensures root { IfOk result (λ t. t.root ≡ root_ranges instance.now graph.now) }
    ensures shown { IfOk result (λ t. AreShown instance.now graph.now t) }
    ensures needs { IfOk result (λ t. KeepsNeeds graph.now t) }
    ensures reached { IfOk result (λ t. (bound : ℕ) → bound ≤ 6 → LeavesReach (Bound bound) t) }
{
    examples_come_out();
    let root = root_box(alloc, instance, graph)?;
    let known = boxes_shown(alloc, instance, graph)?;
    let need = halves(alloc)?;
    let mut tree = one_place(alloc, root, known.first, known.shown, need)?;
    tree.split(alloc, 0, SplitAt { arc: 1, k: 1 }, known.low, known.high)?;
    Ok(tree)
}

/// The lines of the tree, with or without a need behind its split.
fn whole(alloc: Global, need: Option<Need>) -> Result<Listed<TreeLine>, Memory> {
    let mut lines = Listed::empty(alloc);
    lines.push(match need {
        Some(need) => TreeLine::Needed { arc: 1, k: 1, need },
        None => TreeLine::Split { arc: 1, k: 1 },
    })?;
    lines.push(TreeLine::Leaf(prices_of(alloc, 0, 1, -2)?))?;
    lines.push(TreeLine::Leaf(prices_of(alloc, 2, 1, 4)?))?;
    Ok(lines)
}

/// The certificate of the tree for a bound that is its goal too.
fn certificate_of(alloc: Global, bound: u64, is_pruned: bool) -> Result<Certificate, Fail>
    requires { bound ≤ 6 }
{
    let instance = three_of_one(alloc)?.ok_or("no instance")?;
    let graph = graph_of_two(alloc)?;
    examples_come_out();
    let tree = worked(alloc, &instance, &graph)?;
    let target = Target {
        claim: Claim::Bound(bound),
        goal: Some(bound),
        is_pruned,
    };
    Ok(tree_certificate(alloc, &instance, &graph, &tree, target)?)
}

fn expect(
    rt: &impl Abort,
    alloc: Global,
    bound: u64,
    is_pruned: bool,
    lines: Listed<TreeLine>,
) -> Result<(), Fail>
    requires { bound ≤ 6 }
{
    let certificate = certificate_of(alloc, bound, is_pruned)?;
    needs_send(&certificate);
    let wanted = Certificate {
        version: 2,
        claim: Claim::Bound(bound),
        goal: Some(bound),
        lines,
    };
    assert_eq!(rt; certificate, wanted);
    Ok(())
}

#[test]
fn split_is_told_with_its_need_where_that_holds(rt: HostRuntime) -> Result<(), Fail> {
    let alloc = rt.alloc();
    expect(&rt, alloc, 6, false, whole(alloc, Some(halves(alloc)?))?)?;
    expect(&rt, alloc, 6, true, whole(alloc, Some(halves(alloc)?))?)?;
    expect(&rt, alloc, 5, false, whole(alloc, None)?)?;
    Ok(())
}

#[test]
fn pruned_tree_is_one_leaf_where_its_root_shows_the_claim(rt: HostRuntime) -> Result<(), Fail> {
    let alloc = rt.alloc();
    let leaf = TreeLine::Leaf(prices_of(alloc, 5, 7, 1)?);
    expect(&rt, alloc, 5, true, Listed::new(vec![in alloc; leaf]?))?;
    Ok(())
}

/// The box of a place has this range of bins, and that of the root on the next arc.
fn expect_range(rt: &impl Abort, tree: &Tree, index: usize, bins: (u32, u32)) -> Result<(), Memory>
    requires { index < length tree.now.places }
{
    let ranges = tree.box_at(index)?;
    assert_eq!(rt; ranges.range(1), Some(bins));
    assert_eq!(rt; ranges.range(2), Some((0, 3)));
    Ok(())
}

#[test]
fn boxes_of_the_places(rt: HostRuntime) -> Result<(), Fail> {
    let alloc = rt.alloc();
    let instance = three_of_one(alloc)?.ok_or("no instance")?;
    let graph = graph_of_two(alloc)?;
    examples_come_out();
    let tree = worked(alloc, &instance, &graph)?;
    needs_send(&tree);
    tree.known();
    assert_eq!(rt; tree.root().range(1), Some((0, 3)));
    assert_eq!(rt; tree.places().len(), 3);
    expect_range(&rt, &tree, 0, (0, 3))?;
    expect_range(&rt, &tree, 1, (0, 1))?;
    expect_range(&rt, &tree, 2, (2, 3))?;
    Ok(())
}

#[test]
fn claims_that_reach_others(rt: HostRuntime) {
    for (shown, claim, is_so) in [
        (Claim::Empty, Claim::Bound(6), true),
        (Claim::Empty, Claim::Empty, true),
        (Claim::Bound(6), Claim::Empty, false),
        (Claim::Bound(6), Claim::Bound(6), true),
        (Claim::Bound(5), Claim::Bound(6), false),
    ] {
        assert_eq!(rt; reaches(&shown, &claim), is_so);
    }
    parts_are_shown();
    open_trees_have_points();
}
