//! What is kept at places of the tree of a state.

ghost use Rattle.std.specs.Prelude.{◌≡◌, ◌<◌, IfSome, List, Some, length, slice_get};
ghost use Rattle.packing_laws.specs.Instances.{InstanceValue};
ghost use Rattle.flow_graph.specs.Arcs.{TypeValue};
ghost use Rattle.search_tree.specs.declared.places.Place.{Place};
ghost use Rattle.search_tree.specs.Trees.{IsShown, box_of, splits_of};
ghost use Rattle.search_states.specs.States.{IsNeedIn, IsRepriced, IsState};

use crate::states::State;
use cert_text::{Need, Prices};
use search_tree::Shown;

/// The state with a flow, if there is one, that may show that no prices spare the split of a place.
pub(crate) fn keep_need(state: State, index: usize, need: Option<Need>) -> State
    ensures state { (I : InstanceValue) (g : List TypeValue) → IfSome need (IsNeedIn g) → IsState I g state → IsState I g result }
    ensures splits { splits_of result.tree.places ≡ splits_of state.tree.places }
{
    match need {
        Some(need) if index < state.tree.places().len() => with_need(state, index, need),
        _ => state,
    }
}

// The state with a flow at a place.
fn with_need(mut state: State, index: usize, need: Need) -> State
    requires { index < length state.tree.places }
    ensures state { (I : InstanceValue) (g : List TypeValue) → IsNeedIn g need → IsState I g state → IsState I g result }
    ensures splits { splits_of result.tree.places ≡ splits_of state.tree.places }
{
    state.tree.keep_need(index, need);
    state
}

/// The state with other prices at a place, which show the same of its box.
pub(crate) fn with_prices(mut state: State, index: usize, prices: Prices) -> State
    requires { index < length state.tree.places }
    ensures state { (I : InstanceValue) (g : List TypeValue) → ((p : Place) → slice_get state.tree.places index ≡ Some p → IsShown I g (box_of state.tree.root p) (record { prices = prices; claim = p.shown.claim })) → IsState I g state → IsState I g result }
    ensures same { IsRepriced state result }
{
    let claim = state.tree.places()[index].shown.claim;
    state.tree.show(index, Shown { prices, claim });
    state
}
