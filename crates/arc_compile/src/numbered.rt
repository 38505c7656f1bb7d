//! The arcs of a graph with items and forms in place of pieces.

ghost use Rattle.std.specs.Prelude.{◌≡◌, ◌≤◌, ◌<◌, ◌^◌, All, AllPairs, IfOk};
ghost use Rattle.label_graph.specs.Graph.{ArcBefore, IsKnown};
ghost use Rattle.arc_compile.specs.Exact.{marked_item, marked_form};
ghost use Rattle.arc_compile.specs.Compiled.{type_arc, AreNamed, AreNumbered};

use arc_num::Memory;
use flow_graph::TypeArc;
use label_graph::{GraphArc, Mark, Piece};
use std::alloc::Global;

/// The item and the form that a mark carries, zeros where it carries none.
fn carried<const N: usize>(pieces: &[Piece<N>], mark: Mark) -> (u32, u32)
    requires small { N ≤ 32 }
    requires known { IsKnown pieces.now mark }
    ensures { result ≡ (marked_item pieces.now mark, marked_form pieces.now mark) }
{
    match mark {
        Mark::Loss => (0, 0),
        Mark::Piece(p) => {
            let piece = &pieces[p as usize - 1];
            (piece.item, piece.form)
        }
    }
}

/// An arc with the item and the form that it carries in place of its mark.
fn numbered_arc<const N: usize>(pieces: &[Piece<N>], arc: &GraphArc) -> TypeArc
    requires small { N ≤ 32 }
    requires known { IsKnown pieces.now arc.now.mark }
    requires tail { arc.now.tail < 2 ^ 32 }
    requires head { arc.now.head < 2 ^ 32 }
    ensures { result ≡ type_arc pieces.now arc.now }
{
    let (item, form) = carried(pieces, arc.mark);
    TypeArc {
        tail: arc.tail as u32,
        head: arc.head as u32,
        item,
        form,
    }
}

/// The arcs of a graph by tail, head, item and form, which stand in place of their pieces.
pub fn numbered_arcs<const N: usize>(
    alloc: Global,
    pieces: &[Piece<N>],
    arcs: &[GraphArc],
) -> Result<Vec<TypeArc>, Memory>
    requires small { N ≤ 32 }
    requires named { AreNamed pieces.now }
    requires known { All (λ e. IsKnown pieces.now e.mark) arcs.now }
    requires ordered { AllPairs ArcBefore arcs.now }
    requires few { All (λ e. (e.tail < 2 ^ 32) × (e.head < 2 ^ 32)) arcs.now }
    ensures { IfOk result (λ numbered. AreNumbered pieces.now arcs.now numbered.items) }
{
    let mut numbered = Vec::with_capacity(alloc, arcs.len())?;
    for arc in arcs {
        numbered.push(numbered_arc(pieces, arc))?;
    }
    numbered.sort_unstable();
    Ok(numbered)
}
