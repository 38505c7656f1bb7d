ghost use Rattle.std.specs.Prelude.{◌≡◌, ◌+◌, ◌≤◌, ◌++◌, ◌∷◌, [], IfOk, is_ok, if◌then◌else◌, length, sum_by};
ghost use Rattle.flow_graph.specs.Arcs.{kind_of, row_of};

use crate::parts::{ArcKind, TypeArc};
use arc_num::{MAX_ARCS, MAX_NUMBERED, MAX_TYPES, Memory};
use std::alloc::Global;
use std::marker::Model;

/// The nodes and arcs of one type. Node 1 is the source, the last node the target.
#[derive(Debug, Drop)]
struct FlowType {
    nodes: u32,
    arcs: Vec<TypeArc>,
}

impl Model for FlowType {
    ghost use Rattle.flow_graph.specs.Arcs.{TypeValue};

    ghost Value = { TypeValue };

    ghost view = { λ x. record { nodes = x.nodes; arcs = x.arcs.items } };
}

impl FlowType {
    ghost use Rattle.std.specs.Prelude.{◌≡◌, length};

    fn nodes(&self) -> u32
        ensures { result ≡ self.now.nodes }
    {
        self.nodes
    }

    fn arcs(&self) -> &[TypeArc]
        ensures { result.now ≡ self.now.arcs }
    {
        self.arcs.as_slice()
    }
}

/// Graphs of types, numbered from 1, whose arcs stand in one row, numbered from 1: for each type its bin arc, and then
/// its arcs by tail, head, item and form. The row is kept beside the types, so that each arc is found at once.
#[derive(Debug, Drop)]
pub struct FlowGraph {
    types: Vec<FlowType>,
    row: Vec<ArcKind>,
}

impl Model for FlowGraph {
    ghost use Rattle.std.specs.Prelude.{List};
    ghost use Rattle.flow_graph.specs.Arcs.{TypeValue};
    ghost use Rattle.flow_graph.specs.inner.Stored.{IsStored};

    ghost Value = { List TypeValue };

    ghost view = { λ g. g.types.items };

    ghost invariant = { λ g. IsStored g.types.items g.row.items };
}

impl FlowGraph {
    ghost use Rattle.std.specs.Prelude.{◌≡◌, ◌+◌, ◌<◌, ◌≤◌, ◌↔◌, ◌++◌, ◌∷◌, [], IsSome, IsErr, IfOk, IfSome, length, sum_by};
    ghost use Rattle.packing_laws.specs.Instances.{IsAmong};
    ghost use Rattle.flow_graph.specs.Arcs.{TypeValue, IsFlowType, IsFlowGraph, flow_type, numbered, arc_at, first_arc, last_arc};

    /// A graph without types.
    pub fn new(alloc: Global) -> FlowGraph
        ensures { result ≡ [] }
    {
        FlowGraph {
            types: Vec::new(alloc),
            row: Vec::new(alloc),
        }
    }

    /// Appends the bin arc and the arcs of the next type.
    pub fn add_type(&mut self, nodes: u32, arcs: &[TypeArc]) -> Result<(), Memory>
        requires types { length self.old < MAX_TYPES }
        requires room { sum_by (λ x. length x.arcs) self.old + length arcs.now ≤ MAX_ARCS }
        requires value { IsFlowType (record { nodes = nodes; arcs = arcs.now }) }
        ensures added { IfOk result (λ _. self.new ≡ self.old ++ record { nodes = nodes; arcs = arcs.now } ∷ []) }
        ensures unchanged { IsErr result → self.new ≡ self.old }
    {
        let alloc = *self.types.allocator();
        let t = self.types.len() as u32 + 1;
        let kinds = type_row(alloc, t, arcs)?;
        let arcs = Vec::from_slice(alloc, arcs)?;
        let added = FlowType { nodes, arcs };
        put_both(&mut self.types, added, &mut self.row, kinds.as_slice())?;
        Ok(())
    }

    /// A call that costs nothing: what each graph keeps.
    pub fn known(&self)
        ensures { IsFlowGraph self.now }
    {
        let _row = &self.row;
    }

    /// The arc with this number.
    pub fn arc(&self, a: u32) -> Option<ArcKind>
        ensures some { IsSome result ↔ IsAmong a (length (numbered self.now)) }
        ensures value { result ≡ arc_at self.now a }
    {
        if a == 0 {
            return None;
        }
        self.row.get(a as usize - 1).copied()
    }

    /// The numbers of the first arc of a type, which is its bin arc, and of its last one.
    pub fn arcs_of(&self, t: u32) -> Option<(u32, u32)>
        ensures some { IsSome result ↔ IsAmong t (length self.now) }
        ensures value { IfSome result (λ r. r ≡ (first_arc self.now t, last_arc self.now t)) }
    {
        let arcs = self.type_arcs(t)?;
        let first = number_after(&self.types[..t as usize - 1]);
        Some((first, first + arcs.len() as u32))
    }

    /// How many nodes a type has.
    pub fn node_count(&self, t: u32) -> Option<u32>
        ensures some { IsSome result ↔ IsAmong t (length self.now) }
        ensures value { IfSome result (λ n. n ≡ (flow_type self.now t).nodes) }
    {
        if t == 0 {
            return None;
        }
        self.types.get(t as usize - 1).map(|x| x.nodes())
    }

    /// The arcs of a type but for its bin arc, in order. The first of them has the number after that of the bin arc.
    pub fn type_arcs(&self, t: u32) -> Option<&[TypeArc]>
        ensures some { IsSome result ↔ IsAmong t (length self.now) }
        ensures value { IfSome result (λ x. x.now ≡ (flow_type self.now t).arcs) }
    {
        if t == 0 {
            return None;
        }
        self.types.get(t as usize - 1).map(|x| x.arcs())
    }

    /// All arcs, by number.
    pub fn row(&self) -> &[ArcKind]
        ensures { result.now ≡ numbered self.now }
    {
        self.row.as_slice()
    }

    /// How many arcs there are: at most 1,000,064.
    pub fn arc_count(&self) -> u32
        ensures value { result ≡ length (numbered self.now) }
        ensures known { result ≤ MAX_NUMBERED }
    {
        self.row.len() as u32
    }

    /// How many types there are: at most 64.
    pub fn type_count(&self) -> u32
        ensures value { result ≡ length self.now }
        ensures known { result ≤ MAX_TYPES }
    {
        self.types.len() as u32
    }
}

// Appends a type to the types and its arcs to the row, or nothing to either.
fn put_both(
    types: &mut Vec<FlowType>,
    added: FlowType,
    row: &mut Vec<ArcKind>,
    kinds: &[ArcKind],
) -> Result<(), Memory>
    ensures types { types.new.items ≡ (if is_ok result then types.old.items ++ added ∷ [] else types.old.items) }
    ensures row { row.new.items ≡ (if is_ok result then row.old.items ++ kinds.now else row.old.items) }
{
    let before = row.len();
    row.extend_from_slice(kinds)?;
    match types.push(added) {
        Ok(()) => Ok(()),
        Err(_) => {
            row.truncate(before);
            Err(Memory)
        }
    }
}

// The arcs of a type as they stand in the row.
fn type_row(alloc: Global, t: u32, arcs: &[TypeArc]) -> Result<Vec<ArcKind>, Memory>
    ensures { IfOk result (λ v. v.items ≡ row_of t arcs.now) }
{
    let mut row = Vec::with_capacity(alloc, arcs.len() + 1)?;
    row.push(ArcKind::Bin { t })?;
    for arc in arcs {
        row.push(kind(t, arc))?;
    }
    Ok(row)
}

// What an arc of a type is in the row.
fn kind(t: u32, arc: &TypeArc) -> ArcKind
    ensures { result ≡ kind_of t arc.now }
{
    let TypeArc {
        tail,
        head,
        item,
        form,
    } = *arc;
    if item == 0 {
        ArcKind::Loss { t, tail, head }
    } else {
        ArcKind::Piece {
            t,
            tail,
            head,
            item,
            form,
        }
    }
}

// The number of the arc that comes after those of the types.
fn number_after(types: &[FlowType]) -> u32
    requires { sum_by (λ x. length x.arcs + 1) types.now ≤ MAX_NUMBERED }
    ensures { result ≡ sum_by (λ x. length x.arcs + 1) types.now + 1 }
{
    let mut number = 1;
    for before in types {
        number += before.arcs().len() as u32 + 1;
    }
    number
}
