//! Joint graphs by their arcs.

ghost use Rattle.std.specs.Prelude.{◌≡◌, ◌≤◌, ◌++◌, IfOk, length, map};
ghost use Rattle.arc_num.specs.declared.TheConstants.{MAX_TYPES};
ghost use Rattle.flow_graph.specs.declared.parts.ArcKind.TheVariants.{Bin};
ghost use Rattle.flow_graph.specs.Arcs.{kind_of};
ghost use Rattle.flow_model.specs.Flows.{up_to};

use arc_num::Memory;
use flow_graph::{ArcKind, TypeArc};
use std::alloc::Global;
use std::marker::Model;

/// An arc of a joint graph. Item and form are 0 where it carries nothing, as each bin arc.
pub type JointArc = TypeArc;

/// A graph with one source, which is node 1, and a target for each type of bins: the last nodes, in the order of types. Its
/// arcs are numbered from 1: first the bin arc of each type, from its target to the source, and then the others by tail,
/// head, item and form.
#[derive(Debug, Drop)]
pub struct JointArcs {
    inner: u32,
    types: u32,
    arcs: Vec<TypeArc>,
    row: Vec<ArcKind>,
}

impl Model for JointArcs {
    ghost use Rattle.joint_arcs.specs.Joined.{JointValue};
    ghost use Rattle.joint_arcs.specs.inner.Stored.{IsStored};

    ghost Value = { JointValue };

    ghost view = { λ g. record { inner = g.inner; types = g.types; arcs = g.arcs.items } };

    ghost invariant = { λ g. IsStored (record { inner = g.inner; types = g.types; arcs = g.arcs.items }) g.row.items };
}

impl JointArcs {
    ghost use Rattle.std.specs.Prelude.{◌≡◌, ◌+◌, ◌≤◌, ◌↔◌, IsSome, IfOk, IfSome, length};
    ghost use Rattle.std.specs.Option.{IsSomeAnd};
    ghost use Rattle.packing_laws.specs.Instances.{IsAmong};
    ghost use Rattle.flow_model.specs.inner.Known.{NamesType};
    ghost use Rattle.joint_arcs.specs.Joined.{JointValue, IsJoint, arc_at, arc_of, node_count, numbered};

    /// The graph of so many nodes that are no targets, so many types, and these arcs beside the bin arcs.
    pub fn new(
        alloc: Global,
        inner: u32,
        types: u32,
        arcs: Vec<TypeArc>,
    ) -> Result<JointArcs, Memory>
        requires { IsJoint (record { inner = inner; types = types; arcs = arcs.items }) }
        ensures { IfOk result (λ graph. graph ≡ record { inner = inner; types = types; arcs = arcs.items }) }
    {
        let row = row_of(alloc, types, arcs.as_slice())?;
        Ok(JointArcs {
            inner,
            types,
            arcs,
            row,
        })
    }

    /// A call that costs nothing: what each joint graph keeps.
    pub fn known(&self)
        ensures { IsJoint self.now }
    {
        let _row = &self.row;
    }

    /// The arc with this number.
    pub fn arc(&self, a: u32) -> Option<JointArc>
        ensures some { IsSome result ↔ IsAmong a (length (numbered self.now)) }
        ensures value { IfSome result (λ e. IsSomeAnd (arc_at self.now a) (λ kind. e ≡ arc_of self.now kind)) }
    {
        if a == 0 {
            return None;
        }
        let kind = self.row.get(a as usize - 1)?;
        Some(self.joined(kind))
    }

    /// How many arcs there are, the bin arcs among them.
    pub fn arc_count(&self) -> u32
        ensures { result ≡ length (numbered self.now) }
    {
        self.row.len() as u32
    }

    /// How many nodes there are, the targets among them.
    pub fn node_count(&self) -> u32
        ensures { result ≡ node_count self.now }
    {
        self.inner + self.types
    }

    /// How many types there are.
    pub fn type_count(&self) -> u32
        ensures { result ≡ self.now.types }
    {
        self.types
    }

    /// How many nodes are no targets.
    pub fn inner_count(&self) -> u32
        ensures { result ≡ self.now.inner }
    {
        self.inner
    }

    /// All arcs in one row, by number. Those that are no bin arcs stand as arcs of type 1.
    pub fn row(&self) -> &[ArcKind]
        ensures { result.now ≡ numbered self.now }
    {
        self.row.as_slice()
    }

    // An arc of the row with its two nodes.
    fn joined(&self, kind: &ArcKind) -> JointArc
        requires { NamesType self.now.types kind.now }
        ensures { result ≡ arc_of self.now kind.now }
    {
        match *kind {
            ArcKind::Bin { t } => TypeArc {
                tail: self.inner + t,
                head: 1,
                item: 0,
                form: 0,
            },
            ArcKind::Loss { tail, head, .. } => TypeArc {
                tail,
                head,
                item: 0,
                form: 0,
            },
            ArcKind::Piece {
                tail,
                head,
                item,
                form,
                ..
            } => TypeArc {
                tail,
                head,
                item,
                form,
            },
        }
    }
}

// The bin arcs by type, and then the others, in one row.
fn row_of(alloc: Global, types: u32, arcs: &[TypeArc]) -> Result<Vec<ArcKind>, Memory>
    requires { types ≤ MAX_TYPES }
    ensures { IfOk result (λ row. row.items ≡ map (λ t. Bin t) (up_to types) ++ map (kind_of 1) arcs.now) }
{
    let mut row = Vec::new(alloc);
    for t in 0..types {
        row.push(ArcKind::Bin { t: t + 1 })?;
    }
    push_kinds(&mut row, arcs)?;
    Ok(row)
}

// Appends arcs that are no bin arcs.
fn push_kinds(row: &mut Vec<ArcKind>, arcs: &[TypeArc]) -> Result<(), Memory>
    ensures { IfOk result (λ _. row.new.items ≡ row.old.items ++ map (kind_of 1) arcs.now) }
{
    for arc in arcs {
        row.push(kind_of(arc))?;
    }
    Ok(())
}

// An arc that is no bin arc, as it stands in the row.
fn kind_of(arc: &TypeArc) -> ArcKind
    ensures { result ≡ kind_of 1 arc.now }
{
    let TypeArc {
        tail,
        head,
        item,
        form,
    } = *arc;
    if item == 0 {
        ArcKind::Loss { t: 1, tail, head }
    } else {
        ArcKind::Piece {
            t: 1,
            tail,
            head,
            item,
            form,
        }
    }
}
