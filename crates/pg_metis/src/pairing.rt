//! From the arcs that the lines of a graph file name to its edges: each arc is held against its mirror.
//!
//! Where every line ascends, its edges are found without a sort (`ascending`). This is the way for all other files, and
//! finds what is wrong. The arcs to lesser vertices, sorted, are the edges. Vertex by vertex, the arcs of its line to greater vertices have
//! to be the edges from it. Where they stand in the edges' order, they are compared side by side. Else the edges leave
//! marks at their greater ends, and the arcs take them away. So an edge that only the line of its greater end names is
//! left over when that line is reached.

ghost use Rattle.std.specs.Prelude.{◌≡◌, ◌+◌, ◌*◌, ◌≤◌, ◌-◌, Some, IfOk, IfSome, IfNone, length, slice_range, slice_set, All, AllPairs, Any, MatchBool};
ghost use Rattle.pg_base.specs.declared.edges.Edge.{Edge};
ghost use Rattle.pg_base.specs.declared.TheConstants.{MAX_EDGES, MAX_VERTICES};
ghost use Rattle.pg_base.specs.Graph.{IsEdge, Precedes};
ghost use Rattle.pg_metis.specs.declared.pairing.Mark.{Mark};
ghost use Rattle.pg_metis.specs.declared.pairing.PairFault.TheVariants.{OutOfMemory};
ghost use Rattle.pg_metis.specs.Fault.{first_unmirrored};
ghost use Rattle.pg_metis.specs.Lines.{IsInOrder, IsPaired, IsRun, IsSettled};
ghost use Rattle.pg_metis.specs.Marks.{LeaveMarks, Meets, MeetsNone, is_owed, mark_at, marked_by};
ghost use Rattle.pg_metis.specs.Mirrors.{AreLowerEdges, AreWeightsTo, edge_back, edge_forth, first_vertex, back_edges};
ghost use Rattle.pg_metis.specs.Pairing.{arc_of, arcs_named, AreEdgesOf, AreNamed, IsNamed, OnNotPaired};

use crate::Kind;
use crate::ascending::ascending_edges;
use crate::sorting::sort_edges;
use pg_base::Edge;
use std::alloc::{AllocError, Global};

/// An arc that the line of the vertex `from` names.
#[derive(Clone, Copy)]
pub(crate) struct NamedArc {
    pub from: u32,
    pub to: u32,
    pub weight: u32,
}

/// Why arcs are not those of a graph.
#[derive(Drop)]
pub(crate) enum PairFault {
    /// The first arc that has no equal mirror leaves this vertex.
    NotPaired { vertex: u32, kind: Kind },
    /// Out of memory. No clause says when it comes.
    OutOfMemory,
}

impl From<AllocError> for PairFault {
    ghost from_gives = { λ _ fault. fault ≡ OutOfMemory };

    fn from(_error: AllocError) -> PairFault {
        PairFault::OutOfMemory
    }
}

/// What stands at a vertex of the edges from lesser ones.
#[derive(Clone, Copy)]
struct Mark {
    /// The vertex of the last edge, as long as no arc from there has met it; else 0.
    vertex: u32,
    weight: u32,
    /// An edge before that one was met by no arc.
    missed: bool,
}

impl Mark {
    /// An edge was met by no arc.
    fn is_owed(self) -> bool
        ensures { result ≡ is_owed self }
    {
        self.missed || self.vertex != 0
    }
}

/// How many arcs, and how many edges, belong to the lines that were looked at.
#[derive(Clone, Copy)]
struct Place {
    arcs: usize,
    edges: usize,
}

/// The edges whose two directions the arcs are, ascending. `NotPaired` names the first arc without an equal
/// mirror. Takes time and memory linear in n and the arcs.
pub(crate) fn edges_of(alloc: Global, n: u32, arcs: Vec<NamedArc>) -> Result<Vec<Edge>, PairFault>
    requires few { n ≤ MAX_VERTICES }
    requires size { length arcs.items ≤ 2 * MAX_EDGES }
    requires named { AreNamed n (arcs_named arcs.items) }
    ensures ok { IfOk result (λ edges. AreEdgesOf n (arcs_named arcs.items) edges.items) }
    ensures not_paired { OnNotPaired result (λ found. first_unmirrored (arcs_named arcs.items) (arcs_named arcs.items) ≡ Some found) }
{
    if let Some(edges) = ascending_edges(alloc, n, &arcs)? {
        return Ok(edges);
    }
    let edges = lower_edges(alloc, &arcs)?;
    match first_unpaired(alloc, n, &arcs, &edges)? {
        None => Ok(edges),
        Some(vertex) => Err(PairFault::NotPaired {
            vertex,
            kind: kind_at(alloc, n, &arcs, vertex)?,
        }),
    }
}

/// The edges of the arcs to lesser vertices, ascending.
fn lower_edges(alloc: Global, arcs: &[NamedArc]) -> Result<Vec<Edge>, AllocError>
    requires named { AreNamed MAX_VERTICES (arcs_named arcs.now) }
    requires size { length arcs.now ≤ 2 * MAX_EDGES }
    ensures { IfOk result (λ edges. AreLowerEdges (arcs_named arcs.now) edges.items) }
{
    let mut edges = lower_in_order(alloc, arcs)?;
    sort_edges(alloc, &mut edges)?;
    Ok(edges)
}

/// The edges of the arcs to lesser vertices, in the order of the arcs.
fn lower_in_order(alloc: Global, arcs: &[NamedArc]) -> Result<Vec<Edge>, AllocError>
    ensures { IfOk result (λ edges. edges.items ≡ back_edges (arcs_named arcs.now)) }
{
    let mut edges = Vec::with_capacity(alloc, arcs.len() / 2)?;
    for arc in arcs {
        if arc.to < arc.from {
            edges.push(edge_from(*arc))?;
        }
    }
    Ok(edges)
}

/// The first vertex with an arc that has no equal mirror.
fn first_unpaired(
    alloc: Global,
    n: u32,
    arcs: &[NamedArc],
    edges: &[Edge],
) -> Result<Option<u32>, AllocError>
    requires few { n ≤ MAX_VERTICES }
    requires named { AreNamed n (arcs_named arcs.now) }
    requires lower { AreLowerEdges (arcs_named arcs.now) edges.now }
    ensures { IfOk result (λ found. first_vertex (arcs_named arcs.now) ≡ found) }
{
    let mut marks = vec![in alloc; Mark {
        vertex: 0,
        weight: 0,
        missed: false
    }; n as usize]?;
    let mut place = Place { arcs: 0, edges: 0 };
    for u in 1..n + 1 {
        let Some(next) = pass_line(u, arcs, edges, place, &mut marks) else {
            return Ok(Some(u));
        };
        place = next;
    }
    Ok(None)
}

/// Goes past the line of `u`, unless an arc from `u` has no equal mirror.
fn pass_line(
    u: u32,
    arcs: &[NamedArc],
    edges: &[Edge],
    place: Place,
    marks: &mut [Mark],
) -> Option<Place>
    requires first { 1 ≤ u }
    requires last { u ≤ length marks.old }
    requires named { AreNamed (length marks.old) (arcs_named arcs.now) }
    requires lower { AreLowerEdges (arcs_named arcs.now) edges.now }
    requires settled { IsSettled u (arcs_named arcs.now) edges.now place.arcs place.edges marks.old }
    ensures settled { IfSome result (λ next. IsSettled (u + 1) (arcs_named arcs.now) edges.now next.arcs next.edges marks.new) }
    ensures unpaired { IfNone result (first_vertex (arcs_named arcs.now) ≡ Some u) }
{
    if marks[u as usize - 1].is_owed() {
        return None;
    }
    if let Some(next) = match_line(u, arcs, edges, place) {
        return Some(next);
    }
    let marked = mark_edges(u, edges, place.edges, marks);
    let Some(looked) = look_at_line(u, arcs, place.arcs, marks) else {
        return None;
    };
    Some(Place {
        arcs: looked,
        edges: marked,
    })
}

/// Goes past the line of `u` where its arcs to greater vertices are the edges from `u`, in their order.
fn match_line(u: u32, arcs: &[NamedArc], edges: &[Edge], place: Place) -> Option<Place>
    requires arcs { place.arcs ≤ length arcs.now }
    requires edges { place.edges ≤ length edges.now }
    ensures { IfSome result (λ next. IsInOrder u (arcs_named arcs.now) edges.now place.arcs place.edges next.arcs next.edges) }
{
    let mut next = place;
    while next.arcs < arcs.len() && arcs[next.arcs].from == u {
        let arc = arcs[next.arcs];
        if arc.to > u {
            if next.edges == edges.len() || edges[next.edges] != edge_to(arc) {
                return None;
            }
            next.edges += 1;
        }
        next.arcs += 1;
    }
    if next.edges < edges.len() && edges[next.edges].u == u {
        return None;
    }
    Some(next)
}

/// The edge of an arc to a lesser vertex.
pub(crate) fn edge_from(arc: NamedArc) -> Edge
    ensures { result ≡ edge_back (arc_of arc) }
{
    Edge {
        u: arc.to,
        v: arc.from,
        w: arc.weight,
    }
}

/// The edge of an arc to a greater vertex.
pub(crate) fn edge_to(arc: NamedArc) -> Edge
    ensures { result ≡ edge_forth (arc_of arc) }
{
    Edge {
        u: arc.from,
        v: arc.to,
        w: arc.weight,
    }
}

/// Marks the greater ends of the edges from `u`, which begin at `begin`. Answers where they end.
fn mark_edges(u: u32, edges: &[Edge], begin: usize, marks: &mut [Mark]) -> usize
    requires begin { begin ≤ length edges.now }
    requires within { All (IsEdge (length marks.old)) edges.now }
    requires ascending { AllPairs Precedes edges.now }
    ensures run { IsRun (λ e. e.u) edges.now u begin result }
    ensures marks { LeaveMarks (slice_range edges.now begin result) marks.old marks.new }
{
    let mut end = begin;
    while end < edges.len() && edges[end].u == u {
        mark_edge(edges[end], marks);
        end += 1;
    }
    end
}

/// Marks the greater end of the edge.
fn mark_edge(edge: Edge, marks: &mut [Mark])
    requires first { 1 ≤ edge.v }
    requires last { edge.v ≤ length marks.old }
    ensures { (d : Mark) → marks.new ≡ slice_set marks.old (edge.v - 1) (marked_by edge (mark_at marks.old edge.v d)) }
{
    let mark = &mut marks[edge.v as usize - 1];
    *mark = Mark {
        vertex: edge.u,
        weight: edge.w,
        missed: mark.is_owed(),
    };
}

/// Holds the arcs of the line of `u`, which begin at `begin`, against the marks. Answers where they end, where each
/// has an equal mirror.
fn look_at_line(u: u32, arcs: &[NamedArc], begin: usize, marks: &mut [Mark]) -> Option<usize>
    requires first { 1 ≤ u }
    requires last { u ≤ length marks.old }
    requires begin { begin ≤ length arcs.now }
    requires named { AreNamed (length marks.old) (arcs_named arcs.now) }
    ensures paired { IfSome result (λ end. IsPaired u (arcs_named arcs.now) begin end marks.old marks.new) }
    ensures unpaired { IfNone result (Any (λ a. (a.from ≡ u) × MeetsNone a marks.old) (arcs_named arcs.now)) }
{
    let mut end = begin;
    while end < arcs.len() && arcs[end].from == u {
        if !meets(arcs[end], marks) {
            return None;
        }
        end += 1;
    }
    Some(end)
}

/// Whether the arc meets a mark of its weight, if it goes to a greater vertex. Takes the mark away.
fn meets(arc: NamedArc, marks: &mut [Mark]) -> bool
    requires { IsNamed (length marks.old) (arc_of arc) }
    ensures { MatchBool result (Meets (arc_of arc) marks.old marks.new) (MeetsNone (arc_of arc) marks.old) }
{
    if arc.to < arc.from {
        return true;
    }
    let mark = &mut marks[arc.to as usize - 1];
    if mark.vertex != arc.from || mark.weight != arc.weight {
        return false;
    }
    mark.vertex = 0;
    true
}

/// What is wrong with the first arc from `vertex` that has no equal mirror.
fn kind_at(alloc: Global, n: u32, arcs: &[NamedArc], vertex: u32) -> Result<Kind, AllocError>
    requires named { AreNamed n (arcs_named arcs.now) }
    requires found { first_vertex (arcs_named arcs.now) ≡ Some vertex }
    ensures { IfOk result (λ kind. first_unmirrored (arcs_named arcs.now) (arcs_named arcs.now) ≡ Some (record { vertex = vertex; kind = kind })) }
{
    let weights = weights_to(alloc, n, arcs, vertex)?;
    Ok(first_kind(arcs, vertex, &weights))
}

/// The weight of the arc from each vertex to `vertex`, or 0.
fn weights_to(alloc: Global, n: u32, arcs: &[NamedArc], vertex: u32) -> Result<Vec<u32>, AllocError>
    requires { AreNamed n (arcs_named arcs.now) }
    ensures count { IfOk result (λ weights. length weights.items ≡ n) }
    ensures weights { IfOk result (λ weights. AreWeightsTo vertex (arcs_named arcs.now) weights.items) }
{
    let mut weights = vec![in alloc; 0; n as usize]?;
    for arc in arcs {
        if arc.to == vertex {
            weights[arc.from as usize - 1] = arc.weight;
        }
    }
    Ok(weights)
}

/// What is wrong with the first arc from `vertex` whose mirror has another weight than it has.
fn first_kind(arcs: &[NamedArc], vertex: u32, weights: &[u32]) -> Kind
    requires named { AreNamed (length weights.now) (arcs_named arcs.now) }
    requires weights { AreWeightsTo vertex (arcs_named arcs.now) weights.now }
    requires found { first_vertex (arcs_named arcs.now) ≡ Some vertex }
    ensures { first_unmirrored (arcs_named arcs.now) (arcs_named arcs.now) ≡ Some (record { vertex = vertex; kind = result }) }
{
    for arc in arcs {
        if arc.from == vertex {
            let weight = weights[arc.to as usize - 1];
            if weight == 0 {
                return Kind::NoMirror;
            }
            if weight != arc.weight {
                return Kind::MirrorWeight;
            }
        }
    }
    unreachable!()
}
