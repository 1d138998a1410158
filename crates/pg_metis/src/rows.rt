//! The lines of the vertices: what is wrong with one, and which arcs it names.

ghost use Rattle.std.specs.Prelude.{◌≡◌, ◌+◌, ◌-◌, ◌<◌, ◌≤◌, ◌∷◌, [], ℕ, List, None, Some, true, OnOk, IfOk, IfErr, IfSome, length, All};
ghost use Rattle.pg_text.specs.Text.{decimal_value, words};
ghost use Rattle.pg_metis.specs.File.{Header as HeaderTold, line_arcs};
ghost use Rattle.pg_metis.specs.Fault.{arcs_or_none, neighbour_fault, row_fault, vertex_fault};
ghost use Rattle.pg_metis.specs.Headers.{format_in, header_in};
ghost use Rattle.pg_metis.specs.Arcs.{Adds, Extends};
ghost use Rattle.pg_metis.specs.Rows.{AreStamps, Skips, TakesWeight, edge_weight_fault, arcs_by};

use crate::Kind;
use crate::arcs::NamedArcs;
use crate::headers::Header;
use crate::numbers::number_of;
use crate::pairing::NamedArc;
use pg_text::{Words, words};

/// Takes the words of the line of `vertex`. In `stamps` stands, for each vertex, the last vertex whose line named it.
pub(crate) fn take_row(
    header: Header,
    vertex: u32,
    line: &[u8],
    stamps: &mut [u32],
    arcs: &mut NamedArcs,
) -> Result<(), Kind>
    requires first { 1 ≤ vertex }
    requires stamps { length stamps.old ≡ header.n }
    requires earlier { All (λ stamp. stamp < vertex) stamps.old }
    ensures faultless { OnOk result (vertex_fault (header_in header) vertex (words line.now) ≡ None) }
    ensures arcs { OnOk result (Adds arcs.old (arcs_or_none (line_arcs (format_in header.format) vertex line.now)) arcs.new) }
    ensures stamps { OnOk result (All (λ stamp. stamp < vertex + 1) stamps.new) }
    ensures refused { IfErr result (λ kind. vertex_fault (header_in header) vertex (words line.now) ≡ Some kind) }
{
    let mark = arcs.mark();
    if take_ascending_row(header, vertex, line, arcs) {
        return Ok(());
    }
    arcs.rewind(mark);
    take_any_row(header, vertex, line, stamps, arcs)
}

/// Takes the words of the line of `vertex` where nothing is wrong with them and its neighbours ascend, so that none is
/// repeated, and says whether that is so. Where it isn't, only what was kept of arcs before is known.
fn take_ascending_row(header: Header, vertex: u32, line: &[u8], arcs: &mut NamedArcs) -> bool
    ensures faultless { result ≡ true → vertex_fault (header_in header) vertex (words line.now) ≡ None }
    ensures arcs { result ≡ true → Adds arcs.old (arcs_or_none (line_arcs (format_in header.format) vertex line.now)) arcs.new }
    ensures extends { Extends arcs.old arcs.new }
{
    let mut left = words(line);
    let Ok(()) = skip_numbers(&mut left, header.format.leading()) else {
        return false;
    };
    take_ascending(header, vertex, left, arcs)
}

/// Takes the words that are left of the line of `vertex`, as long as nothing is wrong and its neighbours ascend, and says
/// whether these were all.
fn take_ascending(header: Header, vertex: u32, mut left: Words<'_>, arcs: &mut NamedArcs) -> bool
    ensures faultless { result ≡ true → row_fault (header_in header) vertex 0 (words left.entry.rest.now) ≡ None }
    ensures arcs { result ≡ true → Adds arcs.old (arcs_by header.format.edge_weights vertex (words left.entry.rest.now)) arcs.new }
    ensures extends { Extends arcs.old arcs.new }
{
    let mut last = 0;
    while let Some(word) = left.next() {
        let Some(to) = greater_neighbour(header.n, vertex, last, word) else {
            return false;
        };
        let Ok(weight) = edge_weight(header.format.edge_weights, &mut left) else {
            return false;
        };
        arcs.push(NamedArc {
            from: vertex,
            to,
            weight,
        });
        last = to;
    }
    true
}

/// The neighbour of `vertex` that a word is, where nothing is wrong with it and it is greater than `last`.
fn greater_neighbour(n: u32, vertex: u32, last: u32, word: &[u8]) -> Option<u32>
    ensures value { IfSome result (λ to. to ≡ decimal_value word.now) }
    ensures greater { IfSome result (λ to. last < to) }
    ensures faultless { IfSome result (λ to. (earlier : List ℕ) → All (λ x. x ≤ last) earlier → neighbour_fault n vertex earlier word.now ≡ None) }
{
    let Ok(to) = number_of(word) else {
        return None;
    };
    if to <= last || to > n || to == vertex {
        return None;
    }
    Some(to)
}

/// Takes the words of the line of `vertex`, whatever the order of its neighbours.
fn take_any_row(
    header: Header,
    vertex: u32,
    line: &[u8],
    stamps: &mut [u32],
    arcs: &mut NamedArcs,
) -> Result<(), Kind>
    requires first { 1 ≤ vertex }
    requires stamps { length stamps.old ≡ header.n }
    requires earlier { All (λ stamp. stamp < vertex) stamps.old }
    ensures faultless { OnOk result (vertex_fault (header_in header) vertex (words line.now) ≡ None) }
    ensures arcs { OnOk result (Adds arcs.old (arcs_or_none (line_arcs (format_in header.format) vertex line.now)) arcs.new) }
    ensures stamps { OnOk result (All (λ stamp. stamp < vertex + 1) stamps.new) }
    ensures refused { IfErr result (λ kind. vertex_fault (header_in header) vertex (words line.now) ≡ Some kind) }
{
    let mut left = words(line);
    skip_numbers(&mut left, header.format.leading())?;
    take_neighbours(header, vertex, left, stamps, arcs)
}

/// Passes over so many words, which must be numbers.
fn skip_numbers(left: &mut Words<'_>, count: u64) -> Result<(), Kind>
    ensures ok { OnOk result (Skips count (words left.old.rest.now) (words left.new.rest.now)) }
    ensures refused { IfErr result (λ kind. (header : HeaderTold) (v : ℕ) → row_fault header v count (words left.old.rest.now) ≡ Some kind) }
{
    for _place in 0..count {
        let Some(passed) = left.next() else {
            return Err(Kind::ShortLine);
        };
        number_of(passed)?;
    }
    Ok(())
}

/// Takes the words that are left of the line of `vertex`: its neighbours, with the weights of its edges.
fn take_neighbours(
    header: Header,
    vertex: u32,
    mut left: Words<'_>,
    stamps: &mut [u32],
    arcs: &mut NamedArcs,
) -> Result<(), Kind>
    requires first { 1 ≤ vertex }
    requires stamps { length stamps.old ≡ header.n }
    requires earlier { All (λ stamp. stamp < vertex) stamps.old }
    ensures faultless { OnOk result (row_fault (header_in header) vertex 0 (words left.entry.rest.now) ≡ None) }
    ensures arcs { OnOk result (Adds arcs.old (arcs_by header.format.edge_weights vertex (words left.entry.rest.now)) arcs.new) }
    ensures stamps { OnOk result (All (λ stamp. stamp < vertex + 1) stamps.new) }
    ensures refused { IfErr result (λ kind. row_fault (header_in header) vertex 0 (words left.entry.rest.now) ≡ Some kind) }
{
    while let Some(word) = left.next() {
        let to = take_neighbour(header.n, vertex, word, stamps)?;
        let weight = edge_weight(header.format.edge_weights, &mut left)?;
        arcs.push(NamedArc {
            from: vertex,
            to,
            weight,
        });
    }
    Ok(())
}

/// The neighbour of `vertex` that a word is, which is stamped.
fn take_neighbour(n: u32, vertex: u32, word: &[u8], stamps: &mut [u32]) -> Result<u32, Kind>
    requires stamps { length stamps.old ≡ n }
    ensures value { IfOk result (λ to. to ≡ decimal_value word.now) }
    ensures ok { IfOk result (λ to. (earlier : List ℕ) → AreStamps vertex earlier stamps.old → AreStamps vertex (to ∷ earlier) stamps.new) }
    ensures faultless { OnOk result ((earlier : List ℕ) → AreStamps vertex earlier stamps.old → neighbour_fault n vertex earlier word.now ≡ None) }
    ensures refused { IfErr result (λ kind. (earlier : List ℕ) → AreStamps vertex earlier stamps.old → neighbour_fault n vertex earlier word.now ≡ Some kind) }
{
    let to = number_of(word)?;
    if to == 0 || to > n {
        return Err(Kind::OutOfRange);
    }
    if to == vertex {
        return Err(Kind::SelfEdge);
    }
    let stamp = &mut stamps[to as usize - 1];
    if *stamp == vertex {
        return Err(Kind::Repeated);
    }
    *stamp = vertex;
    Ok(to)
}

/// The weight of an edge: the next word, or 1 where edges have no weights.
fn edge_weight(weighted: bool, left: &mut Words<'_>) -> Result<u32, Kind>
    ensures ok { IfOk result (λ weight. TakesWeight weighted (words left.old.rest.now) weight (words left.new.rest.now)) }
    ensures refused { IfErr result (λ kind. edge_weight_fault weighted (words left.old.rest.now) ≡ Some kind) }
{
    if !weighted {
        return Ok(1);
    }
    let word = left.next().ok_or(Kind::ShortLine)?;
    let weight = number_of(word)?;
    if weight == 0 {
        return Err(Kind::ZeroWeight);
    }
    Ok(weight)
}
