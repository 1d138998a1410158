//! Least numbers of arcs and components in one run: two relaxations over one divided graph, as a pair on each rank.
ghost use Rattle.std.specs.Prelude.{◌≡◌, ℕ, ◌≤◌, IfOk, Some, length, map, slice_get};
ghost use Rattle.pg_base.specs.Distances.{AreLeastArcs};
ghost use Rattle.pg_group.specs.Entries.{Each};
ghost use Rattle.pg_agenda.specs.Shares.{takes_all};
ghost use Rattle.pg_dist.specs.Sharing.{IsSharing};
ghost use Rattle.pg_relax.specs.Shown.{IsNewRelax, part_in};
ghost use Rattle.pg_top.specs.Paired.{ArePaired, AreOpen, IsPairCarried, hops_in, roots_in};
ghost use Rattle.pg_top.specs.Relaxed.{AreAnswers, HavePlaces};
ghost use Rattle.pg_top.specs.Text.{AreLowest};

use crate::agendas::ByLevel;
use crate::columns::{Field, Numbers};
use crate::crews::Crew;
use crate::relaxing::{number, programs_of};
use pg_adj::split_on_threads;
use pg_agenda::Levels;
use pg_base::{EdgeList, Gate, OutOfMemory, Vertex};
use pg_dist::{Block, Distribution};
use pg_group::Program;
use pg_label::{Hops, Label, Root};
use pg_lane::RingLanes;
use pg_relax::Relax;
use pg_relax::laws::relaxations_stop_once_all_votes_are_quiet;
use pg_run::{Finished, assemble, run};
use pg_triggers::Pair;
use pg_triggers::laws::members_have_whole_books;
use std::alloc::Global;
use std::sync::Wait;
use std::thread::Threads;

/// On each rank a relaxation by numbers of arcs, and one by the least vertices of components.
pub(crate) type HopsAndRoots = Pair<Relax<Hops, Levels>, Relax<Root, Levels>>;

/// What a run of such pairs answers, and the programs and lanes that ended with it.
#[derive(Drop)]
pub(crate) struct Searched {
    /// The least number of arcs of a walk from the source to each vertex that one leads to.
    pub(crate) hops: Numbers,
    /// The least vertex of each vertex's component.
    pub(crate) roots: Numbers,
    pub(crate) finished: Finished<HopsAndRoots>,
}

/// New relaxations by this label over the parts of the graph, one for each rank.
fn relaxations<W: Threads + Sync, L: Label + Copy + Drop, D: Distribution + Sync>(
    token: &W,
    alloc: Global,
    threads: u32,
    graph: &EdgeList,
    dist: &D,
    label: L,
) -> Result<Vec<Relax<L, Levels>>, OutOfMemory>
    requires threads { 1 ≤ threads }
    requires n { graph.now.n ≡ (D.sharing dist.now).n }
    ensures { IfOk result (λ programs. AreOpen label takes_all (D.sharing dist.now) graph.now programs.items) }
{
    let parts = split_on_threads(token, alloc, threads, graph, dist)?;
    programs_of(alloc, parts, label, &ByLevel)
}

/// The pairs of two lists of new relaxations, rank by rank.
fn pairs_of(
    alloc: Global,
    mut hops: Vec<Relax<Hops, Levels>>,
    mut roots: Vec<Relax<Root, Levels>>,
) -> Result<Vec<HopsAndRoots>, OutOfMemory>
    requires count { length roots.items ≡ length hops.items }
    requires new_hops { Each (λ rank p. IsNewRelax p) hops.items }
    requires new_roots { Each (λ rank p. IsNewRelax p) roots.items }
    requires ranks_of_hops { Each (λ rank p. (part_in p).rank ≡ rank) hops.items }
    requires ranks_of_roots { Each (λ rank p. (part_in p).rank ≡ rank) roots.items }
    requires sizes_of_hops { Each (λ rank p. (part_in p).ranks ≡ length hops.items) hops.items }
    requires sizes_of_roots { Each (λ rank p. (part_in p).ranks ≡ length hops.items) roots.items }
    ensures hops { IfOk result (λ pairs. map hops_in pairs.items ≡ hops.items) }
    ensures roots { IfOk result (λ pairs. map roots_in pairs.items ≡ roots.items) }
    ensures new { IfOk result (λ pairs. Each (λ rank p. ⟦<HopsAndRoots as Program>⟧.IsNew p) pairs.items) }
{
    let Ok(mut pairs) = Vec::with_capacity(alloc, hops.len()) else {
        return Err(OutOfMemory);
    };
    while let Some(first) = hops.pop() {
        let Some(second) = roots.pop() else {
            unreachable!()
        };
        pairs.push_reserved(Pair::new(first, second));
    }
    pairs.reverse();
    Ok(pairs)
}

/// The pairs of new relaxations over the parts of the graph, by hops from the source and by roots, one pair for each rank.
fn new_pairs<W: Threads + Sync, D: Distribution + Sync>(
    token: &W,
    alloc: Global,
    threads: u32,
    graph: &EdgeList,
    dist: &D,
    source: u32,
) -> Result<Vec<HopsAndRoots>, OutOfMemory>
    requires threads { 1 ≤ threads }
    requires n { graph.now.n ≡ (D.sharing dist.now).n }
    ensures hops { IfOk result (λ pairs. AreOpen (record { source = source }) takes_all (D.sharing dist.now) graph.now (map hops_in pairs.items)) }
    ensures roots { IfOk result (λ pairs. AreOpen (record {}) takes_all (D.sharing dist.now) graph.now (map roots_in pairs.items)) }
    ensures new { IfOk result (λ pairs. Each (λ rank p. ⟦<HopsAndRoots as Program>⟧.IsNew p) pairs.items) }
    ensures count { IfOk result (λ pairs. length pairs.items ≡ (D.sharing dist.now).ranks) }
    ensures ranks { IfOk result (λ pairs. Each (λ rank p. ⟦<HopsAndRoots as Program>⟧.own p ≡ rank) pairs.items) }
    ensures sizes { IfOk result (λ pairs. Each (λ rank p. ⟦<HopsAndRoots as Program>⟧.size p ≡ length pairs.items) pairs.items) }
{
    let hops = relaxations(token, alloc, threads, graph, dist, Hops { source })?;
    let roots = relaxations(token, alloc, threads, graph, dist, Root)?;
    pairs_of(alloc, hops, roots)
}

/// Relaxes by hops and by roots over the ranks among which `dist` divides the graph, until all have ended.
fn run_pairs<W: Threads + Wait + Sync, D: Distribution + Sync, G: Gate>(
    token: &W,
    alloc: Global,
    graph: &EdgeList,
    dist: &D,
    source: u32,
    crew: &Crew,
    gate: &G,
) -> Result<Finished<HopsAndRoots>, OutOfMemory>
    requires n { graph.now.n ≡ (D.sharing dist.now).n }
    ensures { IfOk result (λ f. ArePaired source (D.sharing dist.now) graph.now crew.now.capacity f.programs.items f.lanes.items) }
{
    // For the facts that they ensure.
    let _ranks = dist.ranks();
    members_have_whole_books::<Relax<Hops, Levels>, Relax<Root, Levels>>();
    relaxations_stop_once_all_votes_are_quiet::<Hops, Levels>();
    relaxations_stop_once_all_votes_are_quiet::<Root, Levels>();
    let pairs = new_pairs(token, alloc, crew.threads, graph, dist, source)?;
    let group = assemble::<HopsAndRoots, RingLanes>(&(), alloc, pairs, crew.capacity)?;
    Ok(run(token, group, crew.threads, gate))
}

/// The least numbers of arcs that the pairs ended with, vertex by vertex.
fn hops_of<D: Distribution>(
    alloc: Global,
    pairs: &[HopsAndRoots],
    dist: &D,
) -> Result<Numbers, OutOfMemory>
    requires ranks { length pairs.now ≡ (D.sharing dist.now).ranks }
    requires places { HavePlaces (D.sharing dist.now) (map hops_in pairs.now) }
    ensures { IfOk result (λ answers. AreAnswers Field.Amount (D.sharing dist.now) (map hops_in pairs.now) answers.of_vertices.items) }
{
    let n = dist.n();
    let Ok(mut of_vertices) = Vec::with_capacity(alloc, n as usize) else {
        return Err(OutOfMemory);
    };
    for place in 0..n {
        let v = Vertex(place + 1);
        let hops = pairs[dist.owner(v).0 as usize].first();
        of_vertices.push_reserved(number(hops.value(dist.local(v)), Field::Amount));
    }
    Ok(Numbers { of_vertices })
}

/// The roots that the pairs ended with, vertex by vertex.
fn roots_of<D: Distribution>(
    alloc: Global,
    pairs: &[HopsAndRoots],
    dist: &D,
) -> Result<Numbers, OutOfMemory>
    requires ranks { length pairs.now ≡ (D.sharing dist.now).ranks }
    requires places { HavePlaces (D.sharing dist.now) (map roots_in pairs.now) }
    ensures { IfOk result (λ answers. AreAnswers Field.Class (D.sharing dist.now) (map roots_in pairs.now) answers.of_vertices.items) }
{
    let n = dist.n();
    let Ok(mut of_vertices) = Vec::with_capacity(alloc, n as usize) else {
        return Err(OutOfMemory);
    };
    for place in 0..n {
        let v = Vertex(place + 1);
        let roots = pairs[dist.owner(v).0 as usize].second();
        of_vertices.push_reserved(number(roots.value(dist.local(v)), Field::Class));
    }
    Ok(Numbers { of_vertices })
}

/// Relaxes by hops and by roots over the ranks among which `dist` divides the graph, and collects both answers.
fn search_over<W: Threads + Wait + Sync, D: Distribution + Sync, G: Gate>(
    token: &W,
    alloc: Global,
    graph: &EdgeList,
    dist: &D,
    source: u32,
    crew: &Crew,
    gate: &G,
) -> Result<Searched, OutOfMemory>
    requires n { graph.now.n ≡ (D.sharing dist.now).n }
    ensures laws { IsSharing (D.sharing dist.now) }
    ensures paired { IfOk result (λ s. ArePaired source (D.sharing dist.now) graph.now crew.now.capacity s.finished.programs.items s.finished.lanes.items) }
    ensures hops { IfOk result (λ s. AreAnswers Field.Amount (D.sharing dist.now) (map hops_in s.finished.programs.items) s.hops.of_vertices.items) }
    ensures roots { IfOk result (λ s. AreAnswers Field.Class (D.sharing dist.now) (map roots_in s.finished.programs.items) s.roots.of_vertices.items) }
{
    let finished = run_pairs(token, alloc, graph, dist, source, crew, gate)?;
    let hops = hops_of(alloc, &finished.programs, dist)?;
    let roots = roots_of(alloc, &finished.programs, dist)?;
    Ok(Searched {
        hops,
        roots,
        finished,
    })
}

/// The least numbers of arcs of walks from the source, and the least vertices of components, found in one run: the messages of
/// both relaxations share the lanes, and their votes the marks. The vertices are divided in blocks. A source that is no vertex
/// leads nowhere.
///
/// `Err` says that the run is out of memory.
///
/// Source: Gregor and Lumsdaine, Lifting sequential graph algorithms for distributed-memory parallel computation (OOPSLA 2005):
/// several triggers over one process group.
pub(crate) fn hops_and_roots<W: Threads + Wait + Sync, G: Gate>(
    token: &W,
    alloc: Global,
    graph: &EdgeList,
    source: u32,
    crew: &Crew,
    gate: &G,
) -> Result<Searched, OutOfMemory>
    ensures hops { IfOk result (λ s. AreLeastArcs graph.now source s.hops.of_vertices.items) }
    ensures roots { IfOk result (λ s. AreLowest graph.now s.roots.of_vertices.items) }
    ensures carried { IfOk result (λ s. IsPairCarried source crew.now.ranks crew.now.capacity graph.now s.hops.of_vertices.items s.roots.of_vertices.items
        s.finished.programs.items s.finished.lanes.items) }
{
    let dist = Block::new(graph.n(), crew.ranks);
    search_over(token, alloc, graph, &dist, source, crew, gate)
}
