//! Which ranks hold each vertex as a ghost, and the ghosts of each rank.

ghost use Rattle.std.specs.Prelude.{◌≡◌, ◌≢◌, ◌==◌, ◌&&◌, not, ℕ, ◌+◌, ◌<◌, ◌≤◌, ◌^◌, ◌++◌, [], ◌∷◌, true, All, length, map, IfOk, slice_index, slice_index_or, vec_capacity, if◌then◌else◌};
ghost use Rattle.std.specs.List.{list_any};
ghost use Rattle.pg_base.specs.declared.TheConstants.{MAX_RANKS};
ghost use Rattle.pg_adj.specs.Portions.{IsVertex};
ghost use Rattle.pg_base.specs.Keyed.{AreBounds, row_of};
ghost use Rattle.pg_adj.specs.Division.{AreRows, arcs_at, leads_abroad, ghost_of};
ghost use Rattle.pg_adj.specs.RankSets.{has, members, HaveRanksBelow, held_up_to};
ghost use Rattle.pg_adj.specs.declared.rows.ArcRows.{ArcRows};
ghost use Rattle.pg_adj.specs.declared.rank_sets.RankSet.{RankSet};
ghost use Rattle.pg_adj.specs.declared.ghosts.GhostList.{GhostList};

use crate::rank_sets::RankSet;
use crate::rows::ArcRows;
use crate::{Arc, Ghost};
use pg_base::rows::row_at;
use pg_base::{EdgeList, RankNo, Vertex};
use pg_dist::Distribution;
use std::alloc::{AllocError, Global};

/// The ghosts of a rank.
#[derive(Drop)]
pub struct GhostList {
    pub ghosts: Vec<Ghost>,
}

/// For each vertex v, at the place v - 1, the ranks that hold it as a ghost: as each edge gives two arcs, these are the
/// homes of v's own arcs but its owner. Takes time linear in the vertices and the arcs.
pub fn holding_ranks<D: Distribution>(
    alloc: Global,
    graph: &EdgeList,
    dist: &D,
    rows: &[ArcRows],
) -> Result<Vec<RankSet>, AllocError>
    requires n { graph.now.n ≡ (D.sharing dist.now).n }
    requires count { length rows.now ≡ (D.sharing dist.now).ranks }
    requires few { (D.sharing dist.now).ranks ≤ MAX_RANKS }
    requires row { (r : ℕ) (d : ArcRows) → r < (D.sharing dist.now).ranks
        → AreRows (λ i. arcs_at (D.sharing dist.now) graph.now.edges ((D.sharing dist.now).global r i)) ((D.sharing dist.now).count r)
        (slice_index_or rows.now r d).bounds.items (slice_index_or rows.now r d).arcs.items }
    ensures each { IfOk result (λ sets. length sets.items ≡ (D.sharing dist.now).n) }
    ensures ranks { IfOk result (λ sets. HaveRanksBelow (D.sharing dist.now).ranks sets.items) }
    ensures sets { IfOk result (λ sets. (r k : ℕ) (d : ArcRows) (e : RankSet) → r < (D.sharing dist.now).ranks → k < (D.sharing dist.now).n
        → has (slice_index_or sets.items k e) r ≡ leads_abroad r (slice_index_or rows.now r d).arcs.items (k + 1)) }
{
    let mut sets = vec![in alloc; RankSet::new(); graph.n() as usize]?;
    for (rank, own) in rows.iter().enumerate() {
        set_holding_ranks(dist, RankNo(rank as u32), own, &mut sets);
    }
    Ok(sets)
}

// Makes the set of each own vertex that of the other ranks that its arcs lead to.
fn set_holding_ranks<D: Distribution>(dist: &D, rank: RankNo, own: &ArcRows, sets: &mut [RankSet])
    requires rank { rank.0 < (D.sharing dist.now).ranks }
    requires each { length sets.old ≡ (D.sharing dist.now).n }
    requires bounds { AreBounds ((D.sharing dist.now).count rank.0) own.now.bounds.items (length own.now.arcs.items) }
    requires homes { All (λ a. a.home.0 < MAX_RANKS) own.now.arcs.items }
    ensures each { length sets.new ≡ length sets.old }
    ensures own { (r k : ℕ) (d : RankSet) → k < length sets.old → (D.sharing dist.now).owner (k + 1) ≡ rank.0
        → has (slice_index_or sets.new k d) r
        ≡ list_any (λ a. a.home.0 == r && not (a.home.0 == rank.0)) (row_of own.now.bounds.items own.now.arcs.items ((D.sharing dist.now).local (k + 1))) }
    ensures others { (k : ℕ) (d : RankSet) → k < length sets.old → (D.sharing dist.now).owner (k + 1) ≢ rank.0
        → slice_index_or sets.new k d ≡ slice_index_or sets.old k d }
{
    for i in 0..dist.count(rank) {
        let v = dist.global(rank, i);
        sets[v.0 as usize - 1] = foreign_homes(rank, row_at(&own.bounds, &own.arcs, i + 1));
    }
}

// The homes of the arcs other than this rank.
fn foreign_homes(rank: RankNo, arcs: &[Arc]) -> RankSet
    requires { All (λ a. a.home.0 < MAX_RANKS) arcs.now }
    ensures { (r : ℕ) → has result r ≡ list_any (λ a. a.home.0 == r && not (a.home.0 == rank.0)) arcs.now }
{
    let mut homes = RankSet::new();
    for arc in arcs {
        if arc.home != rank {
            homes.insert(arc.home);
        }
    }
    homes
}

/// The ghosts of each rank, where the set at the place v - 1 has the ranks that hold the vertex v. Takes time linear
/// in the sets and what is in them.
pub fn ghosts_by_rank<D: Distribution>(
    alloc: Global,
    dist: &D,
    sets: &[RankSet],
) -> Result<Vec<GhostList>, AllocError>
    requires each { length sets.now ≡ (D.sharing dist.now).n }
    requires ranks { HaveRanksBelow (D.sharing dist.now).ranks sets.now }
    ensures count { IfOk result (λ lists. length lists.items ≡ (D.sharing dist.now).ranks) }
    ensures list { IfOk result (λ lists. (r : ℕ) (d : GhostList) → r < (D.sharing dist.now).ranks
        → (slice_index_or lists.items r d).ghosts.items
        ≡ map (ghost_of (D.sharing dist.now).owner (D.sharing dist.now).local) (held_up_to sets.now r (D.sharing dist.now).n)) }
{
    let mut lists = empty_lists(alloc, &ghost_counts(alloc, dist.ranks().count(), sets)?)?;
    for (k, set) in sets.iter().enumerate() {
        push_ghost(*set, ghost_at(dist, k as u32 + 1), &mut lists);
    }
    Ok(lists)
}

// How many of the sets each rank is in.
fn ghost_counts(alloc: Global, ranks: u32, sets: &[RankSet]) -> Result<Vec<u32>, AllocError>
    requires ranks { HaveRanksBelow ranks sets.now }
    requires few { length sets.now < 2 ^ 32 }
    ensures each { IfOk result (λ counts. length counts.items ≡ ranks) }
    ensures held { IfOk result (λ counts. (r : ℕ) → r < ranks → slice_index counts.items r ≡ length (held_up_to sets.now r (length sets.now))) }
{
    let mut counts = vec![in alloc; 0; ranks as usize]?;
    for set in sets {
        count_members(*set, &mut counts);
    }
    Ok(counts)
}

// Counts each rank of the set once more.
fn count_members(set: RankSet, counts: &mut [u32])
    requires ranks { All (λ r. r < length counts.old) (members set) }
    requires fits { All (λ count. count + 1 < 2 ^ 32) counts.old }
    ensures each { length counts.new ≡ length counts.old }
    ensures counted { (r : ℕ) → r < length counts.old → slice_index counts.new r ≡ slice_index counts.old r + (if has set r then 1 else 0) }
{
    let mut rest = set;
    while let Some(rank) = rest.pop_first() {
        counts[rank.0 as usize] += 1;
    }
}

// An empty list for each rank, with room for so many ghosts.
fn empty_lists(alloc: Global, counts: &[u32]) -> Result<Vec<GhostList>, AllocError>
    ensures each { IfOk result (λ lists. length lists.items ≡ length counts.now) }
    ensures list { IfOk result (λ lists. (r : ℕ) (d : GhostList) → r < length counts.now → (slice_index_or lists.items r d).ghosts.items ≡ []) }
    ensures room { IfOk result (λ lists. (r : ℕ) (d : GhostList) → r < length counts.now
        → vec_capacity (slice_index_or lists.items r d).ghosts ≡ slice_index counts.now r) }
{
    let mut lists = Vec::with_capacity(alloc, counts.len())?;
    for count in counts {
        lists.push(GhostList {
            ghosts: Vec::with_capacity(alloc, *count as usize)?,
        })?;
    }
    Ok(lists)
}

// Appends a ghost to the list of each rank of the set, where there is room for it.
fn push_ghost(set: RankSet, held: Ghost, lists: &mut [GhostList])
    requires ranks { All (λ r. r < length lists.old) (members set) }
    requires room { (r : ℕ) (d : GhostList) → r < length lists.old → has set r ≡ true
        → length (slice_index_or lists.old r d).ghosts.items < vec_capacity (slice_index_or lists.old r d).ghosts }
    ensures each { length lists.new ≡ length lists.old }
    ensures pushed { (r : ℕ) (d : GhostList) → r < length lists.old → (slice_index_or lists.new r d).ghosts.items
        ≡ (slice_index_or lists.old r d).ghosts.items ++ (if has set r then held ∷ [] else []) }
    ensures room { (r : ℕ) (d : GhostList) → r < length lists.old
        → vec_capacity (slice_index_or lists.new r d).ghosts ≡ vec_capacity (slice_index_or lists.old r d).ghosts }
{
    let mut rest = set;
    while let Some(rank) = rest.pop_first() {
        lists[rank.0 as usize].ghosts.push_reserved(held);
    }
}

// The vertex v as a ghost.
fn ghost_at<D: Distribution>(dist: &D, v: u32) -> Ghost
    requires { IsVertex (D.sharing dist.now).n v }
    ensures { result ≡ ghost_of (D.sharing dist.now).owner (D.sharing dist.now).local v }
{
    let vertex = Vertex(v);
    Ghost {
        vertex,
        home: dist.owner(vertex),
        place: dist.local(vertex),
    }
}
