//! The ranks that hold each own vertex of a rank as a ghost, in compressed rows.

ghost use Rattle.std.specs.Prelude.{◌≡◌, ◌==◌, ℕ, ◌+◌, ◌<◌, ◌≤◌, ◌^◌, [], ◌∷◌, ◌++◌, length, map, All, IfOk, slice_index, slice_index_or, vec_capacity, if◌then◌else◌};
ghost use Rattle.std.specs.List.{sum_by};
ghost use Rattle.pg_base.specs.declared.TheConstants.{MAX_RANKS, MAX_VERTICES};
ghost use Rattle.pg_adj.specs.Division.{AreRows, vertices_to};
ghost use Rattle.pg_adj.specs.RankSets.{has, members, HaveRanksBelow, ranks_holding, holders_by};
ghost use Rattle.pg_adj.specs.declared.holders.HolderRows.{HolderRows};

use crate::Holder;
use crate::rank_sets::RankSet;
use pg_base::{RankNo, Vertex};
use pg_dist::Distribution;
use std::alloc::{AllocError, Global};

/// The holders of a rank's vertices, one place after another: those of the place i from `bounds[i]` to
/// `bounds[i + 1]`.
#[derive(Drop)]
pub struct HolderRows {
    pub bounds: Vec<u32>,
    pub holders: Vec<Holder>,
}

/// The holders of each rank's vertices, where the set at the place v - 1 has the ranks that hold the vertex v. Takes
/// time linear in the sets and what is in them.
pub fn holder_rows<D: Distribution>(
    alloc: Global,
    dist: &D,
    sets: &[RankSet],
) -> Result<Vec<HolderRows>, AllocError>
    requires each { length sets.now ≡ (D.sharing dist.now).n }
    requires ranks { HaveRanksBelow (D.sharing dist.now).ranks sets.now }
    ensures count { IfOk result (λ rows. length rows.items ≡ (D.sharing dist.now).ranks) }
    ensures row { IfOk result (λ rows. (r : ℕ) (d : HolderRows) → r < (D.sharing dist.now).ranks
        → AreRows (λ i. holders_by sets.now ((D.sharing dist.now).global r i)) ((D.sharing dist.now).count r)
        (slice_index_or rows.items r d).bounds.items (slice_index_or rows.items r d).holders.items) }
{
    let mut rows = empty_rows(alloc, dist, &holder_counts(alloc, dist, sets)?)?;
    let mut next_slots = vec![in alloc; 0; rows.len()]?;
    for (k, set) in sets.iter().enumerate() {
        let owner = dist.owner(Vertex(k as u32 + 1));
        push_holders(*set, &mut next_slots, &mut rows[owner.0 as usize]);
    }
    Ok(rows)
}

// How many holders the vertices of each rank have together.
fn holder_counts<D: Distribution>(
    alloc: Global,
    dist: &D,
    sets: &[RankSet],
) -> Result<Vec<u32>, AllocError>
    requires each { length sets.now ≡ (D.sharing dist.now).n }
    ensures each { IfOk result (λ counts. length counts.items ≡ (D.sharing dist.now).ranks) }
    ensures held { IfOk result (λ counts. (r : ℕ) → r < (D.sharing dist.now).ranks → slice_index counts.items r
        ≡ sum_by (λ v. if (D.sharing dist.now).owner v == r then length (members (ranks_holding sets.now v)) else 0) (vertices_to (D.sharing dist.now).n)) }
{
    let mut counts = vec![in alloc; 0; dist.ranks().count() as usize]?;
    for (k, set) in sets.iter().enumerate() {
        let owner = dist.owner(Vertex(k as u32 + 1));
        counts[owner.0 as usize] += set.len();
    }
    Ok(counts)
}

// Rows without a place for each rank, with room for all of its places and for so many holders.
fn empty_rows<D: Distribution>(
    alloc: Global,
    dist: &D,
    counts: &[u32],
) -> Result<Vec<HolderRows>, AllocError>
    requires { length counts.now ≡ (D.sharing dist.now).ranks }
    ensures each { IfOk result (λ rows. length rows.items ≡ length counts.now) }
    ensures row { IfOk result (λ rows. (r : ℕ) (d : HolderRows) → r < length counts.now
        → (slice_index_or rows.items r d).bounds.items ≡ 0 ∷ []) }
    ensures empty { IfOk result (λ rows. (r : ℕ) (d : HolderRows) → r < length counts.now
        → (slice_index_or rows.items r d).holders.items ≡ []) }
    ensures places { IfOk result (λ rows. (r : ℕ) (d : HolderRows) → r < length counts.now
        → vec_capacity (slice_index_or rows.items r d).bounds ≡ (D.sharing dist.now).count r + 1) }
    ensures room { IfOk result (λ rows. (r : ℕ) (d : HolderRows) → r < length counts.now
        → vec_capacity (slice_index_or rows.items r d).holders ≡ slice_index counts.now r) }
{
    let mut rows = Vec::with_capacity(alloc, counts.len())?;
    for r in 0..dist.ranks().count() {
        let places = dist.count(RankNo(r)) as usize;
        rows.push(no_rows(alloc, places, counts[r as usize] as usize)?)?;
    }
    Ok(rows)
}

// Rows without a place, with room for so many places and holders.
fn no_rows(alloc: Global, places: usize, count: usize) -> Result<HolderRows, AllocError>
    requires { places ≤ MAX_VERTICES }
    ensures bounds { IfOk result (λ rows. rows.bounds.items ≡ 0 ∷ []) }
    ensures holders { IfOk result (λ rows. rows.holders.items ≡ []) }
    ensures places { IfOk result (λ rows. vec_capacity rows.bounds ≡ places + 1) }
    ensures room { IfOk result (λ rows. vec_capacity rows.holders ≡ count) }
{
    let mut bounds = Vec::with_capacity(alloc, places + 1)?;
    bounds.push_reserved(0);
    let holders = Vec::with_capacity(alloc, count)?;
    Ok(HolderRows { bounds, holders })
}

// Appends the row of a vertex that the ranks of this set hold, where there is room for it. `next_slots` has the slot of
// the next vertex that each rank holds.
fn push_holders(set: RankSet, next_slots: &mut [u32], rows: &mut HolderRows)
    requires ranks { All (λ r. r < length next_slots.old) (members set) }
    requires fits { All (λ slot. slot < MAX_VERTICES) next_slots.old }
    requires small { length rows.old.holders.items + MAX_RANKS < 2 ^ 32 }
    requires place { length rows.old.bounds.items < vec_capacity rows.old.bounds }
    requires room { length rows.old.holders.items + length (members set) ≤ vec_capacity rows.old.holders }
    ensures holders { rows.new.holders.items ≡ rows.old.holders.items
        ++ map (λ r. record { rank = record { 0 = r }; slot = slice_index next_slots.old r }) (members set) }
    ensures bounds { rows.new.bounds.items ≡ rows.old.bounds.items ++ length rows.new.holders.items ∷ [] }
    ensures places { vec_capacity rows.new.bounds ≡ vec_capacity rows.old.bounds }
    ensures room { vec_capacity rows.new.holders ≡ vec_capacity rows.old.holders }
    ensures each { length next_slots.new ≡ length next_slots.old }
    ensures next_slots { (r : ℕ) → r < length next_slots.old
        → slice_index next_slots.new r ≡ slice_index next_slots.old r + (if has set r then 1 else 0) }
{
    let mut rest = set;
    while let Some(rank) = rest.pop_first() {
        let slot = next_slots[rank.0 as usize];
        rows.holders.push_reserved(Holder { rank, slot });
        next_slots[rank.0 as usize] = slot + 1;
    }
    rows.bounds.push_reserved(rows.holders.len() as u32);
}
