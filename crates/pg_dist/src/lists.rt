//! The distribution that a list of owners gives, as a partition file has it.

ghost use Rattle.std.specs.Prelude.{◌≡◌, ℕ, ◌+◌, ◌-◌, ◌<◌, ◌≤◌, IfOk, All, length, slice_index, vec_len};
ghost use Rattle.pg_base.specs.declared.TheConstants.{MAX_VERTICES};
ghost use Rattle.pg_dist.specs.Seats.{owners_of, places_of};
ghost use Rattle.pg_dist.specs.Tables.{AreRanks, ArePlaces, AreStarts, AreInSlots};

use crate::Distribution;
use crate::tables::{Tables, tables_of};
use pg_base::{MAX_VERTICES, OutOfMemory, RankNo, Ranks, Vertex};
use std::alloc::Global;

/// A distribution by a list of owners. Every answer takes constant time. The list itself is not kept: there
/// is a table of the owner and the local place of each vertex, side by side, one of the vertices by rank, and
/// one of a number for each rank and one more.
#[derive(Debug, Drop)]
pub struct Listed {
    ranks: Ranks,
    tables: Tables,
    ghost few_owners: { length (owners_of tables.seats.items) ≤ MAX_VERTICES },
    ghost are_ranks: { AreRanks (owners_of tables.seats.items) ranks },
    ghost are_places: { ArePlaces (owners_of tables.seats.items) (places_of tables.seats.items) },
    ghost are_starts: { AreStarts (owners_of tables.seats.items) ranks tables.starts.items },
    ghost each_start: { length tables.starts.items ≡ ranks + 1 },
    ghost in_slots: { AreInSlots (owners_of tables.seats.items) (length (owners_of tables.seats.items)) tables.vertices.items },
    ghost each_slot: { length tables.vertices.items ≡ length (owners_of tables.seats.items) },
}

impl Listed {
    /// The distribution in which entry v - 1 of `parts` is the number of the rank that owns vertex v. Takes
    /// memory and time linear in the list and the ranks. `OutOfMemory` comes only where an allocation is refused.
    pub fn new(alloc: Global, parts: Vec<u32>, ranks: Ranks) -> Result<Listed, OutOfMemory>
        requires are_ranks { All (λ owner. owner < ranks) parts.items }
        requires few { vec_len parts ≤ MAX_VERTICES }
        ensures vertices { IfOk result (λ dist. (⟦<Listed as Distribution>⟧.sharing dist).n ≡ vec_len parts) }
        ensures ranks { IfOk result (λ dist. (⟦<Listed as Distribution>⟧.sharing dist).ranks ≡ ranks) }
        ensures owners { IfOk result (λ dist. (v : ℕ) → 1 ≤ v → v ≤ vec_len parts
            → (⟦<Listed as Distribution>⟧.sharing dist).owner v ≡ slice_index parts.items (v - 1)) }
    {
        let tables = tables_of(alloc, &parts, ranks.count()).map_err(|_| OutOfMemory)?;
        Ok(Listed { ranks, tables })
    }
}

impl Distribution for Listed {
    ghost use Rattle.pg_dist.specs.Owners.{listed_sharing};
    ghost use Rattle.pg_dist.specs.OwnerLaws.{listed_laws};

    ghost sharing = { λ d. listed_sharing (owners_of d.tables.seats.items) d.ranks };

    fn n(&self) -> u32 {
        self.tables.seats.len() as u32
    }

    fn ranks(&self) -> Ranks {
        self.ranks
    }

    fn owner(&self, v: Vertex) -> RankNo {
        self.tables.seats[(v.0 - 1) as usize].owner
    }

    fn local(&self, v: Vertex) -> u32 {
        self.tables.seats[(v.0 - 1) as usize].place
    }

    fn count(&self, r: RankNo) -> u32 {
        self.tables.starts[r.0 as usize + 1] - self.tables.starts[r.0 as usize]
    }

    fn global(&self, r: RankNo, i: u32) -> Vertex {
        let slot = self.tables.starts[r.0 as usize] + i;
        Vertex(self.tables.vertices[slot as usize])
    }

    ghost laws = { λ d. listed_laws (owners_of d.tables.seats.items) d.ranks d.few_owners d.are_ranks };
}
