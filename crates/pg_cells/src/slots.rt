//! The slot of each ghost, found by a binary search.

ghost use Rattle.std.specs.Prelude.{◌≡◌, ◌≢◌, ℕ, ◌^◌, ◌<◌, AllPairs, IfOk, IfSome, None, Some, length, slice_get};
ghost use Rattle.pg_adj.specs.declared.arcs.Ghost.{Ghost};

use pg_adj::{Ghost, Part};
use pg_base::Vertex;
use std::alloc::{AllocError, Global};

/// The vertices of other ranks that have a cell here. The slot of one is found by a binary search.
#[derive(Drop)]
pub struct Slots {
    // The ghosts by slot.
    pub held: Vec<Ghost>,
    ghost ascend: { AllPairs (λ g h. g.vertex.0 < h.vertex.0) held.items },
    ghost few: { length held.items < 2 ^ 32 },
}

impl Slots {
    /// The slots of a part's ghosts.
    pub fn of_part(alloc: Global, part: &Part) -> Result<Slots, AllocError>
        ensures { IfOk result (λ slots. slots.held.items ≡ part.now.ghosts) }
    {
        // There are no more ghosts than vertices, whose number is a u32.
        let _n = part.n();
        Ok(Slots {
            held: Vec::from_slice(alloc, part.ghosts())?,
        })
    }

    /// The slot of the ghost `v`, if there is one.
    pub fn slot(&self, v: Vertex) -> Option<u32>
        ensures found { IfSome result (λ slot. (g : Ghost) × (slice_get self.now.held.items slot ≡ Some g) × (g.vertex.0 ≡ v.0)) }
        ensures none { result ≡ None → (slot : ℕ) (g : Ghost) → slice_get self.now.held.items slot ≡ Some g → g.vertex.0 ≢ v.0 }
    {
        match self.held.binary_search_by_key(&v.0, |held| held.vertex.0) {
            Ok(slot) => Some(slot as u32),
            Err(_) => None,
        }
    }
}
