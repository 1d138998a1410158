//! What was offered to the vertices of other ranks.
ghost use Rattle.std.specs.Prelude.{◌≡◌, ◌⊎◌, ◌<◌, ◌≤◌, ◌+◌, ℕ, true, false, length, replicate, IfNone, IfOk, IfSome};
ghost use Rattle.pg_label.specs.Values.{HasAtMost, IsWithin};
ghost use Rattle.pg_relax.specs.Offered.{Covers, IsKnown, IsSet, WentAsLow, untold};
ghost use Rattle.pg_relax.specs.Tables.{shown};

use crate::tables::{NOWHERE, shown};
use pg_adj::Part;
use pg_base::{RankNo, Vertex};
use pg_best::Offer;
use pg_label::Value;
use std::alloc::{AllocError, Global};

/// The last offer that was sent to a vertex: its value, and the rank and place where it went. Where none was sent the
/// value is that of none. Value and way stand together, so that one look at memory finds both.
#[derive(Clone, Copy)]
pub(crate) struct Told {
    pub(crate) value: Value,
    pub(crate) home: RankNo,
    pub(crate) place: u32,
}

const UNTOLD: Told = Told {
    value: NOWHERE,
    home: RankNo(0),
    place: 0,
};

impl Told {
    // Whether it went where the offer is to go, with a value that is at most the offer's.
    fn is_as_low(&self, home: RankNo, offer: &Offer) -> bool
        ensures low { result ≡ true → WentAsLow self.now home.0 offer.now }
        ensures not { result ≡ false → WentAsLow self.now home.0 offer.now → ⊥ }
    {
        self.home == home && self.place == offer.place && is_at_most(self.value, offer.value)
    }
}

// Whether there is a value held, and it is at most the other one.
fn is_at_most(held: Value, value: Value) -> bool
    ensures most { result ≡ true → HasAtMost (shown held) value }
    ensures not { result ≡ false → HasAtMost (shown held) value → ⊥ }
{
    match shown(held) {
        Some(held) => !value.is_below(held),
        None => false,
    }
}

/// What was offered to the vertices from the least ghost of a part to the greatest. Takes 24 bytes for each of them.
#[derive(Drop)]
pub(crate) struct Offered {
    // The vertex of the first entry.
    pub(crate) first: u32,
    pub(crate) told: Vec<Told>,
}

impl Offered {
    /// Nothing was offered yet.
    pub(crate) fn new(alloc: Global, part: &Part) -> Result<Offered, AllocError>
        ensures nothing { IfOk result (λ offered. offered.told.items ≡ replicate (length offered.told.items) untold) }
        ensures covers { IfOk result (λ offered. Covers part.now.ghosts offered.first (length offered.told.items)) }
    {
        let ghosts = part.ghosts();
        if ghosts.is_empty() {
            return Ok(Offered {
                first: 0,
                told: Vec::new(alloc),
            });
        }
        let first = ghosts[0].vertex.0;
        let count = (ghosts[ghosts.len() - 1].vertex.0 - first) as usize + 1;
        Ok(Offered {
            first,
            told: vec![in alloc; UNTOLD; count]?,
        })
    }

    // The index of the vertex's entry, if it has one.
    fn index(&self, v: Vertex) -> Option<usize>
        ensures some { IfSome result (λ index. (self.now.first + index ≡ v.0) × (index < length self.now.told.items)) }
        ensures none { IfNone result ((index : ℕ) → index < length self.now.told.items → self.now.first + index ≡ v.0 → ⊥) }
    {
        let index = v.0.checked_sub(self.first)? as usize;
        (index < self.told.len()).then_some(index)
    }

    /// Whether what stands for its vertex went the same way, with at most this value.
    pub(crate) fn has(&self, home: RankNo, offer: &Offer) -> bool
        ensures known { result ≡ true → IsKnown self.now home.0 offer.now }
        ensures not { result ≡ false → IsKnown self.now home.0 offer.now → ⊥ }
    {
        match self.index(offer.to) {
            Some(index) => self.told[index].is_as_low(home, offer),
            None => false,
        }
    }

    /// Notes that this offer was sent, where its vertex has an entry.
    pub(crate) fn note(&mut self, home: RankNo, offer: &Offer)
        requires within { IsWithin offer.now.value }
        ensures changes { (self.new ≡ self.old) ⊎ IsSet home.0 offer.now self.old self.new }
        ensures known { (index : ℕ) → index < length self.old.told.items → self.old.first + index ≡ offer.now.to.0 → IsKnown self.new home.0 offer.now }
        ensures same_first { self.new.first ≡ self.old.first }
        ensures same_count { length self.new.told.items ≡ length self.old.told.items }
    {
        if let Some(index) = self.index(offer.to) {
            self.told[index] = Told {
                value: offer.value,
                home,
                place: offer.place,
            };
        }
    }
}
