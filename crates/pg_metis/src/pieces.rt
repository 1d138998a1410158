//! The arcs that the lines of a graph file name, kept in several lists.

ghost use Rattle.std.specs.Prelude.{◌≡◌, ◌≤◌, flat_map, length};
ghost use Rattle.pg_metis.specs.Pairing.{arcs_named};

use crate::GraphFault;
use crate::pairing::NamedArc;
use std::alloc::Global;

/// Arcs in the order in which they are named, in one list for each piece of the lines. No more are kept than there may be.
#[derive(Drop)]
pub(crate) struct Pieces {
    pub lists: Vec<Vec<NamedArc>>,
    /// How many arcs the lists have.
    pub count: usize,
    /// How many there may be.
    pub most: usize,
    /// Whether there are more. Then none is kept.
    pub more: bool,
    ghost counted: { length (flat_map (λ list. arcs_named list.items) lists.items) ≡ count },
    ghost within: { count ≤ most },
}

impl Pieces {
    ghost use Rattle.std.specs.Prelude.{◌≢◌, [], List, None, IfSome, OnOk};
    ghost use Rattle.pg_base.specs.Graph.{Arc};
    ghost use Rattle.pg_metis.specs.Answers.{OnFailed, OnRefused};
    ghost use Rattle.pg_metis.specs.Pieces.{AddsPiece, KeepsPieces, arcs_in};

    /// No arc yet, and room for no list yet.
    pub fn new(alloc: Global, most: usize) -> Pieces
        ensures none { KeepsPieces result [] }
        ensures most { result.most ≡ most }
    {
        Pieces {
            lists: Vec::new(alloc),
            count: 0,
            most,
            more: false,
        }
    }

    /// Takes the arcs of the next piece. Lets go of all arcs once they are more than there may be.
    pub fn add(&mut self, arcs: Vec<NamedArc>) -> Result<(), GraphFault>
        ensures adds { OnOk result (AddsPiece self.old (arcs_named arcs.items) self.new) }
        ensures refused { OnRefused result (λ _. ⊥) }
        ensures failed { OnFailed result ⊥ }
    {
        if self.more || arcs.len() > self.most - self.count {
            self.lists.clear();
            self.count = 0;
            self.more = true;
            return Ok(());
        }
        let count = self.count + arcs.len();
        self.lists.push(arcs)?;
        self.count = count;
        Ok(())
    }

    /// All lists, where they have exactly as many arcs as there may be.
    pub fn into_full(self) -> Option<Vec<Vec<NamedArc>>>
        ensures some { IfSome result (λ lists. (all : List Arc) → KeepsPieces self all → arcs_in lists.items ≡ all) }
        ensures count { IfSome result (λ lists. length (arcs_in lists.items) ≡ self.most) }
        ensures none { result ≡ None → (all : List Arc) → KeepsPieces self all → length all ≢ self.most }
    {
        if self.more || self.count != self.most {
            return None;
        }
        Some(self.lists)
    }
}
