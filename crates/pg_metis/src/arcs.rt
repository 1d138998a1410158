//! The arcs that the lines of a graph file name, as far as they are kept.

ghost use Rattle.std.specs.Prelude.{◌≤◌, vec_capacity};

use crate::pairing::NamedArc;
use std::alloc::{AllocError, Global};

/// Arcs in the order in which they are named. No more are kept than there may be.
#[derive(Drop)]
pub(crate) struct NamedArcs {
    kept: Vec<NamedArc>,
    /// How many there may be.
    most: usize,
    /// Whether there are more.
    more: bool,
    ghost room: { most ≤ vec_capacity kept },
}

/// How far arcs had come at some time.
#[derive(Clone, Copy)]
pub(crate) struct Mark {
    count: usize,
    more: bool,
}

impl NamedArcs {
    ghost use Rattle.std.specs.Prelude.{◌≡◌, ◌≢◌, ◌∷◌, [], ℕ, List, None, IfOk, IfSome, length, take, ◌≤◌};
    ghost use Rattle.pg_base.specs.Graph.{Arc};
    ghost use Rattle.pg_metis.specs.Pairing.{arc_of, arcs_named};
    ghost use Rattle.pg_metis.specs.Arcs.{Keeps, Adds, Extends};

    /// No arc yet, with memory for `most`.
    pub fn new(alloc: Global, most: usize) -> Result<NamedArcs, AllocError>
        ensures none { IfOk result (λ arcs. Keeps arcs []) }
        ensures most { IfOk result (λ arcs. arcs.most ≡ most) }
    {
        Ok(NamedArcs {
            kept: Vec::with_capacity(alloc, most)?,
            most,
            more: false,
        })
    }

    /// Takes the next arc. Doesn't allocate.
    pub fn push(&mut self, arc: NamedArc)
        ensures adds { Adds self.old (arc_of arc ∷ []) self.new }
        ensures extends { Extends self.old self.new }
    {
        if self.kept.len() < self.most {
            self.kept.push_reserved(arc);
        } else {
            self.more = true;
        }
    }

    /// How far the arcs have come, for `rewind`.
    pub fn mark(&self) -> Mark
        ensures count { result.count ≡ length self.now.kept.items }
        ensures more { result.more ≡ self.now.more }
    {
        Mark {
            count: self.kept.len(),
            more: self.more,
        }
    }

    /// Gives up the arcs that were taken since `mark`.
    pub fn rewind(&mut self, mark: Mark)
        requires { mark.count ≤ length self.old.kept.items }
        ensures kept { self.new.kept.items ≡ take mark.count self.old.kept.items }
        ensures more { self.new.more ≡ mark.more }
        ensures most { self.new.most ≡ self.old.most }
    {
        self.kept.truncate(mark.count);
        self.more = mark.more;
    }

    /// All arcs, where there are exactly as many as there may be.
    pub fn into_full(self) -> Option<Vec<NamedArc>>
        ensures some { IfSome result (λ arcs. (all : List Arc) → Keeps self all → arcs_named arcs.items ≡ all) }
        ensures count { IfSome result (λ arcs. length arcs.items ≡ self.most) }
        ensures none { result ≡ None → (all : List Arc) → Keeps self all → length all ≢ self.most }
    {
        if self.more || self.kept.len() != self.most {
            return None;
        }
        Some(self.kept)
    }

    /// All arcs, where there are no more than there may be.
    pub fn into_kept(self) -> Option<Vec<NamedArc>>
        ensures { IfSome result (λ arcs. (all : List Arc) → Keeps self all → arcs_named arcs.items ≡ all) }
    {
        if self.more {
            return None;
        }
        Some(self.kept)
    }
}
