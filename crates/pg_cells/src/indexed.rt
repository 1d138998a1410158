//! Cells by place and slot, where these are known beside the vertices: no vertex is looked up.
ghost use Rattle.std.specs.Prelude.{◌≡◌, ◌<◌, None, length, slice_index, slice_index_or};
ghost use Rattle.pg_cells.specs.Steps.{CellsStep, join_own};
ghost use Rattle.pg_cells.specs.Steps.Event.{put};
ghost use Rattle.pg_cells.specs.Shown.{SamePart, resolver_of, state_of};
ghost use Rattle.pg_cells.specs.declared.phases.Phase.TheVariants.{Filling};

use crate::{Cells, Resolver};

impl<R: Resolver> Cells<R> {
    /// The value of the own vertex at the place, from 0.
    pub fn at_place(&self, place: u32) -> u64
        requires { place < length (state_of self.now).part.vertices }
        ensures { result ≡ slice_index (state_of self.now).own place }
    {
        self.own[place as usize]
    }

    /// The value of the ghost in the slot, from 0. `None` comes exactly where the ghost was emptied and was neither put
    /// to nor refreshed since.
    pub fn at_slot(&self, slot: u32) -> Option<u64>
        requires { slot < length (state_of self.now).part.ghosts }
        ensures { result ≡ slice_index_or (state_of self.now).ghosts slot None }
    {
        self.ghosts[slot as usize]
    }

    /// Puts `x` to the own vertex at the place, from 0: the cell's value and `x` are joined. All other cells stay.
    pub fn put_at(&mut self, place: u32, x: u64)
        requires below { place < length (state_of self.old).part.vertices }
        requires filling { (state_of self.old).phase ≡ Filling }
        ensures step { CellsStep (R.join (resolver_of self.old)) (R.start (resolver_of self.old)) (state_of self.old) (put (slice_index (state_of self.old).part.vertices place) x) (state_of self.new) }
        ensures state { state_of self.new ≡ join_own (R.join (resolver_of self.old)) (R.start (resolver_of self.old)) place x (state_of self.old) }
        ensures resolver { resolver_of self.new ≡ resolver_of self.old }
        ensures part { SamePart self.old self.new }
        ensures phase { (state_of self.new).phase ≡ (state_of self.old).phase }
    {
        self.join_own(place, x);
    }
}
