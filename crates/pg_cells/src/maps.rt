//! The calls of a property map: a new one, puts and reads of values, and the steps of a synchronize.

ghost use Rattle.std.specs.Prelude.{◌≡◌, ◌↔◌, ◌<◌, true, false, All, IfOk, length, map};
ghost use Rattle.pg_cells.specs.States.{new_cells, IsKnown, IsValueOf};
ghost use Rattle.pg_cells.specs.Steps.{CellsStep, MayEnd, synchronizes, join_own, join_ghost, joined, after_body, ghosts_after};
ghost use Rattle.pg_cells.specs.Steps.Event.{put, handled, closed, round_ended};
ghost use Rattle.pg_cells.specs.Shown.{SamePart, resolver_of, state_of};
ghost use Rattle.pg_cells.specs.Freshness.{BackwardRefreshes, ForwardJoins};
ghost use Rattle.pg_cells.specs.declared.bodies.CellBody.TheVariants.{Refresh};
ghost use Rattle.pg_cells.specs.declared.phases.Phase.TheVariants.{Filling};

use crate::pending_puts::PendingPuts;
use crate::places::Places;
use crate::refreshes::Refreshes;
use crate::slots::Slots;
use crate::{CellBody, Cells, Flags, Phase, Resolver};
use pg_adj::{Ghost, Part};
use pg_base::{OutOfMemory, RankNo, Vertex};
use std::alloc::{AllocError, Global};
use std::snapshot::Snapshot;

impl<R: Resolver> Cells<R> {
    /// New cells over a part: every cell, own or ghost, holds its start value. No other call of the map allocates;
    /// `OutOfMemory` comes only where an allocation is refused.
    pub fn new(
        alloc: Global,
        part: &Part,
        resolver: R,
        flags: Flags,
    ) -> Result<Cells<R>, OutOfMemory>
        ensures new { IfOk result (λ cells. state_of cells ≡ new_cells (R.start resolver) part.now flags) }
        ensures resolver { IfOk result (λ cells. resolver_of cells ≡ resolver) }
    {
        match cells_of(alloc, part, resolver, flags) {
            Ok(cells) => Ok(cells),
            Err(_) => Err(OutOfMemory),
        }
    }

    /// Whether `v` has a cell here: as an own vertex or as a ghost.
    pub fn knows(&self, v: Vertex) -> bool
        ensures { (result ≡ true) ↔ IsKnown (state_of self.now).part v.0 }
    {
        self.places.place(v).is_some() || self.slots.slot(v).is_some()
    }

    /// Whether values may be put, or how far a synchronize has come.
    pub fn phase(&self) -> Phase
        ensures { result ≡ (state_of self.now).phase }
    {
        self.phase
    }

    /// Puts `x` to the vertex `v`: the cell's value and `x` are joined; a ghost that was emptied takes `x` as it is.
    /// With forward, what is put to a ghost is owed to its owner, several puts joined into one; with flush, the
    /// ghost is noted, and its value goes to the owner at the next synchronize.
    pub fn put(&mut self, v: Vertex, x: u64)
        requires known { IsKnown (state_of self.old).part v.0 }
        requires filling { (state_of self.old).phase ≡ Filling }
        ensures step { CellsStep (R.join (resolver_of self.old)) (R.start (resolver_of self.old)) (state_of self.old) (put v.0 x) (state_of self.new) }
        ensures resolver { resolver_of self.new ≡ resolver_of self.old }
        ensures part { SamePart self.old self.new }
        ensures phase { (state_of self.new).phase ≡ (state_of self.old).phase }
    {
        match self.places.place(v) {
            Some(place) => self.join_own(place, x),
            None => {
                if let Some(slot) = self.slots.slot(v) {
                    self.join_ghost(slot, x);
                }
            }
        }
    }

    /// The value of the vertex `v`. `None` comes exactly where `v` is a ghost that was emptied and was neither put
    /// to nor refreshed since.
    pub fn get(&self, v: Vertex) -> Option<u64>
        requires { IsKnown (state_of self.now).part v.0 }
        ensures { IsValueOf (state_of self.now) v.0 result }
    {
        match self.places.place(v) {
            Some(place) => Some(self.own[place as usize]),
            None => self.ghosts[self.slots.slot(v)? as usize],
        }
    }

    /// Begins a synchronize: from here on nothing is put until it has ended. No cell changes.
    pub fn close(&mut self)
        requires { (state_of self.old).phase ≡ Filling }
        ensures step { CellsStep (R.join (resolver_of self.old)) (R.start (resolver_of self.old)) (state_of self.old) closed (state_of self.new) }
        ensures resolver { resolver_of self.new ≡ resolver_of self.old }
        ensures part { SamePart self.old self.new }
    {
        self.phase = Phase::Closing;
    }

    /// Takes a body from another rank: a `Put` joins its value to the own cell at its place, a `Refresh` replaces
    /// the ghost in its slot. A place or slot out of range changes nothing, and the phase stays.
    pub fn handle(&mut self, from: RankNo, body: CellBody)
        ensures step { CellsStep (R.join (resolver_of self.old)) (R.start (resolver_of self.old)) (state_of self.old) (handled from.0 body) (state_of self.new) }
        ensures resolver { resolver_of self.new ≡ resolver_of self.old }
        ensures part { SamePart self.old self.new }
        ensures phase { (state_of self.new).phase ≡ (state_of self.old).phase }
    {
        match body {
            CellBody::Put { place, value } => self.join_own(place, value),
            CellBody::Refresh { slot, value } => self.refresh(slot, value),
        }
    }

    /// Ends a round, and answers whether a synchronize has ended with it. In phase Filling nothing changes; in the
    /// other phases nothing may be left to be sent. In Closing with backward the map turns to Refreshing; without it
    /// each ghost takes its start value with reset and is emptied with clear, and the map turns to Filling. In
    /// Refreshing it turns to Filling.
    ///
    /// Where all ranks close in the same round, and each handles in each round just what was sent to it there, with
    /// backward each ghost is then its owner's cell (`refreshes`), and with forward too that cell has joined every
    /// value that any rank put to the vertex (`joins`).
    pub fn end_round(&mut self) -> bool
        requires { MayEnd (state_of self.old) }
        ensures step { CellsStep (R.join (resolver_of self.old)) (R.start (resolver_of self.old)) (state_of self.old) round_ended (state_of self.new) }
        ensures synchronized { result ≡ synchronizes (state_of self.old) }
        ensures refreshes { BackwardRefreshes (R.join (resolver_of self.old)) (R.start (resolver_of self.old)) }
        ensures joins { ForwardJoins (R.join (resolver_of self.old)) (R.start (resolver_of self.old)) }
        ensures resolver { resolver_of self.new ≡ resolver_of self.old }
        ensures part { SamePart self.old self.new }
    {
        match self.phase {
            Phase::Filling => false,
            Phase::Closing => {
                if self.flags.backward {
                    self.phase = Phase::Refreshing;
                    self.refreshes.begin();
                    return false;
                }
                self.leave_ghosts();
                self.phase = Phase::Filling;
                true
            }
            Phase::Refreshing => {
                self.phase = Phase::Filling;
                true
            }
        }
    }

    // A value joins the own cell of a place, if there is such a place.
    pub(crate) fn join_own(&mut self, place: u32, x: u64)
        ensures state { state_of self.new ≡ join_own (R.join self.old.resolver) (R.start self.old.resolver) place x (state_of self.old) }
        ensures resolver { self.new.resolver ≡ self.old.resolver }
        ensures part { self.new.part ≡ self.old.part }
        ensures phase { self.new.phase ≡ self.old.phase }
    {
        if let Some(cell) = self.own.get_mut(place as usize) {
            *cell = self.resolver.join(*cell, x);
        }
    }

    // A value joins the ghost of a slot. With forward it is owed to the owner, with flush the ghost is noted.
    fn join_ghost(&mut self, slot: u32, x: u64)
        requires { slot < length self.old.slots.held.items }
        ensures state { state_of self.new ≡ join_ghost (R.join self.old.resolver) (R.start self.old.resolver) slot x (state_of self.old) }
        ensures resolver { self.new.resolver ≡ self.old.resolver }
        ensures part { self.new.part ≡ self.old.part }
        ensures phase { self.new.phase ≡ self.old.phase }
    {
        let at = slot as usize;
        self.ghosts[at] = Some(self.joined(self.ghosts[at], x));
        if self.flags.forward {
            let owed = self.joined(self.pending_puts.owed_for(slot), x);
            self.pending_puts.owe(slot, owed);
        }
        if self.flags.flush {
            self.pending_puts.note(slot);
        }
    }

    // A cell's value after a further one was put to it.
    fn joined(&self, cell: Option<u64>, x: u64) -> u64
        ensures { result ≡ joined (R.join self.now.resolver) (R.start self.now.resolver) cell x }
    {
        match cell {
            Some(old) => self.resolver.join(old, x),
            None => x,
        }
    }

    // A value replaces the ghost in a slot, if there is such a slot.
    fn refresh(&mut self, slot: u32, value: u64)
        ensures state { state_of self.new ≡ after_body (R.join self.old.resolver) (R.start self.old.resolver) (Refresh slot value) (state_of self.old) }
        ensures resolver { self.new.resolver ≡ self.old.resolver }
        ensures part { self.new.part ≡ self.old.part }
        ensures phase { self.new.phase ≡ self.old.phase }
    {
        if let Some(cell) = self.ghosts.get_mut(slot as usize) {
            *cell = Some(value);
        }
    }

    // Leaves the ghosts as reset or clear says.
    fn leave_ghosts(&mut self)
        requires { All (λ noted. noted ≡ false) (state_of self.old).noted }
        ensures state { state_of self.new ≡ record (state_of self.old) { ghosts = ghosts_after (R.join self.old.resolver) (R.start self.old.resolver) (state_of self.old) } }
        ensures resolver { self.new.resolver ≡ self.old.resolver }
        ensures part { self.new.part ≡ self.old.part }
        ensures phase { self.new.phase ≡ self.old.phase }
    {
        if self.flags.reset {
            start_all(&self.resolver, &self.slots.held, &mut self.ghosts);
        } else if self.flags.clear {
            self.ghosts.fill(None);
        }
    }
}

fn cells_of<R: Resolver>(
    alloc: Global,
    part: &Part,
    resolver: R,
    flags: Flags,
) -> Result<Cells<R>, AllocError>
    ensures new { IfOk result (λ cells. state_of cells ≡ new_cells (R.start resolver) part.now flags) }
    ensures resolver { IfOk result (λ cells. cells.resolver ≡ resolver) }
{
    let held = part.ghosts();
    let puts = if flags.forward { held.len() } else { 0 };
    let notes = if flags.flush { held.len() } else { 0 };
    Ok(Cells {
        flags,
        phase: Phase::Filling,
        places: Places::of_part(alloc, part)?,
        own: own_starts(alloc, part, &resolver)?,
        ghosts: ghost_starts(alloc, held, &resolver)?,
        pending_puts: PendingPuts::new(alloc, puts, notes)?,
        slots: Slots::of_part(alloc, part)?,
        refreshes: Refreshes::of_part(alloc, part)?,
        part: Snapshot::of(part),
        resolver,
    })
}

// The start values of the own vertices.
fn own_starts<R: Resolver>(alloc: Global, part: &Part, resolver: &R) -> Result<Vec<u64>, AllocError>
    ensures { IfOk result (λ own. own.items ≡ map (R.start resolver.now) part.now.vertices) }
{
    let mut own = Vec::with_capacity(alloc, part.count() as usize)?;
    for place in 0..part.count() {
        own.push(resolver.start(part.vertex(place)))?;
    }
    Ok(own)
}

// The start values of ghosts.
fn ghost_starts<R: Resolver>(
    alloc: Global,
    held: &[Ghost],
    resolver: &R,
) -> Result<Vec<Option<u64>>, AllocError>
    ensures { IfOk result (λ ghosts. ghosts.items ≡ map (λ g. Some (R.start resolver.now g.vertex.0)) held.now) }
{
    let mut ghosts = Vec::with_capacity(alloc, held.len())?;
    for remote in held {
        ghosts.push(Some(resolver.start(remote.vertex)))?;
    }
    Ok(ghosts)
}

// Leaves each ghost at its start value.
fn start_all<R: Resolver>(resolver: &R, held: &[Ghost], ghosts: &mut [Option<u64>])
    requires { length ghosts.old ≡ length held.now }
    ensures { ghosts.new ≡ map (λ g. Some (R.start resolver.now g.vertex.0)) held.now }
{
    for (slot, remote) in held.iter().enumerate() {
        ghosts[slot] = Some(resolver.start(remote.vertex));
    }
}
