//! New colourings, and their colours.
ghost use Rattle.std.specs.Prelude.{◌≡◌, ◌↔◌, ℕ, ◌<◌, ◌≤◌, ◌^◌, None, IfOk, IfSome, length};
ghost use Rattle.std.specs.List.{range_with_len};
ghost use Rattle.std.specs.Vec.{vec_capacity};
ghost use Rattle.pg_colour.specs.Passes.{row};
ghost use Rattle.pg_colour.specs.Shown.{IsNewColouring, part_in, state_of};

use crate::palettes::Palette;
use crate::rounds::Rounds;
use crate::{Colouring, NO_COLOUR};
use pg_adj::Part;
use pg_base::OutOfMemory;
use pg_cells::{Cells, Flags, LastWins};
use std::alloc::{AllocError, Global};

impl Colouring {
    /// The colouring of one part, in which no vertex has a colour yet. Takes 16 bytes for each own vertex and 4 for
    /// each vertex from the least own one to the greatest, 48 for each ghost, 12 for each holder of an own vertex, 8
    /// for each arc and for each colour up to the greatest degree, and meanwhile 8 for each vertex of the graph.
    /// `OutOfMemory` comes only where an allocation is refused.
    pub fn new(alloc: Global, part: Part) -> Result<Colouring, OutOfMemory>
        ensures new { IfOk result (λ c. IsNewColouring c) }
        ensures part { IfOk result (λ c. part_in c ≡ part) }
    {
        let flags = Flags::bidirectional();
        let cells = Cells::new(alloc, &part, LastWins { start: NO_COLOUR }, flags)?;
        let slots = part.slots(alloc)?;
        let Ok((palette, list)) = room_for(alloc, &part) else {
            return Err(OutOfMemory);
        };
        Ok(Colouring {
            part,
            cells,
            slots,
            palette,
            list,
            next: 0,
            idle: false,
            cast: None,
            ended: false,
            rounds: Rounds::None,
        })
    }

    /// How many own vertices there are.
    pub fn count(&self) -> u32
        ensures { result ≡ length (part_in self.now).vertices }
    {
        self.part.count()
    }

    /// The colour of the own vertex at the place, from 0; `None` where it has none yet. Once the colouring has ended
    /// each vertex has one.
    pub fn colour(&self, place: u32) -> Option<u32>
        requires { place < length (part_in self.now).vertices }
        ensures none { (result ≡ None) ↔ ((state_of self.now).own place ≡ NO_COLOUR) }
        ensures some { IfSome result (λ colour. (state_of self.now).own place ≡ colour) }
    {
        match self.cells.at_place(place) {
            NO_COLOUR => None,
            colour => Some(colour as u32),
        }
    }
}

// A palette with a colour more than the most arcs of a place, and the list of all places.
fn room_for(alloc: Global, part: &Part) -> Result<(Palette, Vec<u32>), AllocError>
    ensures colours { IfOk result (λ room. (place : ℕ) → place < length part.now.vertices → length (row part.now place) < length room.0.stamps.items) }
    ensures places { IfOk result (λ room. room.1.items ≡ range_with_len 0 (length part.now.vertices)) }
    ensures room { IfOk result (λ room. length part.now.vertices ≤ vec_capacity room.1) }
{
    let palette = Palette::new(alloc, most_arcs(part) + 1)?;
    let list = all_places(alloc, part)?;
    Ok((palette, list))
}

// The most arcs that a place has.
fn most_arcs(part: &Part) -> usize
    ensures most { (place : ℕ) → place < length part.now.vertices → length (row part.now place) ≤ result }
    ensures few { result < 2 ^ 32 }
{
    let mut most = 0;
    for place in 0..part.count() {
        most = most.max(part.arcs(place).len());
    }
    most
}

// All places, ascending.
fn all_places(alloc: Global, part: &Part) -> Result<Vec<u32>, AllocError>
    ensures places { IfOk result (λ list. list.items ≡ range_with_len 0 (length part.now.vertices)) }
    ensures room { IfOk result (λ list. length part.now.vertices ≤ vec_capacity list) }
{
    let mut list = Vec::with_capacity(alloc, part.count() as usize)?;
    for place in 0..part.count() {
        list.push_reserved(place);
    }
    Ok(list)
}
