//! What a rank knows of the degrees of its vertices and of their neighbours: a property map.
ghost use Rattle.std.specs.Prelude.{◌≡◌, ◌<◌, true, max, IfOk, is_some, length};
ghost use Rattle.pg_cells.specs.Runs.{Run};
ghost use Rattle.pg_cells.specs.Shown.{state_of};
ghost use Rattle.pg_cells.specs.States.{NothingLeft};
ghost use Rattle.pg_cells.specs.declared.phases.Phase.TheVariants.{Filling};
ghost use Rattle.pg_uses.specs.Greatest.{IsGreatest};
ghost use Rattle.pg_uses.specs.DegreeMaps.{IsValueBeside, HasNeighbours, no_degree, degree_puts, is_filling};

use pg_adj::Part;
use pg_base::OutOfMemory;
use pg_cells::{Cells, Flags, GreatestWins};
use pg_group::Vote;
use std::alloc::Global;

/// The program of one rank that finds the greatest degree among each own vertex's neighbours. It keeps degrees in a
/// property map: at first those of its own vertices, and those of its ghosts too once the map is synchronized, in two
/// rounds.
#[derive(Drop)]
pub struct NeighbourDegrees {
    pub(crate) part: Part,
    // The degree of each own vertex and each ghost; those of ghosts come with the synchronize.
    pub(crate) cells: Cells<GreatestWins>,
    pub(crate) idle: bool,
    pub(crate) cast: Option<Vote>,
    pub(crate) ended: bool,
    ghost same_part: { cells.part.value ≡ part },
    ghost backward: { (state_of cells).flags.backward ≡ true },
    ghost all_sent: { idle ≡ true → NothingLeft (state_of cells) },
    ghost voted: { is_some cast ≡ true → idle ≡ true },
    ghost last: { ended ≡ true → is_some cast ≡ true },
    ghost over: { ended ≡ is_filling (state_of cells).phase },
}

impl NeighbourDegrees {
    ghost use Rattle.pg_uses.specs.Synchronizing.{IsMapOf, cells_in, part_in};

    /// The program of the rank that holds this part. The degrees of its own vertices are put, and the map is closed.
    /// This allocates the map; `OutOfMemory` comes only where an allocation is refused.
    pub fn new(alloc: Global, part: Part) -> Result<NeighbourDegrees, OutOfMemory>
        ensures { IfOk result (λ p. IsMapOf part p) }
    {
        let flags = Flags::bidirectional();
        let mut cells = Cells::new(alloc, &part, GreatestWins, flags)?;
        put_degrees(&part, &mut cells);
        cells.close();
        Ok(NeighbourDegrees {
            part,
            cells,
            idle: false,
            cast: None,
            ended: false,
        })
    }

    /// The greatest value among the neighbours of the own vertex at the place, from 0; 0 where it has none. Once the
    /// program has ended the values are degrees. Takes time linear in the vertex's arcs, but for the search for each
    /// ghost's slot.
    pub fn greatest(&self, place: u32) -> u64
        requires place { place < length (part_in self.now).vertices }
        requires neighbours { HasNeighbours (part_in self.now) place }
        ensures { IsGreatest (IsValueBeside (part_in self.now) (cells_in self.now) place) result }
    {
        // For the facts that it ensures.
        let _n = self.part.n();
        let arcs = self.part.arcs(place);
        let mut greatest = 0;
        for arc in arcs {
            greatest = greatest.max(self.cells.get(arc.to).unwrap_or(0));
        }
        greatest
    }
}

// Puts the degree of each own vertex.
fn put_degrees(part: &Part, cells: &mut Cells<GreatestWins>)
    requires part { cells.old.part.value ≡ part.now }
    requires filling { cells.old.phase ≡ Filling }
    ensures puts { Run max no_degree (state_of cells.old) (degree_puts part.now (length part.now.vertices)) (state_of cells.new) }
    ensures part { cells.new.part ≡ cells.old.part }
    ensures flags { (state_of cells.new).flags ≡ (state_of cells.old).flags }
    ensures phase { cells.new.phase ≡ cells.old.phase }
{
    for place in 0..part.count() {
        cells.put_at(place, part.arcs(place).len() as u64);
    }
}
