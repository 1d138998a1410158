//! What a rank keeps while it colours its vertices.
ghost use Rattle.std.specs.Prelude.{◌≡◌, ◌≢◌, ℕ, ◌<◌, ◌≤◌, ◌^◌, true, false, None, All, is_some, length};
ghost use Rattle.std.specs.Vec.{vec_capacity};
ghost use Rattle.pg_cells.specs.Shown.{state_of};
ghost use Rattle.pg_cells.specs.States.{refreshes_of};
ghost use Rattle.pg_cells.specs.Unsent.{unsent_from};
ghost use Rattle.pg_cells.specs.declared.phases.Phase.TheVariants.{Refreshing};
ghost use Rattle.pg_colour.specs.Passes.{row};
ghost use Rattle.pg_colour.specs.Rounds.{count_of};
ghost use Rattle.pg_colour.specs.Beside.{AreBeside};
ghost use Rattle.pg_colour.specs.Items.{items_in, phase_in};
ghost use Rattle.pg_colour.specs.declared.TheConstants.{NO_COLOUR};

use crate::palettes::Palette;
use crate::rounds::Rounds;
use pg_adj::Part;
use pg_cells::{Cells, LastWins};
use pg_group::Vote;

/// The rank program that colours the vertices of one part of a divided graph, so that no edge joins two of one colour
/// and each colour is at most its vertex's degree. In an even round, counted from 0, it goes through a list of its
/// vertices in ascending order and gives each the least colour that no neighbour has then, as far as it sees; the first
/// list has all of them. In an odd round it sends each vertex's colour to the ranks that hold it as a ghost, and after
/// it the list is each own vertex with a lesser neighbour of another rank that has the same colour. On one rank this is
/// first fit.
///
/// Source: Boman, Bozdağ, Catalyurek, Gebremedhin and Manne, A scalable parallel graph coloring algorithm for
/// distributed memory computers (Euro-Par 2005).
#[derive(Drop)]
pub struct Colouring {
    pub(crate) part: Part,
    // Each vertex's colour, or NO_COLOUR. Values are put in even rounds; the holders are refreshed in odd ones.
    pub(crate) cells: Cells<LastWins>,
    // Beside the arcs, in which slots their ends are ghosts.
    pub(crate) slots: Vec<Option<u32>>,
    pub(crate) palette: Palette,
    // The vertices of the pass, by place, ascending.
    pub(crate) list: Vec<u32>,
    // How many of the round's items are done: vertices of the list coloured, or refreshes sent.
    pub(crate) next: usize,
    pub(crate) idle: bool,
    pub(crate) cast: Option<Vote>,
    pub(crate) ended: bool,
    pub(crate) rounds: Rounds,
    ghost same_part: { cells.part.value ≡ part },
    ghost backward: { (state_of cells).flags.backward ≡ true },
    ghost phase: { (state_of cells).phase ≡ phase_in (count_of rounds) },
    ghost not_owed: { All (λ owed. owed ≡ None) (state_of cells).owed },
    ghost not_noted: { All (λ noted. noted ≡ false) (state_of cells).noted },
    ghost small: { All (λ colour. colour ≢ NO_COLOUR → colour < 2 ^ 32) (state_of cells).own },
    ghost unsent: { (state_of cells).phase ≡ Refreshing → (state_of cells).unsent ≡ unsent_from (length (refreshes_of part)) next },
    ghost beside: { AreBeside part slots.items },
    ghost colours: { (place : ℕ) → place < length part.vertices → length (row part place) < length palette.stamps.items },
    ghost places: { All (λ place. place < length part.vertices) list.items },
    ghost room: { length part.vertices ≤ vec_capacity list },
    ghost within: { next ≤ items_in part list.items (state_of cells).phase },
    ghost rests: { idle ≡ true → next ≡ items_in part list.items (state_of cells).phase },
    ghost voted: { is_some cast ≡ true → idle ≡ true },
    ghost over: { ended ≡ true → is_some cast ≡ true },
}
