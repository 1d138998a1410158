//! What a rank keeps while it relaxes the arcs of its part.
ghost use Rattle.std.specs.Prelude.{◌≡◌, ◌<◌, true, None, length};
ghost use Rattle.std.specs.Option.{ForSome};
ghost use Rattle.pg_relax.specs.Offered.{Covers};
ghost use Rattle.pg_relax.specs.States.{row};

use crate::ahead::Ahead;
use crate::frontiers::Frontier;
use crate::offered::Offered;
use crate::rounds::Rounds;
use pg_adj::Part;
use pg_agenda::Agenda;
use pg_group::Vote;
use pg_label::Label;

/// The rank program that relaxes the arcs of one part of a divided graph. It keeps for each own vertex the least value
/// known of a walk that leads there from a vertex that the label starts, and offers values to the owners of the
/// vertices that its arcs lead to. The agenda says which vertices are relaxed when.
///
/// Source: Gregor and Lumsdaine, Lifting sequential graph algorithms for distributed-memory parallel computation
/// (OOPSLA 2005): the distributed breadth-first search and shortest paths of the Parallel Boost Graph Library.
#[derive(Drop)]
pub struct Relax<L: Label, A: Agenda> {
    pub(crate) part: Part,
    pub(crate) label: L,
    pub(crate) frontier: Frontier<A>,
    pub(crate) offered: Offered,
    pub(crate) ahead: Option<Ahead>,
    // Whether an offer was sent in this round.
    pub(crate) sends: bool,
    pub(crate) idle: bool,
    pub(crate) cast: Option<Vote>,
    pub(crate) ended: bool,
    pub(crate) rounds: Rounds,
    ghost each: { length frontier.table.values.items ≡ length part.vertices },
    ghost covers: { Covers part.ghosts offered.first (length offered.told.items) },
    ghost ahead_place: { ForSome ahead (λ h. h.place < length part.vertices) },
    ghost ahead_next: { ForSome ahead (λ h. h.next < length (row part h.place)) },
    ghost rests: { idle ≡ true → ahead ≡ None },
}
