//! How the programs of a group's ranks are made.
ghost use Rattle.std.specs.Prelude.{◌≡◌, ◌≤◌, IfOk};
ghost use Rattle.pg_base.specs.declared.TheConstants.{MAX_EDGES};
ghost use Rattle.pg_adj.specs.Portions.{Portion};

use crate::agendas::Agendas;
use pg_adj::Part;
use pg_agenda::Agenda;
use pg_base::OutOfMemory;
use pg_boruvka::Dense;
use pg_colour::Colouring;
use pg_group::Program;
use pg_label::Label;
use pg_relax::Relax;
use std::alloc::Global;

/// New programs, one for each part of a divided graph.
pub trait Maker<P: Program> {
    /// A program can be made of the part.
    ghost Takes: { Self → Portion → Type 0 };

    /// The program is the part's.
    ghost IsOf: { Self → Portion → P → Type 0 };

    /// A new program of the part.
    fn make(&self, alloc: Global, part: Part) -> Result<P, OutOfMemory>
        requires { Takes self.now part }
        ensures new { IfOk result (λ p. P.IsNew p) }
        ensures own { IfOk result (λ p. P.own p ≡ part.rank) }
        ensures size { IfOk result (λ p. P.size p ≡ part.ranks) }
        ensures is_of { IfOk result (λ p. IsOf self.now part p) };
}

/// Relaxations by a rule, each with a new agenda.
#[derive(Clone, Copy, Debug)]
pub struct Relaxations<L, M> {
    /// The rule.
    pub label: L,
    /// How the agendas are made.
    pub agendas: M,
}

impl<L: Label + Copy + Send + Drop, A: Agenda + Send + Drop, M: Agendas<A>> Maker<Relax<L, A>>
    for Relaxations<L, M> {
    ghost use Rattle.std.specs.Prelude.{◌≡◌};
    ghost use Rattle.pg_relax.specs.Shown.{label_in, part_in};

    ghost Takes = { λ _ _. Unit {0} };

    ghost IsOf = { λ maker part p. (part_in p ≡ part) × (label_in p ≡ maker.label) };

    fn make(&self, alloc: Global, part: Part) -> Result<Relax<L, A>, OutOfMemory> {
        let agenda = self.agendas.agenda(alloc, part.count())?;
        Relax::new(alloc, part, self.label, agenda)
    }
}

/// Forests by Borůvka's method.
#[derive(Clone, Copy, Debug)]
pub struct Forests {
    /// How many edges the whole graph has.
    pub edges: u32,
    ghost few: { edges ≤ MAX_EDGES },
}

impl Maker<Dense> for Forests {
    ghost use Rattle.std.specs.Prelude.{◌≡◌};
    ghost use Rattle.pg_boruvka.specs.Known.{part_in};
    ghost use Rattle.pg_boruvka.specs.Portions.{part_of};
    ghost use Rattle.pg_bench.specs.Divisions.{HasEdgesBelow};

    ghost Takes = { λ maker part. HasEdgesBelow maker.edges part };

    ghost IsOf = { λ maker part d. part_in d ≡ part_of maker.edges part };

    fn make(&self, alloc: Global, part: Part) -> Result<Dense, OutOfMemory> {
        Dense::new(alloc, part, self.edges)
    }
}

/// Colourings by passes.
#[derive(Clone, Copy, Debug)]
pub struct Colourings;

impl Maker<Colouring> for Colourings {
    ghost use Rattle.std.specs.Prelude.{◌≡◌};
    ghost use Rattle.pg_colour.specs.Shown.{part_in};

    ghost Takes = { λ _ _. Unit {0} };

    ghost IsOf = { λ _ part c. part_in c ≡ part };

    fn make(&self, alloc: Global, part: Part) -> Result<Colouring, OutOfMemory> {
        Colouring::new(alloc, part)
    }
}
