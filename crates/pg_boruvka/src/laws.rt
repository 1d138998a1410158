//! The laws of this crate's definitions. No call does anything: each is proved to meet the laws that its clauses state.

ghost use Rattle.pg_boruvka.specs.Whole.{IsRun, WholeIsForest, WholeIsLeast};
ghost use Rattle.pg_boruvka.specs.Ranks.{DenseIsForest, DenseIsLeast};
ghost use Rattle.pg_boruvka.specs.Portions.{DivisionsServe};
ghost use Rattle.pg_boruvka.specs.Steps.{OpeningKeeps, HandlingKeeps, SendingKeeps, VotingKeeps, GoingOnKeeps, EndingKeeps};
ghost use Rattle.pg_boruvka.specs.Example.{path, part_of, state, lists};

/// Where all that was sent was handled, by ranks among which a graph is divided and which have all ended, the edges of
/// each rank are exactly the least spanning forest, in order. So they span, and nothing that spans weighs less.
///
/// Source: Borůvka, O jistém problému minimálním (1926), over the messages of Dehne and Götz, Practical parallel
/// algorithms for minimum spanning trees (1998).
pub fn whole_runs()
    ensures forest { WholeIsForest }
    ensures least { WholeIsLeast }
{}

/// Where the programs of all ranks of a group are [`crate::Dense`] over the parts of a graph that is divided by a
/// distribution, each has kept its promise from its opening state over the lists of a whole book, and all have ended,
/// the edges of each program are exactly the least spanning forest, in order. So they span, and nothing that spans
/// weighs less.
///
/// Source: Borůvka, O jistém problému minimálním (1926); Dehne and Götz, Practical parallel algorithms for minimum
/// spanning trees (1998).
pub fn whole_dense()
    ensures forest { DenseIsForest }
    ensures least { DenseIsLeast }
{}

/// The portions of a graph that is divided by any distribution have what the law asks of the ranks' arcs.
pub fn divisions()
    ensures { DivisionsServe }
{}

/// By which steps a rank keeps what the law asks of it.
pub fn steps()
    ensures opening { OpeningKeeps }
    ensures handling { HandlingKeeps }
    ensures sending { SendingKeeps }
    ensures voting { VotingKeeps }
    ensures going_on { GoingOnKeeps }
    ensures ending { EndingKeeps }
{}

/// A run of two ranks over the path meets every premise.
pub fn example_run()
    ensures { IsRun 4 path 2 part_of (λ r. state) lists lists }
{}
