//! The laws of this crate's definitions. No call does anything: each is proved to meet the laws that its clauses state.

ghost use Rattle.std.specs.Prelude.{[], ◌∷◌};
ghost use Rattle.pg_cells.specs.Example.{one_each, pair, parts};
ghost use Rattle.pg_colour.specs.Example.{lists, lone, lone_part, lone_state, no_lists, state};
ghost use Rattle.pg_colour.specs.Steps.{OpeningKeeps, HandlingKeeps, ColouringKeeps, SendingKeeps, VotingKeeps, GoingOnKeeps, EndingKeeps};
ghost use Rattle.pg_colour.specs.Whole.{IsWholeRun, WholeEndsTogether, WholeIsSound, WholeIsFresh, WholeSeesOwners, WholeIsRun, WholeIsColoured, WholeIsProper, OneRankIsFirstFit};

/// Where all that was sent was handled, by ranks among which a graph is divided and which have all ended, all ended
/// with the same round; each rank was sent refreshes alone, which brought each ghost its owner's colour after the pass
/// before; and the owners' colours are proper, on one rank those of first fit. At the end each ghost is seen with its
/// owner's colour.
///
/// Source: Boman, Bozdağ, Catalyurek, Gebremedhin and Manne, A scalable parallel graph coloring algorithm for
/// distributed memory computers (Euro-Par 2005).
pub fn whole_runs()
    ensures together { WholeEndsTogether }
    ensures sound { WholeIsSound }
    ensures fresh { WholeIsFresh }
    ensures seen { WholeSeesOwners }
    ensures rules { WholeIsRun }
    ensures coloured { WholeIsColoured }
    ensures proper { WholeIsProper }
    ensures first_fit { OneRankIsFirstFit }
{}

/// By which steps a rank keeps what the law asks of it.
pub fn steps()
    ensures opening { OpeningKeeps }
    ensures handling { HandlingKeeps }
    ensures colouring { ColouringKeeps }
    ensures sending { SendingKeeps }
    ensures voting { VotingKeeps }
    ensures going_on { GoingOnKeeps }
    ensures ending { EndingKeeps }
{}

/// A run of two ranks, in which a vertex is coloured twice, meets every premise.
pub fn example_run()
    ensures { IsWholeRun one_each pair parts state lists lists }
{}

/// A run of one rank, which colours both ends of an edge in one pass, meets every premise too.
pub fn lone_example_run()
    ensures { IsWholeRun lone pair (lone_part ∷ []) (λ r. lone_state) no_lists no_lists }
{}
