//! What follows from the rules by which ranks colour their vertices. No call does anything: each is proved to meet the
//! laws that its clauses state.

ghost use Rattle.std.specs.Prelude.{◌≡◌, [], ◌∷◌};
ghost use Rattle.pg_proper.specs.Example.{example, example_answer, lone_example};
ghost use Rattle.pg_proper.specs.PassLaws.{LeastFreeIsOne, PassColours, PassIsOne, PassKeepsApart, PassKeepsBounded, PassSeesNear};
ghost use Rattle.pg_proper.specs.RunLaws.{EndComes, EndIsProper, OneRankIsFirstFit, OwnStayApart, VerticesAreColoured};
ghost use Rattle.pg_proper.specs.Runs.{HasEnded, IsAnswer, IsRun};

/// What a pass keeps of the colours that it begins with, and whom it gives a colour.
pub fn passes()
    ensures apart { PassKeepsApart }
    ensures bounded { PassKeepsBounded }
    ensures coloured { PassColours }
{}

/// A pass has one outcome, and depends only on the colours of the rank's own vertices and their neighbours.
pub fn outcomes()
    ensures least { LeastFreeIsOne }
    ensures one { PassIsOne }
    ensures near { PassSeesNear }
{}

/// Each run ends, with pass n at the latest in a graph of n vertices.
pub fn endings()
    ensures comes { EndComes }
{}

/// After every pass own vertices have colours and none has that of an own neighbour. Once the run has ended the colours
/// are proper, and with one rank they are those of first fit.
pub fn colourings()
    ensures own { OwnStayApart }
    ensures coloured { VerticesAreColoured }
    ensures proper { EndIsProper }
    ensures first_fit { OneRankIsFirstFit }
{}

/// A run of two ranks, in which a vertex is coloured twice, meets every premise.
pub fn example_run()
    ensures is { IsRun example 2 }
    ensures twice { example.list 1 1 ≡ 2 ∷ [] }
    ensures ended { HasEnded example 2 }
    ensures answer { IsAnswer example 2 example_answer }
{}

/// A run of one rank, which colours both ends of an edge in one pass, meets every premise too.
pub fn lone_example_run()
    ensures is { IsRun lone_example 1 }
    ensures ended { HasEnded lone_example 1 }
    ensures answer { IsAnswer lone_example 1 example_answer }
{}
