//! What follows from the definitions of forests, walks and Borůvka's phases. No call does anything: each is proved to
//! meet the laws that its clauses state.

ghost use Rattle.std.specs.Prelude.{◌≡◌, [], ◌∷◌};
ghost use Rattle.pg_base.specs.Examples.{path_edges};
ghost use Rattle.pg_forest.specs.EdgeKeys.{KeysGiveBack};
ghost use Rattle.pg_forest.specs.Example.{hook, win};
ghost use Rattle.pg_forest.specs.ForestLaws.{JoiningIsDecided, ForestIsDecided, LeastLeavingIsIn, LesserForestJoins, ForestJoins, SpanningPartIsAll, NoneUndercuts, ForestExists, ForestIsOne, ForestIsLeast, PartHasSameForest, ForestsMerge, IndicesGiveForest};
ghost use Rattle.pg_forest.specs.Phases.{AreHooks, steps, PhasesBegin, PhasesGrow, PhasesEnd};
ghost use Rattle.pg_forest.specs.ShortWalks.{WalksShorten, ShortWalksEnd};

/// Whether arcs join two vertices, and whether an edge is in the forest, has an answer.
pub fn decisions()
    ensures joining { JoiningIsDecided }
    ensures forest { ForestIsDecided }
{}

/// Which edges are in the forest, and what they join.
pub fn forest_laws()
    ensures leaving { LeastLeavingIsIn }
    ensures lesser { LesserForestJoins }
    ensures joins { ForestJoins }
    ensures part { SpanningPartIsAll }
    ensures undercut { NoneUndercuts }
{}

/// A list of edges in order has one forest, which spans and weighs least.
pub fn forests()
    ensures exists { ForestExists }
    ensures one { ForestIsOne }
    ensures least { ForestIsLeast }
    ensures part { PartHasSameForest }
    ensures merge { ForestsMerge }
    ensures indices { IndicesGiveForest }
{}

/// Walks can be shortened to walks that meet no vertex twice, and these have few arcs.
pub fn short_walks()
    ensures shorten { WalksShorten }
    ensures end { ShortWalksEnd }
{}

/// A phase of Borůvka's method keeps what was chosen a part of the forest that joins equal labels.
pub fn phases()
    ensures begin { PhasesBegin }
    ensures grow { PhasesGrow }
    ensures end { PhasesEnd }
{}

/// The hooks of the first phase on a path. Of the labels that hook to each other the lesser stays, and all move to it.
pub fn first_phase()
    ensures hooks { AreHooks path_edges (1 ∷ 2 ∷ 3 ∷ 4 ∷ []) (λ v. v) win hook }
    ensures first { steps hook 4 1 ≡ 2 }
    ensures lesser { steps hook 4 2 ≡ 2 }
    ensures greater { steps hook 4 3 ≡ 2 }
    ensures alone { steps hook 4 4 ≡ 4 }
{}

/// A key gives back the weight and the index that it was made of.
pub fn keys()
    ensures back { KeysGiveBack }
{}
