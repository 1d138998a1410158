//! What the definition says of an example, and what follows from it. No call does anything: each is proved to meet the
//! laws that its clauses state.

ghost use Rattle.std.specs.Prelude.{◌≡◌, [], ◌∷◌};
ghost use Rattle.pg_base.specs.Examples.{edge};
ghost use Rattle.pg_make.specs.Grid.{grid_of, GridsAreGraphs, GridWeightsAreSmall};

/// The grid of two columns and two rows by the seed 7, drawn by hand.
pub fn example_grid()
    ensures vertices { (grid_of 2 2 7).n ≡ 4 }
    ensures edges { (grid_of 2 2 7).edges ≡ edge 1 2 2446 ∷ edge 1 3 1226 ∷ edge 2 4 1359 ∷ edge 3 4 2835 ∷ [] }
{}

/// A grid of at least one column and no more vertices than the limit is a graph, with weights of at most 4,096.
pub fn grids_are_graphs()
    ensures graphs { GridsAreGraphs }
    ensures weights { GridWeightsAreSmall }
{}
