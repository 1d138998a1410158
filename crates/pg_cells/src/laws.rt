//! An example of what the laws of a synchronize take as given. The call does nothing: it is proved to meet the laws
//! that its clauses state.

ghost use Rattle.std.specs.Prelude.{max};
ghost use Rattle.pg_cells.specs.Example.{both_ways, cells, parts, runs, start};
ghost use Rattle.pg_cells.specs.Freshness.{AreOfOneDivision, AreFresh, HaveJoinedAll, HaveSynchronized};

/// Two ranks with a vertex each synchronize a map with forward and backward.
pub fn synchronized()
    ensures division { AreOfOneDivision parts }
    ensures premise { HaveSynchronized max start both_ways parts runs cells }
    ensures fresh { AreFresh cells }
    ensures joined { HaveJoinedAll max start runs cells }
{}
