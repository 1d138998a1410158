//! What follows from the definition of a divided graph. No call does anything: each is proved to meet the law that its
//! clause states.

ghost use Rattle.pg_adj.specs.ArcSlots.{RowsHaveSlots};
ghost use Rattle.pg_adj.specs.Mirrored.{GhostsMirrorHolders};

/// The ghosts of each rank and the holders at their owners mirror each other, in the parts of one division.
pub fn mirrors()
    ensures mirrored { GhostsMirrorHolders }
{}

/// The slots beside the arcs of one place are those of its arcs.
pub fn slots()
    ensures rows { RowsHaveSlots }
{}
