//! What follows from the definitions of this crate's `specs/`. No call does anything: each is proved to meet the
//! laws that its clauses state.
ghost use Rattle.pg_lane.specs.Ring.{TellsWhatItSaw, saw_taken, sends, saw_sent, receives, lets_go, shows_rest};

/// Whatever counts as a look of an end is a load of the other end's word, and shows the number that this load found.
/// For the writer that word is the head, word 0, and for the reader the tail, word 16. No other step changes what was
/// seen.
pub fn ends_tell_what_they_saw<M>()
    ensures saw_taken { TellsWhatItSaw {M = M} 0 saw_taken }
    ensures sends { TellsWhatItSaw {M = M} 0 sends }
    ensures saw_sent { TellsWhatItSaw {M = M} 16 saw_sent }
    ensures receives { TellsWhatItSaw {M = M} 16 receives }
    ensures lets_go { TellsWhatItSaw {M = M} 16 lets_go }
    ensures shows_rest { TellsWhatItSaw {M = M} 16 shows_rest }
{}
