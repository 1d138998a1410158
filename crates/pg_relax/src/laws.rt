//! The law of this crate: what the values of a whole run are, and which offers it sent.

ghost use Rattle.pg_triggers.specs.Endings.{StopsBy};
ghost use Rattle.pg_relax.specs.Endings.{WholeEndsAlike, all_quiet};
ghost use Rattle.pg_relax.specs.Whole.{WholeIsBest, WholeIsRelaxed};

use crate::Relax;
use pg_agenda::Agenda;
use pg_group::Program;
use pg_label::Label;

/// Where all that was sent was handled, by ranks that relax one list of arcs and have all ended, each vertex has at its
/// owner the least value, by class, amount and hops, of a walk that leads to it. And each arc between vertices of two
/// ranks is relaxed: where it extends the value at its start within the limits, an offer of at most that extension was
/// sent to its end's owner. All ranks end with the same round. This holds for every label, every agenda and every
/// division, and in whatever order the offers came.
///
/// Source: the induction along walks of Dijkstra, A note on two problems in connexion with graphs (1959), and of
/// Bellman, On a routing problem (1958), over the messages of Gregor and Lumsdaine (OOPSLA 2005).
pub fn whole_runs()
    ensures best { WholeIsBest }
    ensures relaxed { WholeIsRelaxed }
    ensures alike { WholeEndsAlike }
{}

/// A relaxation stops by one rule, whatever its label and agenda: it ends with the first round in which every rank
/// votes that it sent nothing and that nothing is pending.
///
/// Source: Valiant, A bridging model for parallel computation (CACM 33(8), 1990): supersteps.
pub fn relaxations_stop_once_all_votes_are_quiet<L: Label + Send, A: Agenda + Send>()
    ensures { (start : _) → StopsBy ⟦<Relax<L, A> as Program>⟧ all_quiet start }
{}
