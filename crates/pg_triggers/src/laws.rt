//! What follows from the definitions of this crate's `specs/`. No call does anything: each is proved to meet the
//! laws that its clauses state.

ghost use Rattle.std.specs.Prelude.{◌≡◌, ℕ, ◌+◌, nat_eq};
ghost use Rattle.pg_group.specs.Rolls.{rounds_of};
ghost use Rattle.pg_triggers.specs.Endings.{StopsBy, GivesBook};
ghost use Rattle.pg_triggers.specs.Mine.{first_book, second_book};
ghost use Rattle.pg_triggers.specs.Shown.{first_of, second_of};

use crate::Pair;
use pg_group::{Narrow, Program, Roll};

/// The round's number alone decides whether a roll stops: all rolls of as many rounds stop by one rule.
pub fn rolls_stop_with_their_last_round()
    ensures { (rounds : ℕ) (start : Roll) → rounds_of start ≡ rounds → StopsBy ⟦<Roll as Program>⟧ (λ k votes. nat_eq (k + 1) rounds) start }
{}

/// Where the pairs of all ranks of a group have ended over a whole book, each member that stops by one rule has a
/// whole book of its own: its messages and marks up to the round with which it ended, the same on all ranks.
pub fn members_have_whole_books<A: Narrow, B: Narrow>()
    ensures first { GivesBook ⟦<Pair<A, B> as Program>⟧ ⟦<A as Program>⟧ first_of first_book }
    ensures second { GivesBook ⟦<Pair<A, B> as Program>⟧ ⟦<B as Program>⟧ second_of second_book }
{}
