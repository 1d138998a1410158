//! Agendas: which places of a rank are pending, and which of them is relaxed next.
ghost use Rattle.std.specs.Prelude.{◌≡◌, ◌≢◌, ◌↔◌, ◌⊎◌, ℕ, ◌%◌, ◌<◌, ◌≤◌, Bool, true, false, List, IfNone, IfSome};
ghost use Rattle.pg_group.specs.declared.messages.Vote.{Vote};
ghost use Rattle.pg_agenda.specs.declared.shares.Share.{Share};
ghost use Rattle.pg_agenda.specs.declared.shares.Share.TheVariants.{Light, Heavy, All};
ghost use Rattle.pg_agenda.specs.Shares.{AreNone, AreSame, NONE};

use crate::Share;
use pg_group::Vote;

/// The pending places of a rank. A place is pending for a share of its arcs, and ready where its turn has come by
/// what the ranks agreed on. The places are numbered from 0. No clause says in which order ready places come.
pub trait Agenda {
    /// How many places there are.
    ghost count: { Self → ℕ };

    /// Which places are pending for which share.
    ghost pending: { Self → Share → ℕ → Bool };

    /// Which places are pending for which share in the agreed phase.
    ghost ready: { Self → Share → ℕ → Bool };

    /// Which share takes an arc, by its weight.
    ghost takes: { Self → Share → ℕ → Bool };

    /// What it votes at the end of a round in which a message was sent, or none.
    ghost IsVote: { Self → Bool → Vote → Type 0 };

    /// What it has agreed on by the votes of all ranks: the agenda before, and after.
    ghost HasBegun: { Self → List Vote → Self → Type 0 };

    /// Makes a place pending, by its amount, which is at most 2^60: for all its arcs, or for the light ones. Whether
    /// it is pending for its heavy arcs, and all other places, stay the same.
    fn mark(&mut self, place: u32, amount: u64)
        requires place { place < count self.old }
        requires amount { amount ≤ 1152921504606846976 }
        ensures marked { (pending self.new All place ≡ true) ⊎ (pending self.new Light place ≡ true) }
        ensures heavy { pending self.new Heavy place ≡ pending self.old Heavy place }
        ensures others { (share : Share) (other : ℕ) → other ≢ place → pending self.new share other ≡ pending self.old share other }
        ensures same_count { count self.new ≡ count self.old }
        ensures same_takes { (share : Share) (w : ℕ) → takes self.new share w ≡ takes self.old share w };

    /// Takes a ready place, and answers it with the share of its arcs that is ready; it then isn't pending for that
    /// share. One that was ready for its light arcs is then pending for its heavy ones. `None` comes exactly where no
    /// place is ready; what is pending stays the same then.
    fn pop(&mut self) -> Option<(u32, Share)>
        ensures none { IfNone result (AreNone (ready self.old)) }
        ensures still { IfNone result (AreNone (ready self.new)) }
        ensures ready { IfSome result (λ got. ready self.old got.1 got.0 ≡ true) }
        ensures pending { IfSome result (λ got. pending self.old got.1 got.0 ≡ true) }
        ensures within { IfSome result (λ got. got.0 < count self.old) }
        ensures taken { IfSome result (λ got. pending self.new got.1 got.0 ≡ false) }
        ensures heavy { IfSome result (λ got. got.1 ≡ Light → pending self.new Heavy got.0 ≡ true) }
        ensures shares { IfSome result (λ got. (share : Share) → share ≢ got.1 → (got.1 ≡ Light → share ≢ Heavy) → pending self.new share got.0 ≡ pending self.old share got.0) }
        ensures others { IfSome result (λ got. (share : Share) (other : ℕ) → other ≢ got.0 → pending self.new share other ≡ pending self.old share other) }
        ensures rests { IfNone result (AreSame (pending self.old) (pending self.new)) }
        ensures whole { (w : ℕ) → takes self.old All w ≡ true }
        ensures halves { (w : ℕ) → (takes self.old Light w ≡ true) ⊎ (takes self.old Heavy w ≡ true) }
        ensures same_count { count self.new ≡ count self.old }
        ensures same_takes { (share : Share) (w : ℕ) → takes self.new share w ≡ takes self.old share w };

    /// Whether an arc of weight `w` belongs to the share.
    fn takes(&self, share: Share, w: u32) -> bool
        ensures { result ≡ takes self.now share w };

    /// The vote at the end of a round, where `sent` says whether a message was sent in it. Its `b` is odd exactly
    /// where one was, and `c` and `d` are 0. The greatest number in `a` and less than 2 in `b` come only where no
    /// place is pending. What is pending stays the same.
    fn vote(&mut self, sent: bool) -> Vote
        ensures form { IsVote self.old sent result }
        ensures odd { (result.b % 2 ≡ 1) ↔ (sent ≡ true) }
        ensures none { result.a ≡ NONE → result.b < 2 → AreNone (pending self.old) }
        ensures c { result.c ≡ 0 }
        ensures d { result.d ≡ 0 }
        ensures rests { AreSame (pending self.old) (pending self.new) }
        ensures same_count { count self.new ≡ count self.old }
        ensures same_takes { (share : Share) (w : ℕ) → takes self.new share w ≡ takes self.old share w };

    /// Agrees on what is ready from here on, by the votes of all ranks, by rank. What is pending stays the same.
    fn begin(&mut self, votes: &[Vote])
        ensures begun { HasBegun self.old votes.now self.new }
        ensures rests { AreSame (pending self.old) (pending self.new) }
        ensures same_count { count self.new ≡ count self.old }
        ensures same_takes { (share : Share) (w : ℕ) → takes self.new share w ≡ takes self.old share w };
}
