//! Where a rank takes the messages that come to it, and sends its own, round by round.
ghost use Rattle.std.specs.Prelude.{◌≡◌, ℕ, Bool, true, false, List, [], ◌∷◌, ◌++◌, OnOk, OnErr, IfErr, slice_set};
ghost use Rattle.pg_group.specs.declared.messages.Body.{Body};
ghost use Rattle.pg_group.specs.declared.messages.Body.TheVariants.{Item, Mark};
ghost use Rattle.pg_group.specs.Ranked.{IsOther, append_at, list_at, flag_at, all_clear, AllSet, Wiring};
ghost use Rattle.pg_group.specs.Rounds.{marks, items_of_round, ends_with_mark};
ghost use Rattle.pg_group.specs.Polls.{OnItem, OnMark, OnEmpty, OnClosed, is_closed};

use crate::{Outbox, Polled, Vote};
use pg_base::RankNo;
use pg_lane::Full;

/// An outbox that takes messages too, round by round. A round ends when one mark was sent down each lane
/// and one was taken from each lane.
pub trait Mailbox<B>: Outbox<B> {
    /// What was taken from each rank, by rank. What it took from itself is nothing.
    ghost taken: { Self → List (List (Body B)) };

    /// Whether the mark of this round was taken from each rank, by rank.
    ghost marks_taken: { Self → List Bool };

    /// What the mailbox before and after a call shows of a moment in between at which the lane from a rank
    /// was empty.
    ghost saw_empty: { Self → ℕ → Self → Type 0 };

    /// How it stands in its group: its rank, the group's size, and its lanes with their capacities.
    ghost wiring: { Self → Wiring };

    /// Sends the mark that ends this round on the lane to another rank, which was not sent it before. `Full` comes
    /// only where that lane was full at one moment of this call; the vote comes back and nothing was sent. What was
    /// taken stays the same.
    fn send_mark(&mut self, to: RankNo, vote: Vote) -> Result<(), Full<Vote>>
        requires other { IsOther (Self.own self.old) (Self.size self.old) to.0 }
        requires unmarked { flag_at (Self.marks_sent self.old) to.0 ≡ false }
        ensures ok { OnOk result (Self.sent self.new ≡ append_at (Self.sent self.old) to.0 (Mark vote)) }
        ensures marked { OnOk result (Self.marks_sent self.new ≡ slice_set (Self.marks_sent self.old) to.0 true) }
        ensures refused { IfErr result (λ full. full.0 ≡ vote) }
        ensures stays { OnErr result (Self.sent self.new ≡ Self.sent self.old) }
        ensures unmarked { OnErr result (Self.marks_sent self.new ≡ Self.marks_sent self.old) }
        ensures cause { OnErr result (Self.saw_full self.old to.0 self.new) }
        ensures same_own { Self.own self.new ≡ Self.own self.old }
        ensures same_size { Self.size self.new ≡ Self.size self.old }
        ensures rest { Self.SameRest self.old self.new }
        ensures later { Self.Later self.old self.new };

    /// Takes the next message from another rank. `Closed` comes exactly where this round's mark of that lane was taken
    /// before, and `Empty` only where the lane was empty at one moment of this call; nothing is taken then. What was
    /// sent stays the same.
    fn poll(&mut self, from: RankNo) -> Polled<B>
        requires { IsOther (Self.own self.old) (Self.size self.old) from.0 }
        ensures item { OnItem result (λ x. taken self.new ≡ append_at (taken self.old) from.0 (Item x)) }
        ensures of_round { OnItem result (λ x. let before = list_at (taken self.old) from.0 in
            items_of_round (marks before) (list_at (taken self.new) from.0) ≡ items_of_round (marks before) before ++ x ∷ []) }
        ensures open { OnItem result (λ x. marks_taken self.new ≡ marks_taken self.old) }
        ensures mark { OnMark result (λ v. taken self.new ≡ append_at (taken self.old) from.0 (Mark v)) }
        ensures ends { OnMark result (λ v. marks_taken self.new ≡ slice_set (marks_taken self.old) from.0 true) }
        ensures empty { OnEmpty result ((taken self.new ≡ taken self.old) × (marks_taken self.new ≡ marks_taken self.old)) }
        ensures cause { OnEmpty result (saw_empty self.old from.0 self.new) }
        ensures closed { is_closed result ≡ flag_at (marks_taken self.old) from.0 }
        ensures stays { OnClosed result ((taken self.new ≡ taken self.old) × (marks_taken self.new ≡ marks_taken self.old)) }
        ensures same_sent { Self.sent self.new ≡ Self.sent self.old }
        ensures same_marks { Self.marks_sent self.new ≡ Self.marks_sent self.old }
        ensures same_own { Self.own self.new ≡ Self.own self.old }
        ensures same_size { Self.size self.new ≡ Self.size self.old }
        ensures same_wiring { wiring self.new ≡ wiring self.old }
        ensures later { Self.Later self.old self.new };

    /// Whether this round's mark was sent to another rank.
    fn marked(&self, to: RankNo) -> bool
        requires { IsOther (Self.own self.now) (Self.size self.now) to.0 }
        ensures flag { result ≡ flag_at (Self.marks_sent self.now) to.0 }
        ensures last { result ≡ true → ends_with_mark (list_at (Self.sent self.now) to.0) ≡ true };

    /// Whether this round's mark was taken from another rank.
    fn closed(&self, from: RankNo) -> bool
        requires { IsOther (Self.own self.now) (Self.size self.now) from.0 }
        ensures flag { result ≡ flag_at (marks_taken self.now) from.0 }
        ensures last { result ≡ true → ends_with_mark (list_at (taken self.now) from.0) ≡ true };

    /// Begins the next round, where each other rank was sent this round's mark and it was taken from each. No mark of
    /// the new round was sent or taken; the messages sent and taken stay the same.
    fn next_round(&mut self)
        requires all_sent { AllSet (Self.own self.old) (Self.size self.old) (Self.marks_sent self.old) }
        requires all_taken { AllSet (Self.own self.old) (Self.size self.old) (marks_taken self.old) }
        ensures marks_sent { Self.marks_sent self.new ≡ all_clear (Self.marks_sent self.old) }
        ensures marks_taken { marks_taken self.new ≡ all_clear (marks_taken self.old) }
        ensures same_sent { Self.sent self.new ≡ Self.sent self.old }
        ensures same_taken { taken self.new ≡ taken self.old }
        ensures same_own { Self.own self.new ≡ Self.own self.old }
        ensures same_size { Self.size self.new ≡ Self.size self.old }
        ensures same_wiring { wiring self.new ≡ wiring self.old }
        ensures later { Self.Later self.old self.new };

    /// Where `SameRest` holds, what was taken, its marks and the wiring are the same.
    ghost rest_keeps: { (p q : Self) → Self.SameRest p q → (taken q ≡ taken p) × (marks_taken q ≡ marks_taken p) × (wiring q ≡ wiring p) };
}
