//! Where a rank puts the messages that it sends.
ghost use Rattle.std.specs.Prelude.{◌≡◌, ℕ, Bool, false, List, OnOk, OnErr, IfErr};
ghost use Rattle.pg_group.specs.declared.messages.Body.{Body};
ghost use Rattle.pg_group.specs.declared.messages.Body.TheVariants.{Item};
ghost use Rattle.pg_group.specs.Ranked.{IsOther, append_at, flag_at};

use pg_base::RankNo;
use pg_lane::Full;

/// Where a rank puts its messages to the other ranks of its group.
pub trait Outbox<B> {
    /// The rank that sends.
    ghost own: { Self → ℕ };

    /// How many ranks the group has.
    ghost size: { Self → ℕ };

    /// What was sent to each rank, by rank. What it sent to itself is nothing.
    ghost sent: { Self → List (List (Body B)) };

    /// Whether the mark of this round was sent to each rank, by rank.
    ghost marks_sent: { Self → List Bool };

    /// What the outbox before and after a call shows of a moment in between at which the lane to a rank was
    /// full.
    ghost saw_full: { Self → ℕ → Self → Type 0 };

    /// All else that the outbox keeps is the same.
    ghost SameRest: { Self → Self → Type 0 };

    /// What the outbox may have become by calls on it. A port says that on no lane less was sent or taken.
    ghost Later: { Self → Self → Type 0 };

    /// Sends an item to another rank, which was not sent this round's mark before. `Full` comes only where the lane to
    /// that rank was full at one moment of this call; the item comes back and nothing was sent. No other list grows,
    /// and the marks stay the same.
    fn send(&mut self, to: RankNo, item: B) -> Result<(), Full<B>>
        requires other { IsOther (own self.old) (size self.old) to.0 }
        requires unmarked { flag_at (marks_sent self.old) to.0 ≡ false }
        ensures ok { OnOk result (sent self.new ≡ append_at (sent self.old) to.0 (Item item)) }
        ensures refused { IfErr result (λ full. full.0 ≡ item) }
        ensures stays { OnErr result (sent self.new ≡ sent self.old) }
        ensures cause { OnErr result (saw_full self.old to.0 self.new) }
        ensures same_own { own self.new ≡ own self.old }
        ensures same_size { size self.new ≡ size self.old }
        ensures same_marks { marks_sent self.new ≡ marks_sent self.old }
        ensures rest { SameRest self.old self.new }
        ensures later { Later self.old self.new };

    /// An outbox may stay as it is.
    ghost later_same: { (o : Self) → Later o o };

    /// What it becomes by calls, one after another, it becomes by all of them.
    ghost later_on: { (o p q : Self) → Later o p → Later p q → Later o q };

    /// The rest of an outbox is the same as itself.
    ghost same_rest_refl: { (o : Self) → SameRest o o };

    /// The rest stays the same over two steps where it does over each.
    ghost same_rest_trans: { (o p q : Self) → SameRest o p → SameRest p q → SameRest o q };
}
