//! The port of a rank: its lanes to and from all other ranks.
ghost use Rattle.std.specs.Prelude.{◌≡◌, ◌+◌, ◌<◌, ◌⊎◌, length};
ghost use Rattle.pg_group.specs.Ranked.{place_of};

use crate::inlanes::{InLane, Takes};
use crate::outlanes::{OutLane, Posts};
use crate::{Body, Envelope, Mailbox, Outbox, Polled, Vote};
use pg_base::RankNo;
use pg_lane::{Full, InEnd, LaneKind, OutEnd};

/// The port of one rank: a lane to and a lane from each other rank of its group, ascending by rank. It has no lane to
/// itself. Over `RingLanes` no call on it waits or allocates.
#[derive(Drop)]
pub struct Port<B: Copy + Send, K: LaneKind<Envelope<B>>> {
    pub(crate) rank: RankNo,
    // 0 once the port is being closed.
    pub(crate) ranks: u32,
    pub(crate) outs: Vec<OutLane<B, K::Out>>,
    pub(crate) ins: Vec<InLane<B, K::In>>,
    ghost outs_fit: { 0 < ranks → length outs.items + 1 ≡ ranks },
    ghost ins_fit: { 0 < ranks → length ins.items + 1 ≡ ranks },
    ghost in_group: { 0 < ranks → rank.0 < ranks },
}

impl<B: Copy + Send, K: LaneKind<Envelope<B>>> Outbox<B> for Port<B, K> {
    ghost use Rattle.std.specs.Prelude.{◌≡◌, ℕ, ◌<◌, false, [], List, map, slice_get, Some, refl};
    ghost use Rattle.std.proofs.Common.{◌∙◌};
    ghost use Rattle.pg_group.specs.Envelopes.{bodies};
    ghost use Rattle.pg_group.specs.Ranked.{place_of, by_rank, wired};
    ghost use Rattle.pg_group.specs.LaterLanes.{AllLater, all-same, all-on};
    ghost use Rattle.pg_lane.specs.EndLater.{OutLater, InLater};
    ghost use Rattle.pg_lane.proofs.Order.{out_same, out_on, in_same, in_on};

    ghost own = { λ p. p.rank.0 };

    ghost size = { λ p. p.ranks };

    ghost sent = { λ p. by_rank [] p.rank.0 (map (λ l. bodies (K.Out.sent l.end)) p.outs.items) };

    ghost marks_sent = { λ p. by_rank false p.rank.0 (map (λ l. l.marked) p.outs.items) };

    ghost saw_full = { λ old to new. (a : _) × (b : _)
        × (slice_get old.outs.items (place_of old.rank.0 to) ≡ Some a)
        × (slice_get new.outs.items (place_of old.rank.0 to) ≡ Some b)
        × K.Out.saw_full a.end b.end };

    ghost SameRest = { λ old new. (new.ins.items ≡ old.ins.items)
        × (wired new.rank.0 new.ranks (map (λ l. K.Out.lane l.end) new.outs.items) (map (λ l. K.In.lane l.end) new.ins.items) (map (λ l. K.Out.capacity l.end) new.outs.items)
        ≡ wired old.rank.0 old.ranks (map (λ l. K.Out.lane l.end) old.outs.items) (map (λ l. K.In.lane l.end) old.ins.items) (map (λ l. K.Out.capacity l.end) old.outs.items)) };

    // Each end of a lane is later in its own way.
    ghost Later = { λ old new. AllLater (λ a b. OutLater ⟦<K::Out as OutEnd<Envelope<B>>>⟧ a.end b.end) old.outs.items new.outs.items
        × AllLater (λ a b. InLater ⟦<K::In as InEnd<Envelope<B>>>⟧ a.end b.end) old.ins.items new.ins.items };

    fn send(&mut self, to: RankNo, item: B) -> Result<(), Full<B>> {
        let place = place(self.rank, to);
        if self.outs[place].post(Body::Item(item)) {
            Ok(())
        } else {
            Err(Full(item))
        }
    }

    ghost same_rest_refl = { λ o. (refl, refl) };

    ghost same_rest_trans = { λ o p q a b. (b.0 ∙ a.0, b.1 ∙ a.1) };

    ghost later_same = { λ o. (all-same _ (λ a. out_same _ a.end) o.outs.items, all-same _ (λ a. in_same _ a.end) o.ins.items) };

    ghost later_on = { λ o p q x y. (
      all-on _ (λ a b c. out_on _ a.end b.end c.end) o.outs.items p.outs.items q.outs.items x.0 y.0,
      all-on _ (λ a b c. in_on _ a.end b.end c.end) o.ins.items p.ins.items q.ins.items x.1 y.1,
    ) };
}

impl<B: Copy + Send, K: LaneKind<Envelope<B>>> Mailbox<B> for Port<B, K> {
    ghost use Rattle.std.specs.Prelude.{◌≡◌, ℕ, ◌<◌, false, [], List, map, slice_get, Some, refl};
    ghost use Rattle.std.proofs.Common.{ap};
    ghost use Rattle.pg_group.specs.Envelopes.{bodies};
    ghost use Rattle.pg_group.specs.Ranked.{place_of, by_rank, wired};

    ghost taken = { λ p. by_rank [] p.rank.0 (map (λ l. bodies (K.In.taken l.end)) p.ins.items) };

    ghost marks_taken = { λ p. by_rank false p.rank.0 (map (λ l. l.closed) p.ins.items) };

    ghost saw_empty = { λ old from new. (a : _) × (b : _)
        × (slice_get old.ins.items (place_of old.rank.0 from) ≡ Some a)
        × (slice_get new.ins.items (place_of old.rank.0 from) ≡ Some b)
        × K.In.saw_empty a.end b.end };

    ghost wiring = { λ p. wired p.rank.0 p.ranks (map (λ l. K.Out.lane l.end) p.outs.items) (map (λ l. K.In.lane l.end) p.ins.items) (map (λ l. K.Out.capacity l.end) p.outs.items) };

    fn send_mark(&mut self, to: RankNo, vote: Vote) -> Result<(), Full<Vote>> {
        let place = place(self.rank, to);
        if self.outs[place].post(Body::Mark(vote)) {
            Ok(())
        } else {
            Err(Full(vote))
        }
    }

    fn poll(&mut self, from: RankNo) -> Polled<B> {
        let place = place(self.rank, from);
        self.ins[place].take()
    }

    fn marked(&self, to: RankNo) -> bool {
        self.outs[place(self.rank, to)].marked
    }

    fn closed(&self, from: RankNo) -> bool {
        self.ins[place(self.rank, from)].closed
    }

    fn next_round(&mut self) {
        for i in 0..self.outs.len() {
            self.outs[i].marked = false;
        }
        for i in 0..self.ins.len() {
            self.ins[i].closed = false;
        }
    }

    ghost rest_keeps = { λ p q same. (
      (λ i. by_rank [] (same.1 i).own (map (λ l. bodies (K.In.taken l.end)) (same.0 i))),
      (λ i. by_rank false (same.1 i).own (map (λ l. l.closed) (same.0 i))),
      same.1,
    ) };
}

// Where the lane of another rank stands among a rank's lanes.
fn place(own: RankNo, other: RankNo) -> usize
    requires { other.0 < own.0 ⊎ own.0 < other.0 }
    ensures { result ≡ place_of own.0 other.0 }
{
    if other.0 < own.0 {
        other.0 as usize
    } else {
        other.0 as usize - 1
    }
}
