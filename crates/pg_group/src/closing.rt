//! How the lanes of a group end, once its ranks have run.
ghost use Rattle.std.specs.Prelude.{◌≡◌, ◌≢◌, ◌+◌, ◌-◌, ◌*◌, ◌^◌, ◌<◌, ◌≤◌, [], ◌∷◌, ◌++◌, length, map, slice_get};
ghost use Rattle.std.specs.Vec.{vec_capacity};
ghost use Rattle.pg_group.specs.Entries.{Each};
ghost use Rattle.pg_group.specs.Ranked.{list_at, place_of};
ghost use Rattle.pg_group.specs.Grouped.{AreOneGroup};
ghost use Rattle.pg_group.specs.Settling.{SettledAt};

use crate::inlanes::InLane;
use crate::outlanes::OutLane;
use crate::{Envelope, Mailbox, Outbox, Port};
use pg_lane::{LaneKind, Settled};

/// Ends the lanes of a group, given all its ports by rank and an empty list with room for one entry for each lane: for
/// p ranks p (p - 1) lanes. Appends the settled lanes, ascending in (sender, receiver), each with what its two ports
/// show as sent and taken. Allocates nothing.
pub fn close_ports<B: Copy + Send, K: LaneKind<Envelope<B>>>(
    mut ports: Vec<Port<B, K>>,
    lanes: &mut Vec<Settled<Envelope<B>>>,
)
    requires whole { AreOneGroup (map ⟦<Port<B, K> as Mailbox<B>>⟧.wiring ports.items) }
    requires empty { lanes.old.items ≡ [] }
    requires room { length ports.items * (length ports.items - 1) ≤ vec_capacity lanes.old }
    ensures count { length lanes.new.items ≡ length ports.items * (length ports.items - 1) }
    ensures each { Each (λ r p. Each (λ s q. r ≢ s → SettledAt lanes.new.items (r * (length ports.items - 1) + place_of r s)
        (list_at (⟦<Port<B, K> as Outbox<B>>⟧.sent p) s) (list_at (⟦<Port<B, K> as Mailbox<B>>⟧.taken q) r)
        (slice_get (⟦<Port<B, K> as Mailbox<B>>⟧.wiring p).capacities (place_of r s))) ports.items) ports.items }
{
    let others = ports.len().saturating_sub(1);
    // The ends of the last lane are the last ones of their ports, so the lanes end from the back.
    for lane in (0..ports.len() * others).rev() {
        let sender = lane / others;
        let receiver = rank_at(sender, lane % others);
        let out = last_out(&mut ports[sender]);
        let inn = last_in(&mut ports[receiver]);
        lanes.push_reserved(K::settle(out.end, inn.end));
    }
    lanes.reverse();
}

// Takes the last lane to another rank out of a port that is being closed.
fn last_out<B: Copy + Send, K: LaneKind<Envelope<B>>>(port: &mut Port<B, K>) -> OutLane<B, K::Out>
    requires some { 0 < length port.old.outs.items }
    ensures outs { port.old.outs.items ≡ port.new.outs.items ++ result ∷ [] }
    ensures ins { port.new.ins.items ≡ port.old.ins.items }
{
    port.ranks = 0;
    port.outs.pop().unwrap()
}

// Takes the last lane from another rank out of a port that is being closed.
fn last_in<B: Copy + Send, K: LaneKind<Envelope<B>>>(port: &mut Port<B, K>) -> InLane<B, K::In>
    requires some { 0 < length port.old.ins.items }
    ensures ins { port.old.ins.items ≡ port.new.ins.items ++ result ∷ [] }
    ensures outs { port.new.outs.items ≡ port.old.outs.items }
{
    port.ranks = 0;
    port.ins.pop().unwrap()
}

// The rank whose lane stands at this place among another rank's lanes.
fn rank_at(own: usize, place: usize) -> usize
    requires small { place < 2 ^ 63 }
    ensures other { result ≢ own }
    ensures stands { place_of own result ≡ place }
{
    if place < own { place } else { place + 1 }
}
