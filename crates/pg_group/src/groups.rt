//! How the ports of a new group are made, and the lanes between them.
ghost use Rattle.std.specs.Prelude.{◌≡◌, ◌≤◌, ◌<◌, ◌+◌, ◌-◌, ℕ, false, [], ◌∷◌, ◌++◌, IfOk, OnErr, OnOk, length, map, replicate};
ghost use Rattle.pg_group.specs.Entries.{Each, GrewTogether};
ghost use Rattle.pg_group.specs.Grouped.{AreOneGroup};

use crate::inlanes::InLane;
use crate::outlanes::OutLane;
use crate::{Envelope, Mailbox, Outbox, Port};
use pg_base::{OutOfMemory, RankNo, Ranks};
use pg_lane::LaneKind;
use std::alloc::Global;
use std::marker::PhantomData;

/// The ports of a new group, by rank, with one lane for each ordered pair of different ranks, which holds at most
/// `capacity` messages, from 1 to 1024. Nothing was sent or taken, and no round's mark. `Err` says that the run is out
/// of memory.
pub fn ports<B: Copy + Send, K: LaneKind<Envelope<B>>>(
    token: &K::Token,
    alloc: Global,
    ranks: Ranks,
    capacity: u32,
) -> Result<Vec<Port<B, K>>, OutOfMemory>
    requires at_least { 1 ≤ capacity }
    requires at_most { capacity ≤ 1024 }
    ensures count { IfOk result (λ group. length group.items ≡ ranks) }
    ensures group { IfOk result (λ group. AreOneGroup (map ⟦<Port<B, K> as Mailbox<B>>⟧.wiring group.items)) }
    ensures capacities { IfOk result (λ group. Each (λ rank p. (⟦<Port<B, K> as Mailbox<B>>⟧.wiring p).capacities ≡ replicate (ranks - 1) capacity) group.items) }
    ensures sent { IfOk result (λ group. Each (λ rank p. ⟦<Port<B, K> as Outbox<B>>⟧.sent p ≡ replicate ranks []) group.items) }
    ensures marks_sent { IfOk result (λ group. Each (λ rank p. ⟦<Port<B, K> as Outbox<B>>⟧.marks_sent p ≡ replicate ranks false) group.items) }
    ensures taken { IfOk result (λ group. Each (λ rank p. ⟦<Port<B, K> as Mailbox<B>>⟧.taken p ≡ replicate ranks []) group.items) }
    ensures marks_taken { IfOk result (λ group. Each (λ rank p. ⟦<Port<B, K> as Mailbox<B>>⟧.marks_taken p ≡ replicate ranks false) group.items) }
{
    let count = ranks.count();
    let Ok(mut group) = Vec::with_capacity(alloc, count as usize) else {
        return Err(OutOfMemory);
    };
    for rank in 0..count {
        add_rank(token, alloc, &mut group, RankNo(rank), capacity)?;
    }
    Ok(group)
}

// Adds the next rank to a group.
fn add_rank<B: Copy + Send, K: LaneKind<Envelope<B>>>(
    token: &K::Token,
    alloc: Global,
    group: &mut Vec<Port<B, K>>,
    own: RankNo,
    capacity: u32,
) -> Result<(), OutOfMemory>
    requires at_least { 1 ≤ capacity }
    requires at_most { capacity ≤ 1024 }
    requires next { length group.old.items ≡ own.0 }
    requires few { own.0 < 32 }
    requires whole { AreOneGroup (map ⟦<Port<B, K> as Mailbox<B>>⟧.wiring group.old.items) }
    requires new_outs { Each (λ rank p. Each (λ place l. (K.Out.sent l.end ≡ []) × (l.marked ≡ false) × (K.Out.capacity l.end ≡ capacity)) p.outs.items) group.old.items }
    requires new_ins { Each (λ rank p. Each (λ place l. (K.In.taken l.end ≡ []) × (l.closed ≡ false)) p.ins.items) group.old.items }
    ensures grown { OnOk result (length group.new.items ≡ length group.old.items + 1) }
    ensures whole { OnOk result (AreOneGroup (map ⟦<Port<B, K> as Mailbox<B>>⟧.wiring group.new.items)) }
    ensures new_outs { OnOk result (Each (λ rank p. Each (λ place l. (K.Out.sent l.end ≡ []) × (l.marked ≡ false) × (K.Out.capacity l.end ≡ capacity)) p.outs.items) group.new.items) }
    ensures new_ins { OnOk result (Each (λ rank p. Each (λ place l. (K.In.taken l.end ≡ []) × (l.closed ≡ false)) p.ins.items) group.new.items) }
{
    let mut outs = Vec::new(alloc);
    let mut ins = Vec::new(alloc);
    for rank in 0..own.0 as usize {
        connect_both(
            token,
            alloc,
            &mut group[rank],
            &mut outs,
            &mut ins,
            capacity,
        )?;
    }
    let port = Port {
        rank: own,
        ranks: own.0 + 1,
        outs,
        ins,
    };
    if group.reserve(1).is_err() {
        return Err(OutOfMemory);
    }
    group.push_reserved(port);
    Ok(())
}

// Makes the lanes between the port of an earlier rank and the next rank, whose ends go into `outs` and `ins`.
fn connect_both<B: Copy + Send, K: LaneKind<Envelope<B>>>(
    token: &K::Token,
    alloc: Global,
    port: &mut Port<B, K>,
    outs: &mut Vec<OutLane<B, K::Out>>,
    ins: &mut Vec<InLane<B, K::In>>,
    capacity: u32,
) -> Result<(), OutOfMemory>
    requires at_least { 1 ≤ capacity }
    requires at_most { capacity ≤ 1024 }
    requires open { 0 < port.old.ranks }
    requires few { port.old.ranks < 32 }
    ensures rank { OnOk result (port.new.rank ≡ port.old.rank) }
    ensures ranks { OnOk result (port.new.ranks ≡ port.old.ranks + 1) }
    ensures there { OnOk result (GrewTogether (λ out inn. (K.Out.lane out.end ≡ K.In.lane inn.end) × (K.Out.capacity out.end ≡ capacity)
        × (K.Out.sent out.end ≡ []) × (out.marked ≡ false) × (K.In.taken inn.end ≡ []) × (inn.closed ≡ false))
        outs.old.items outs.new.items port.old.ins.items port.new.ins.items) }
    ensures back { OnOk result (GrewTogether (λ out inn. (K.Out.lane out.end ≡ K.In.lane inn.end) × (K.Out.capacity out.end ≡ capacity)
        × (K.Out.sent out.end ≡ []) × (out.marked ≡ false) × (K.In.taken inn.end ≡ []) × (inn.closed ≡ false))
        port.old.outs.items port.new.outs.items ins.old.items ins.new.items) }
{
    let (out, theirs) = new_lane::<B, K>(token, alloc, capacity)?;
    let (back, mine) = new_lane::<B, K>(token, alloc, capacity)?;
    if outs.reserve(1).is_err() || ins.reserve(1).is_err() {
        return Err(OutOfMemory);
    }
    if port.outs.reserve(1).is_err() || port.ins.reserve(1).is_err() {
        return Err(OutOfMemory);
    }
    port.outs.push_reserved(back);
    port.ins.push_reserved(theirs);
    port.ranks += 1;
    outs.push_reserved(out);
    ins.push_reserved(mine);
    Ok(())
}

type Ends<B, K> = (
    OutLane<B, <K as LaneKind<Envelope<B>>>::Out>,
    InLane<B, <K as LaneKind<Envelope<B>>>::In>,
);

// The two ends of a new lane.
fn new_lane<B: Copy + Send, K: LaneKind<Envelope<B>>>(
    token: &K::Token,
    alloc: Global,
    capacity: u32,
) -> Result<Ends<B, K>, OutOfMemory>
    requires at_least { 1 ≤ capacity }
    requires at_most { capacity ≤ 1024 }
    ensures lane { IfOk result (λ ends. K.Out.lane ends.0.end ≡ K.In.lane ends.1.end) }
    ensures capacity { IfOk result (λ ends. K.Out.capacity ends.0.end ≡ capacity) }
    ensures sent { IfOk result (λ ends. K.Out.sent ends.0.end ≡ []) }
    ensures marked { IfOk result (λ ends. ends.0.marked ≡ false) }
    ensures taken { IfOk result (λ ends. K.In.taken ends.1.end ≡ []) }
    ensures closed { IfOk result (λ ends. ends.1.closed ≡ false) }
{
    let (out, inn) = K::make(*token, alloc, capacity)?;
    let out = OutLane {
        end: out,
        number: 0,
        marked: false,
        items: PhantomData,
    };
    let inn = InLane {
        end: inn,
        closed: false,
        items: PhantomData,
    };
    Ok((out, inn))
}
