//! A lane that has ended, of any kind.
ghost use Rattle.std.specs.Prelude.{◌≡◌, ◌+◌, ◌-◌, ◌%◌, ◌^◌, ◌≤◌, length, take};

use crate::Shown;
use std::collections::LinkedList;

/// A lane that has ended. What was taken is the front of what was sent, and no more messages than the
/// lane's capacity were sent and not taken.
#[derive(Drop)]
pub struct Settled<M> {
    sent: Shown<LinkedList<M>>,
    taken: Shown<LinkedList<M>>,
    capacity: usize,
    pushed: u64,
    left: u64,
    pub ghost prefix: { taken.value ≡ take (length taken.value) sent.value },
    pub ghost rest: { length taken.value + left ≡ length sent.value },
    pub ghost within: { left ≤ capacity },
    pub ghost counted: { pushed ≡ length sent.value % 2 ^ 64 },
}

impl<M> Settled<M> {
    ghost use Rattle.pg_lane.specs.Settled.{settled_sent, settled_taken};

    /// How many messages were sent, modulo 2^64.
    pub fn pushed(&self) -> u64
        ensures { result ≡ length (settled_sent self.now) % 2 ^ 64 }
    {
        self.pushed
    }

    /// How many messages were sent and not taken, at most the lane's capacity.
    pub fn left(&self) -> u64
        ensures { length (settled_taken self.now) + result ≡ length (settled_sent self.now) }
    {
        self.left
    }
}

impl<M> Settled<M> {
    ghost use Rattle.std.specs.Prelude.{◌≡◌, ◌++◌, ◌+◌, ◌%◌, ◌^◌, ◌≤◌, length, List};
    ghost use Rattle.pg_lane.specs.Settled.{settled_sent, settled_taken, settled_capacity};

    /// A lane of any kind that has ended: the messages sent and those taken, oldest first, and how many it held at
    /// most. `pushed` is how many were sent, modulo 2^64, and `left` how many of them were not taken.
    pub fn new(
        sent: Shown<LinkedList<M>>,
        taken: Shown<LinkedList<M>>,
        capacity: usize,
        pushed: u64,
        left: u64,
    ) -> Settled<M>
        requires within { left ≤ capacity }
        requires counted { pushed ≡ length sent.value % 2 ^ 64 }
        requires rest { (items : List M) × (length items ≡ left) × (sent.value ≡ taken.value ++ items) }
        ensures sent { settled_sent result ≡ sent.value }
        ensures taken { settled_taken result ≡ taken.value }
        ensures capacity { settled_capacity result ≡ capacity }
    {
        Settled {
            sent,
            taken,
            capacity,
            pushed,
            left,
        }
    }
}
