//! The own cells that are still to be sent to their holders.

ghost use Rattle.std.specs.Prelude.{◌≡◌, ◌+◌, ◌<◌, ◌≤◌, ◌++◌, All, IfOk, IfSome, None, OnOk, length, map, min};
ghost use Rattle.pg_adj.specs.Portions.{IsForeign};
ghost use Rattle.pg_cells.specs.States.{refreshes_of};

use pg_adj::{Holder, Part};
use std::alloc::{AllocError, Global};

/// An own cell goes to one of its holders.
#[derive(Clone, Copy, Debug, PartialEq, Eq)]
pub struct PendingRefresh {
    /// The place of the cell.
    pub place: u32,
    /// The holder.
    pub holder: Holder,
}

/// Which own cells are yet to be sent to which of their holders.
#[derive(Drop)]
pub struct Refreshes {
    /// Every own cell with each of its holders.
    pub entries: Vec<PendingRefresh>,
    /// Those from here on are yet to be sent.
    pub next: usize,
    ghost within: { next ≤ length entries.items },
}

impl Refreshes {
    /// The own cells of a part with their holders, none of them to be sent.
    pub fn of_part(alloc: Global, part: &Part) -> Result<Refreshes, AllocError>
        ensures entries { IfOk result (λ refreshes. refreshes.entries.items ≡ refreshes_of part.now) }
        ensures sent { IfOk result (λ refreshes. refreshes.next ≡ length refreshes.entries.items) }
        ensures foreign { IfOk result (λ refreshes. All (λ pending. IsForeign part.now pending.holder.rank.0) refreshes.entries.items) }
        ensures places { IfOk result (λ refreshes. All (λ pending. pending.place < length part.now.vertices) refreshes.entries.items) }
    {
        let mut entries = Vec::with_capacity(alloc, refresh_count(part))?;
        for place in 0..part.count() {
            push_refreshes(place, part.holders(place), &mut entries)?;
        }
        let next = entries.len();
        Ok(Refreshes { entries, next })
    }

    /// Every own cell is to be sent to each of its holders.
    pub fn begin(&mut self)
        ensures entries { self.new.entries ≡ self.old.entries }
        ensures next { self.new.next ≡ 0 }
    {
        self.next = 0;
    }

    /// The entry of the refresh that is sent next, if one is yet to be sent.
    pub fn next(&self) -> Option<usize>
        ensures next { IfSome result (λ entry. entry ≡ self.now.next) }
        ensures within { IfSome result (λ entry. entry < length self.now.entries.items) }
        ensures none { result ≡ None → self.now.next ≡ length self.now.entries.items }
    {
        (self.next < self.entries.len()).then_some(self.next)
    }

    /// The refresh that `next` answers was sent.
    pub fn sent(&mut self)
        requires { self.old.next < length self.old.entries.items }
        ensures entries { self.new.entries ≡ self.old.entries }
        ensures next { self.new.next ≡ self.old.next + 1 }
    {
        self.next += 1;
    }
}

// How many holders the own cells of a part have together.
fn refresh_count(part: &Part) -> usize
    ensures { result ≡ min (length (refreshes_of part.now)) usize.MAX }
{
    let mut count: usize = 0;
    for place in 0..part.count() {
        count = count.saturating_add(part.holders(place).len());
    }
    count
}

// Appends the cell of a place with each of its holders.
fn push_refreshes(
    place: u32,
    holders: &[Holder],
    entries: &mut Vec<PendingRefresh>,
) -> Result<(), AllocError>
    ensures { OnOk result (entries.new.items ≡ entries.old.items ++ map (λ h. record { place = place; holder = h }) holders.now) }
{
    for holder in holders {
        entries.push(PendingRefresh {
            place,
            holder: *holder,
        })?;
    }
    Ok(())
}
