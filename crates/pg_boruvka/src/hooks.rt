//! The hooks of a phase.
ghost use Rattle.std.specs.Prelude.{◌≡◌, ◌≢◌, ◌⊎◌, ℕ, ◌^◌, ◌+◌, ◌<◌, ◌≤◌, None, Some, All, IfNone, IfOk, IfSome, length, slice_index};
ghost use Rattle.pg_boruvka.specs.Arcs.{IsOfEdge};
ghost use Rattle.pg_boruvka.specs.Noted.{noted, own_hook_at, AreUnhooked, AreStill, IsNoted, IsEdgeOrNone};

use crate::arcs::edge_of;
use crate::{Hook, NO_KEY};
use std::alloc::{AllocError, Global};

/// Stands for the edge of a label that has no hook. Edges have lesser indices.
pub(crate) const NO_EDGE: u32 = u32::MAX;

/// The hook of each label, by label: to which label it leads, or the label itself, and by which edge.
#[derive(Drop)]
pub(crate) struct Hooks {
    pub(crate) targets: Vec<u32>,
    pub(crate) edges: Vec<u32>,
}

impl Hooks {
    /// Room for the hooks of so many labels. None is hooked.
    pub(crate) fn new(alloc: Global, count: usize) -> Result<Hooks, AllocError>
        requires { count < 2 ^ 32 }
        ensures targets { IfOk result (λ h. length h.targets.items ≡ count) }
        ensures edges { IfOk result (λ h. length h.edges.items ≡ count) }
        ensures unhooked { IfOk result (λ h. AreUnhooked h.targets.items h.edges.items) }
    {
        let mut targets = vec![in alloc; 0; count]?;
        let edges = vec![in alloc; NO_EDGE; count]?;
        reset(&mut targets);
        Ok(Hooks { targets, edges })
    }

    /// Unhooks all labels.
    pub(crate) fn clear(&mut self)
        requires { length self.old.targets.items < 2 ^ 32 }
        ensures unhooked { AreUnhooked self.new.targets.items self.new.edges.items }
        ensures same_targets { length self.new.targets.items ≡ length self.old.targets.items }
        ensures same_edges { length self.new.edges.items ≡ length self.old.edges.items }
    {
        reset(&mut self.targets);
        self.edges.fill(NO_EDGE);
    }

    /// Notes the hook, unless its source has one.
    pub(crate) fn note(&mut self, hook: &Hook)
        requires target { hook.now.source < length self.old.targets.items }
        requires edge { hook.now.source < length self.old.edges.items }
        requires one { hook.now.edge ≢ NO_EDGE }
        ensures noted { IsNoted hook.now self.old.targets.items self.old.edges.items self.new.targets.items self.new.edges.items }
        ensures still { AreStill self.old.targets.items self.old.edges.items → AreStill self.new.targets.items self.new.edges.items }
        ensures targets { (count : ℕ) → hook.now.target < count → All (λ l. l < count) self.old.targets.items → All (λ l. l < count) self.new.targets.items }
        ensures edges { (edges : ℕ) → hook.now.edge < edges → All (IsEdgeOrNone edges) self.old.edges.items → All (IsEdgeOrNone edges) self.new.edges.items }
        ensures same_targets { length self.new.targets.items ≡ length self.old.targets.items }
        ensures same_edges { length self.new.edges.items ≡ length self.old.edges.items }
    {
        let source = hook.source as usize;
        if self.edges[source] == NO_EDGE {
            self.targets[source] = hook.target;
            self.edges[source] = hook.edge;
        }
    }

    /// Notes the hook of each label whose own key has won.
    pub(crate) fn note_own(&mut self, keys: &[u64], across: &[u32], winners: &[u64])
        requires across { length across.now ≡ length keys.now }
        requires winners { length winners.now ≡ length keys.now }
        requires targets { length self.old.targets.items ≡ length keys.now }
        requires edges { length self.old.edges.items ≡ length keys.now }
        requires few { length keys.now < 2 ^ 32 }
        requires unhooked { AreUnhooked self.old.targets.items self.old.edges.items }
        ensures first { 1 ≤ length keys.now → noted self.new.targets.items self.new.edges.items 0 ≡ None }
        ensures own { (l : ℕ) → 1 ≤ l → l < length keys.now → noted self.new.targets.items self.new.edges.items l ≡ own_hook_at keys.now across.now winners.now l }
        ensures still { AreStill self.new.targets.items self.new.edges.items }
        ensures all_targets { (count : ℕ) → All (λ l. l < count) across.now → All (λ l. l < count) self.old.targets.items → All (λ l. l < count) self.new.targets.items }
        ensures all_edges { (edges : ℕ) → All (IsOfEdge edges) keys.now → All (IsEdgeOrNone edges) self.old.edges.items → All (IsEdgeOrNone edges) self.new.edges.items }
        ensures same_targets { length self.new.targets.items ≡ length self.old.targets.items }
        ensures same_edges { length self.new.edges.items ≡ length self.old.edges.items }
    {
        for label in 1..keys.len() {
            if let Some(hook) = own_hook(keys, across, winners, label as u32) {
                self.note(&hook);
            }
        }
    }
}

// Makes each entry its own place.
pub(crate) fn reset(targets: &mut [u32])
    requires { length targets.old < 2 ^ 32 }
    ensures own { (l : ℕ) → l < length targets.new → slice_index targets.new l ≡ l }
    ensures same_count { length targets.new ≡ length targets.old }
{
    for (label, target) in targets.iter_mut().enumerate() {
        *target = label as u32;
    }
}

/// The label's hook, if its own key has won.
pub(crate) fn own_hook(keys: &[u64], across: &[u32], winners: &[u64], label: u32) -> Option<Hook>
    requires key { label < length keys.now }
    requires across { label < length across.now }
    requires winner { label < length winners.now }
    ensures { result ≡ own_hook_at keys.now across.now winners.now label }
{
    let key = keys[label as usize];
    if key == NO_KEY || winners[label as usize] != key {
        return None;
    }
    Some(Hook {
        source: label,
        target: across[label as usize],
        edge: edge_of(key),
    })
}

/// The next label, from the given one on, whose own key has won, as a hook.
pub(crate) fn next_own_hook(
    keys: &[u64],
    across: &[u32],
    winners: &[u64],
    label: u32,
) -> Option<Hook>
    requires across { length across.now ≡ length keys.now }
    requires winners { length winners.now ≡ length keys.now }
    requires few { length keys.now < 2 ^ 32 }
    ensures from { IfSome result (λ hook. label ≤ hook.source) }
    ensures within { IfSome result (λ hook. hook.source < length keys.now) }
    ensures found { IfSome result (λ hook. own_hook_at keys.now across.now winners.now hook.source ≡ Some hook) }
    ensures next { IfSome result (λ hook. (l : ℕ) → label ≤ l → l < hook.source → own_hook_at keys.now across.now winners.now l ≡ None) }
    ensures none { IfNone result ((l : ℕ) → label ≤ l → l < length keys.now → own_hook_at keys.now across.now winners.now l ≡ None) }
{
    for label in label..keys.len() as u32 {
        if let Some(hook) = own_hook(keys, across, winners, label) {
            return Some(hook);
        }
    }
    None
}
