//! What a rank knows of labels, arcs and edges.
ghost use Rattle.std.specs.Prelude.{◌≡◌, ℕ, ◌^◌, ◌+◌, ◌<◌, ◌≤◌, None, Some, All, IfNone, IfOk, IfSome, filter, map, length, slice_index, true, false, ◌↔◌};
ghost use Rattle.pg_base.specs.declared.TheConstants.{MAX_EDGES, MAX_VERTICES};
ghost use Rattle.pg_boruvka.specs.declared.messages.Message.TheVariants.{Piece as Keys};
ghost use Rattle.pg_boruvka.specs.Arcs.{IsInTables, IsOfEdge, locals, relabelled, is_apart, AreLeasts};
ghost use Rattle.pg_boruvka.specs.Noted.{noted, own_hook_at, AreUnhooked, AreStill, IsNoted, IsEdgeOrNone};
ghost use Rattle.pg_boruvka.specs.Chosen.{AreMarked};
ghost use Rattle.pg_boruvka.specs.Lowered.{AreLowered, AreBegun};
ghost use Rattle.pg_boruvka.specs.Pointers.{AreMoved};

use crate::arcs::DenseArc;
use crate::gathering::gather;
use crate::hooks::{Hooks, reset};
use crate::pointers::move_to_ends;
use crate::{Hook, NO_KEY, Piece, chosen, winners};
use std::alloc::{AllocError, Global};

/// What a rank knows. Labels are numbers of vertices; the entries 0 of the lists by label stand for none.
#[derive(Drop)]
pub(crate) struct Tables {
    /// The arcs whose ends differ in label, between the labels that their ends had when the phase began.
    pub(crate) arcs: Vec<DenseArc>,
    /// The label of each vertex.
    pub(crate) labels: Vec<u32>,
    /// By label, the least key of an own arc that leaves it.
    pub(crate) keys: Vec<u64>,
    /// By label, to which label that arc leads.
    pub(crate) across: Vec<u32>,
    /// By label, the least key known of an arc that leaves it.
    pub(crate) winners: Vec<u64>,
    /// By label, its hook.
    pub(crate) hooks: Hooks,
    /// Whether each edge is chosen.
    pub(crate) chosen: Vec<bool>,
    ghost some: { 1 ≤ length labels.items },
    ghost few: { length labels.items ≤ MAX_VERTICES + 1 },
    ghost few_edges: { length chosen.items ≤ MAX_EDGES },
    ghost each_key: { length keys.items ≡ length labels.items },
    ghost each_across: { length across.items ≡ length labels.items },
    ghost each_winner: { length winners.items ≡ length labels.items },
    ghost each_target: { length hooks.targets.items ≡ length labels.items },
    ghost each_hook: { length hooks.edges.items ≡ length labels.items },
    ghost arcs_in: { All (IsInTables (length labels.items) (length chosen.items)) arcs.items },
    ghost labels_in: { All (λ l. l < length labels.items) labels.items },
    ghost keys_in: { All (IsOfEdge (length chosen.items)) keys.items },
    ghost across_in: { All (λ l. l < length labels.items) across.items },
    ghost targets_in: { All (λ l. l < length labels.items) hooks.targets.items },
    ghost hooks_in: { All (IsEdgeOrNone (length chosen.items)) hooks.edges.items },
}

impl Tables {
    ghost use Rattle.pg_boruvka.specs.Known.{known_in, with_winners, with_hooks};

    /// Each vertex is its own label, no label has a key or a hook, and no edge is chosen.
    pub(crate) fn new(
        alloc: Global,
        arcs: Vec<DenseArc>,
        n: u32,
        edges: u32,
    ) -> Result<Tables, AllocError>
        requires few { n ≤ MAX_VERTICES }
        requires few_edges { edges ≤ MAX_EDGES }
        requires ends { All (IsInTables (n + 1) edges) arcs.items }
        ensures arcs { IfOk result (λ t. t.arcs ≡ arcs) }
        ensures count { IfOk result (λ t. length t.labels.items ≡ n + 1) }
        ensures labels { IfOk result (λ t. (v : ℕ) → v < length t.labels.items → slice_index t.labels.items v ≡ v) }
        ensures edges { IfOk result (λ t. length t.chosen.items ≡ edges) }
        ensures unchosen { IfOk result (λ t. All (λ is. is ≡ false) t.chosen.items) }
        ensures unhooked { IfOk result (λ t. AreUnhooked t.hooks.targets.items t.hooks.edges.items) }
    {
        let count = n as usize + 1;
        let hooks = Hooks::new(alloc, count)?;
        let labels = own_labels(alloc, count)?;
        let keys = no_keys(alloc, count)?;
        let across = no_labels(alloc, count)?;
        let winners = no_keys(alloc, count)?;
        let chosen = no_marks(alloc, edges as usize)?;
        Ok(Tables {
            arcs,
            labels,
            keys,
            across,
            winners,
            hooks,
            chosen,
        })
    }

    /// Moves the ends of the arcs to where the hooks' targets lead, and finds the best keys, which are the first
    /// winners of the labels from `first` on and before `past`. Unhooks all labels.
    pub(crate) fn begin_phase(&mut self, first: u32, past: u32)
        requires order { first ≤ past }
        requires within { past ≤ length self.old.labels.items }
        ensures kept { locals self.new.arcs.items
            ≡ map (relabelled (slice_index self.old.hooks.targets.items)) (filter (is_apart (slice_index self.old.hooks.targets.items)) (locals self.old.arcs.items)) }
        ensures leasts { AreLeasts (locals self.old.arcs.items) (slice_index self.old.hooks.targets.items) self.new.keys.items self.new.across.items }
        ensures begun { AreBegun self.new.keys.items first past self.new.winners.items }
        ensures unhooked { AreUnhooked self.new.hooks.targets.items self.new.hooks.edges.items }
        ensures same_labels { self.new.labels.items ≡ self.old.labels.items }
        ensures same_chosen { self.new.chosen.items ≡ self.old.chosen.items }
    {
        self.gather_arcs();
        self.clear_hooks();
        self.begin_winners(first, past);
    }

    // Moves the ends of the arcs to where the hooks' targets lead, keeps the arcs whose ends differ then, and finds the
    // best keys.
    fn gather_arcs(&mut self)
        ensures kept { locals self.new.arcs.items
            ≡ map (relabelled (slice_index self.old.hooks.targets.items)) (filter (is_apart (slice_index self.old.hooks.targets.items)) (locals self.old.arcs.items)) }
        ensures leasts { AreLeasts (locals self.old.arcs.items) (slice_index self.old.hooks.targets.items) self.new.keys.items self.new.across.items }
        ensures same_labels { self.new.labels.items ≡ self.old.labels.items }
        ensures same_chosen { self.new.chosen.items ≡ self.old.chosen.items }
        ensures same_hooks { self.new.hooks ≡ self.old.hooks }
    {
        gather(
            &mut self.arcs,
            &self.hooks.targets,
            &mut self.keys,
            &mut self.across,
        );
    }

    // Makes the keys of the labels from `first` on and before `past` their winners.
    fn begin_winners(&mut self, first: u32, past: u32)
        requires order { first ≤ past }
        requires within { past ≤ length self.old.labels.items }
        ensures begun { AreBegun self.new.keys.items first past self.new.winners.items }
        ensures rest { known_in self.new ≡ with_winners (known_in self.old) self.new.winners.items }
    {
        winners::begin(&mut self.winners, &self.keys, first as usize, past as usize);
    }

    // Unhooks all labels.
    fn clear_hooks(&mut self)
        ensures unhooked { AreUnhooked self.new.hooks.targets.items self.new.hooks.edges.items }
        ensures rest { known_in self.new ≡ with_hooks (known_in self.old) self.new.hooks.targets.items self.new.hooks.edges.items }
    {
        self.hooks.clear();
    }

    /// Lowers the winners of the labels from `first` on and before `past` to the keys of the piece.
    pub(crate) fn lower(&mut self, piece: &Piece, first: u32, past: u32)
        requires { past ≤ length self.old.labels.items }
        ensures lowered { AreLowered (Keys piece.now) first past self.old.winners.items self.new.winners.items }
        ensures rest { known_in self.new ≡ with_winners (known_in self.old) self.new.winners.items }
    {
        winners::lower(&mut self.winners, piece, first as usize, past as usize);
    }

    /// Notes a hook, unless its source has one.
    pub(crate) fn note(&mut self, hook: &Hook)
        requires source { hook.now.source < length self.old.labels.items }
        requires target { hook.now.target < length self.old.labels.items }
        requires edge { hook.now.edge < length self.old.chosen.items }
        ensures noted { IsNoted hook.now self.old.hooks.targets.items self.old.hooks.edges.items self.new.hooks.targets.items self.new.hooks.edges.items }
        ensures still { AreStill self.old.hooks.targets.items self.old.hooks.edges.items → AreStill self.new.hooks.targets.items self.new.hooks.edges.items }
        ensures rest { known_in self.new ≡ with_hooks (known_in self.old) self.new.hooks.targets.items self.new.hooks.edges.items }
    {
        self.hooks.note(hook);
    }

    /// Notes the hook of each label whose own key has won, and no other.
    pub(crate) fn note_own(&mut self)
        ensures first { noted self.new.hooks.targets.items self.new.hooks.edges.items 0 ≡ None }
        ensures own { (l : ℕ) → 1 ≤ l → l < length self.old.keys.items → noted self.new.hooks.targets.items self.new.hooks.edges.items l
            ≡ own_hook_at self.old.keys.items self.old.across.items self.old.winners.items l }
        ensures still { AreStill self.new.hooks.targets.items self.new.hooks.edges.items }
        ensures rest { known_in self.new ≡ with_hooks (known_in self.old) self.new.hooks.targets.items self.new.hooks.edges.items }
    {
        self.clear_hooks();
        self.hooks.note_own(&self.keys, &self.across, &self.winners);
    }

    /// Chooses the edges of the hooks, and moves the labels along their pointers. The hooks' targets change to where
    /// they lead.
    pub(crate) fn end_phase(&mut self)
        ensures marked { AreMarked self.old.hooks.edges.items self.old.chosen.items self.new.chosen.items }
        ensures same_edges { length self.new.chosen.items ≡ length self.old.chosen.items }
        ensures moved { AreMoved MAX_VERTICES self.old.hooks.targets.items self.old.labels.items self.new.labels.items }
        ensures mapped { self.new.labels.items ≡ map (slice_index self.new.hooks.targets.items) self.old.labels.items }
        ensures same_count { length self.new.labels.items ≡ length self.old.labels.items }
        ensures same_arcs { self.new.arcs.items ≡ self.old.arcs.items }
    {
        chosen::mark(&mut self.chosen, &self.hooks.edges);
        move_to_ends(&mut self.labels, &mut self.hooks.targets);
    }

    /// Whether no label has a winner.
    pub(crate) fn is_over(&self) -> bool
        ensures { (result ≡ true) ↔ ((l : ℕ) → 1 ≤ l → l < length self.now.labels.items → slice_index self.now.winners.items l ≡ NO_KEY) }
    {
        winners::are_none(&self.winners)
    }
}

// For each number below the count itself.
fn own_labels(alloc: Global, count: usize) -> Result<Vec<u32>, AllocError>
    requires { count < 2 ^ 32 }
    ensures each { IfOk result (λ labels. length labels.items ≡ count) }
    ensures own { IfOk result (λ labels. (l : ℕ) → l < length labels.items → slice_index labels.items l ≡ l) }
{
    let mut labels = vec![in alloc; 0; count]?;
    reset(&mut labels);
    Ok(labels)
}

// So many times no key.
fn no_keys(alloc: Global, count: usize) -> Result<Vec<u64>, AllocError>
    ensures each { IfOk result (λ keys. length keys.items ≡ count) }
    ensures none { IfOk result (λ keys. All (λ key. key ≡ NO_KEY) keys.items) }
{
    vec![in alloc; NO_KEY; count]
}

// So many times the entry that is no label.
fn no_labels(alloc: Global, count: usize) -> Result<Vec<u32>, AllocError>
    ensures each { IfOk result (λ labels. length labels.items ≡ count) }
    ensures none { IfOk result (λ labels. All (λ l. l ≡ 0) labels.items) }
{
    vec![in alloc; 0; count]
}

// So many times no mark.
fn no_marks(alloc: Global, count: usize) -> Result<Vec<bool>, AllocError>
    ensures each { IfOk result (λ marks. length marks.items ≡ count) }
    ensures none { IfOk result (λ marks. All (λ is. is ≡ false) marks.items) }
{
    vec![in alloc; false; count]
}
