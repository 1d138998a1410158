//! The pass over the arcs with which a phase begins.
ghost use Rattle.std.specs.Prelude.{◌≡◌, ℕ, ◌<◌, ◌≤◌, All, filter, map, if◌then◌else◌, length, min, nat_lt, slice_index, slice_set};
ghost use Rattle.pg_base.specs.declared.TheConstants.{MAX_EDGES};
ghost use Rattle.pg_boruvka.specs.Arcs.{locals, relabelled, is_apart, IsInTables, AreLeasts, IsOfEdge};

use crate::NO_KEY;
use crate::arcs::DenseArc;

/// Moves the ends of each arc along the pointers of labels. Keeps the arcs whose ends differ then, in their order, and
/// notes for each label the least key of an arc from it to another label, and that label. A label without such an arc
/// has no key.
pub(crate) fn gather(
    arcs: &mut Vec<DenseArc>,
    pointers: &[u32],
    keys: &mut [u64],
    across: &mut [u32],
)
    requires arcs { All (IsInTables (length pointers.now) MAX_EDGES) arcs.old.items }
    requires pointers { All (λ l. l < length pointers.now) pointers.now }
    requires keys { length keys.old ≡ length pointers.now }
    requires across { length across.old ≡ length pointers.now }
    ensures kept { locals arcs.new.items ≡ map (relabelled (slice_index pointers.now)) (filter (is_apart (slice_index pointers.now)) (locals arcs.old.items)) }
    ensures leasts { AreLeasts (locals arcs.old.items) (slice_index pointers.now) keys.new across.new }
    ensures ends { (count edges : ℕ) → All (λ l. l < count) pointers.now → All (IsInTables count edges) arcs.old.items → All (IsInTables count edges) arcs.new.items }
    ensures edges { (count edges : ℕ) → edges ≤ MAX_EDGES → All (IsInTables count edges) arcs.old.items → All (IsOfEdge edges) keys.new }
    ensures targets { (count : ℕ) → All (λ l. l < count) across.old → All (λ l. l < count) pointers.now → All (λ l. l < count) across.new }
    ensures same_keys { length keys.new ≡ length keys.old }
    ensures same_across { length across.new ≡ length across.old }
{
    keys.fill(NO_KEY);
    let mut kept = 0;
    for place in 0..arcs.len() {
        let arc = arcs[place];
        let from = pointers[arc.from as usize];
        let to = pointers[arc.to as usize];
        if from != to {
            arcs[kept] = DenseArc { from, to, ..arc };
            kept += 1;
            lower(from, to, arc.key(), keys, across);
        }
    }
    arcs.truncate(kept);
}

// Notes the key of an arc from a label to another, if it is less than those before.
fn lower(from: u32, to: u32, key: u64, keys: &mut [u64], across: &mut [u32])
    requires key { from < length keys.old }
    requires label { from < length across.old }
    ensures key { keys.new ≡ slice_set keys.old from (min (slice_index keys.old from) key) }
    ensures label { across.new ≡ if nat_lt key (slice_index keys.old from) then slice_set across.old from to else across.old }
{
    if key < keys[from as usize] {
        keys[from as usize] = key;
        across[from as usize] = to;
    }
}
