//! Labels at the ends of their pointers.
//! Source: Wyllie, The Complexity of Parallel Computations (1979): pointer jumping.
ghost use Rattle.std.specs.Prelude.{◌≡◌, ℕ, ◌^◌, ◌<◌, ◌≤◌, false, All, length, map, slice_index};
ghost use Rattle.pg_forest.specs.Phases.{point as pointed};
ghost use Rattle.pg_base.specs.declared.TheConstants.{MAX_VERTICES};
ghost use Rattle.pg_boruvka.specs.Pointers.{AreShortened, AreReached, AreAtEnds, AreMoved};

// So often pointers are doubled: 1,048,576 is two to this power.
const DOUBLINGS: u32 = 20;

/// Moves each label 1,048,576 steps along the pointers of hooks, if these come to an end. The targets change to where
/// they lead.
pub(crate) fn move_to_ends(labels: &mut [u32], targets: &mut [u32])
    requires few { length targets.old < 2 ^ 32 }
    requires targets { All (λ l. l < length targets.old) targets.old }
    requires labels { All (λ l. l < length targets.old) labels.old }
    ensures moved { AreMoved MAX_VERTICES targets.old labels.old labels.new }
    ensures mapped { labels.new ≡ map (slice_index targets.new) labels.old }
    ensures labels_within { All (λ l. l < length targets.old) labels.new }
    ensures targets_within { All (λ l. l < length targets.old) targets.new }
    ensures same_labels { length labels.new ≡ length labels.old }
    ensures same_targets { length targets.new ≡ length targets.old }
{
    point(targets);
    shorten(targets);
    move_labels(labels, targets);
}

// Makes the pointers of hooks: of two labels that hook to each other the lesser points to itself.
fn point(targets: &mut [u32])
    requires few { length targets.old < 2 ^ 32 }
    requires within { All (λ l. l < length targets.old) targets.old }
    ensures points { (l : ℕ) → l < length targets.new → slice_index targets.new l ≡ pointed (slice_index targets.old) l }
    ensures within { All (λ l. l < length targets.new) targets.new }
    ensures same_count { length targets.new ≡ length targets.old }
{
    for label in 0..targets.len() {
        let target = targets[label] as usize;
        if label < target && targets[target] as usize == label {
            targets[label] = label as u32;
        }
    }
}

// Lets each pointer lead to where it leads in 1,048,576 steps, if that is a pointer's end.
fn shorten(pointers: &mut [u32])
    requires { All (λ l. l < length pointers.old) pointers.old }
    ensures shortened { AreShortened pointers.old pointers.new }
    ensures within { All (λ l. l < length pointers.new) pointers.new }
    ensures same_count { length pointers.new ≡ length pointers.old }
{
    for _ in 0..DOUBLINGS {
        if !double(pointers) {
            return;
        }
    }
}

// Lets each pointer lead on to where the one that it leads to leads. Answers whether one changed.
fn double(pointers: &mut [u32]) -> bool
    requires { All (λ l. l < length pointers.old) pointers.old }
    ensures farther { AreReached pointers.old 2 pointers.new }
    ensures at_ends { result ≡ false → AreAtEnds pointers.new }
    ensures within { All (λ l. l < length pointers.new) pointers.new }
    ensures same_count { length pointers.new ≡ length pointers.old }
{
    let mut changed = false;
    for label in 0..pointers.len() {
        let next = pointers[label];
        let after = pointers[next as usize];
        if after != next {
            pointers[label] = after;
            changed = true;
        }
    }
    changed
}

// Moves each label along its pointer.
fn move_labels(labels: &mut [u32], pointers: &[u32])
    requires { All (λ l. l < length pointers.now) labels.old }
    ensures moved { labels.new ≡ map (slice_index pointers.now) labels.old }
    ensures within { (count : ℕ) → All (λ l. l < count) pointers.now → All (λ l. l < count) labels.new }
{
    for label in labels.iter_mut() {
        *label = pointers[*label as usize];
    }
}
