//! Places by their buckets: in lists for the buckets of a window, and in one far list.
ghost use Rattle.std.specs.Prelude.{◌≡◌, ◌≢◌, ◌⊎◌, ◌+◌, ◌-◌, ◌*◌, ◌<◌, ◌≤◌, ◌^◌, ℕ, true, false, min, length, replicate, slice_set, IfOk, IfNone, IfSome};
ghost use Rattle.pg_agenda.specs.Shares.{NONE};
ghost use Rattle.pg_agenda.specs.Moves.{home};
ghost use Rattle.pg_agenda.specs.PlaceLists.{link_at, front};
ghost use Rattle.pg_agenda.specs.BucketPhases.{bucket_of, IsLowest};
ghost use Rattle.pg_agenda.specs.BucketQueues.{is_near, far_or_near, head_of};
ghost use Rattle.pg_agenda.specs.declared.bucket_queues.TheConstants.{WINDOW};

use crate::NONE;
use crate::place_lists::PlaceLists;
use pg_simd::least;
use std::alloc::{AllocError, Global};

// How many buckets have lists of their own.
const WINDOW: u32 = 1024;

// The lists of a window, and the far list.
const LISTS: u32 = WINDOW + 1;

/// How many more nodes than places the lists of a queue take.
pub(crate) const HEADS: u32 = 2 * LISTS;

/// Places by their buckets. The places in the buckets of a window have a list for each bucket, those in other buckets
/// one far list for all.
#[derive(Drop)]
pub(crate) struct BucketQueue {
    // The bucket of each place, or NONE.
    buckets: Vec<u64>,
    lists: PlaceLists,
    // The heads of the window's lists follow one another from here on, and the far list's head follows them.
    heads: u32,
    // As many lists, which are empty.
    spare: u32,
    // The window's first bucket.
    first: u64,
    // For each list of the window its bucket, or NONE where the list is empty.
    lowest: Vec<u64>,
    far: Bound,
    ghost places: { lists.count ≡ length buckets.items },
    ghost after: { length buckets.items ≤ heads },
    ghost within: { heads + WINDOW < length lists.next.items },
    ghost spare_after: { length buckets.items ≤ spare },
    ghost spare_within: { spare + WINDOW < length lists.next.items },
    ghost apart: { (one other : ℕ) → one ≤ WINDOW → other ≤ WINDOW → heads + one ≢ spare + other },
    ghost window: { length lowest.items ≡ WINDOW },
    ghost kept: { (place : ℕ) → place < length buckets.items → home lists.moves place ≡ head_of heads first buckets.items place },
    ghost told: { (slot : ℕ) → slot < WINDOW → bucket_of lowest.items slot ≡ bucket_of buckets.items (link_at lists.next.items (heads + slot)) },
    ghost bounded: { (place : ℕ) → place < length buckets.items → home lists.moves place ≡ heads + WINDOW → far.bucket ≤ bucket_of buckets.items place },
}

impl BucketQueue {
    /// Places below `count`, none of them in a bucket, and a window that begins with bucket 0.
    pub(crate) fn new(alloc: Global, count: u32) -> Result<BucketQueue, AllocError>
        requires { count + HEADS < 2 ^ 32 }
        ensures buckets { IfOk result (λ queue. queue.buckets.items ≡ replicate count NONE) }
        ensures first { IfOk result (λ queue. queue.first ≡ 0) }
    {
        Ok(BucketQueue {
            buckets: vec![in alloc; NONE; count as usize]?,
            lists: PlaceLists::new(alloc, count, HEADS)?,
            heads: count,
            spare: count + LISTS,
            first: 0,
            lowest: vec![in alloc; NONE; WINDOW as usize]?,
            far: Bound {
                bucket: NONE,
                place: 0,
            },
        })
    }

    /// Puts a place in a bucket, taking it out of the one where it was. Takes constant time.
    pub(crate) fn put(&mut self, place: u32, bucket: u64)
        requires place { place < length self.old.buckets.items }
        requires bucket { bucket < NONE }
        ensures buckets { self.new.buckets.items ≡ slice_set self.old.buckets.items place bucket }
        ensures first { self.new.first ≡ self.old.first }
    {
        let from = self.buckets[place as usize];
        self.lists
            .put(place, head_of(self.heads, self.first, bucket));
        self.buckets[place as usize] = bucket;
        renew(
            &mut self.lowest,
            self.heads,
            self.first,
            from,
            &self.buckets,
            &self.lists,
        );
        renew(
            &mut self.lowest,
            self.heads,
            self.first,
            bucket,
            &self.buckets,
            &self.lists,
        );
        self.far = self.far.with(self.first, place, bucket);
    }

    /// Takes the place that has been in this bucket longest out of it, if there is one in it; the bucket is one of the
    /// window. Takes constant time. In this order few places come back to a bucket with a lesser amount; that is for
    /// speed alone.
    pub(crate) fn take(&mut self, bucket: u64) -> Option<u32>
        requires { is_near self.old.first bucket ≡ true }
        ensures none { IfNone result ((place : ℕ) → bucket_of self.old.buckets.items place ≢ bucket) }
        ensures rests { IfNone result (self.new.buckets.items ≡ self.old.buckets.items) }
        ensures some { IfSome result (λ place. bucket_of self.old.buckets.items place ≡ bucket) }
        ensures within { IfSome result (λ place. place < length self.old.buckets.items) }
        ensures taken { IfSome result (λ place. self.new.buckets.items ≡ slice_set self.old.buckets.items place NONE) }
        ensures first { self.new.first ≡ self.old.first }
    {
        let place = self
            .lists
            .take_last(head_of(self.heads, self.first, bucket))?;
        self.buckets[place as usize] = NONE;
        renew(
            &mut self.lowest,
            self.heads,
            self.first,
            bucket,
            &self.buckets,
            &self.lists,
        );
        Some(place)
    }

    /// The least bucket of a place, or NONE. A pass over the window's entries, and over the far list where a far place
    /// may be in a lesser bucket and isn't known.
    pub(crate) fn least_bucket(&mut self) -> u64
        ensures lowest { IsLowest self.old.buckets.items result }
        ensures buckets { self.new.buckets.items ≡ self.old.buckets.items }
        ensures first { self.new.first ≡ self.old.first }
    {
        let near = least(&self.lowest).unwrap_or(NONE);
        if near <= self.far.bucket {
            return near;
        }
        self.far = self
            .far
            .made_sharp(&self.lists, self.heads + WINDOW, &self.buckets);
        near.min(self.far.bucket)
    }

    /// Makes this bucket one of the window. Where it isn't, a pass over all places that are in a bucket.
    pub(crate) fn show(&mut self, bucket: u64)
        requires { bucket < NONE }
        ensures near { is_near self.new.first bucket ≡ true }
        ensures buckets { self.new.buckets.items ≡ self.old.buckets.items }
    {
        if !is_near(self.first, bucket) {
            self.far = move_lists(
                &mut self.lists,
                self.heads,
                self.spare,
                bucket,
                &self.buckets,
            );
            let heads = self.spare;
            self.spare = self.heads;
            self.heads = heads;
            self.first = bucket;
            renew_all(&mut self.lowest, heads, &self.buckets, &self.lists);
        }
    }
}

/// A bucket that no place of the far list is below, and a place that was in it.
#[derive(Clone, Copy, Debug)]
struct Bound {
    bucket: u64,
    place: u32,
}

impl Bound {
    // The bound with one place more, which counts where its bucket isn't one of the window.
    fn with(self, first: u64, place: u32, bucket: u64) -> Bound
        ensures lower { result.bucket ≤ self.bucket }
        ensures holds { is_near first bucket ≡ false → result.bucket ≤ bucket }
    {
        if is_near(first, bucket) {
            self
        } else {
            self.lowered(place, bucket)
        }
    }

    // The lesser of the bound and this bucket.
    fn lowered(self, place: u32, bucket: u64) -> Bound
        ensures { result.bucket ≡ min self.bucket bucket }
    {
        if bucket < self.bucket {
            Bound { bucket, place }
        } else {
            self
        }
    }

    // The least bucket of the places in a list, of which this is a bound. A pass over the list where the bound's place
    // has left its bucket.
    fn made_sharp(self, lists: &PlaceLists, list: u32, buckets: &[u64]) -> Bound
        requires places { lists.now.count ≡ length buckets.now }
        requires head { lists.now.count ≤ list }
        requires list { list < length lists.now.next.items }
        requires bound { (place : ℕ) → place < length buckets.now → home lists.now.moves place ≡ list → self.bucket ≤ bucket_of buckets.now place }
        ensures lowest { (place : ℕ) → place < length buckets.now → home lists.now.moves place ≡ list → result.bucket ≤ bucket_of buckets.now place }
        ensures stands { (place : ℕ) × (bucket_of buckets.now place ≡ result.bucket) }
    {
        if self.stands(buckets) {
            self
        } else {
            least_of(lists, list, buckets)
        }
    }

    // Whether its place is in its bucket.
    fn stands(&self, buckets: &[u64]) -> bool
        ensures { result ≡ true → (place : ℕ) × (bucket_of buckets.now place ≡ self.now.bucket) }
    {
        let place = self.place as usize;
        place < buckets.len() && buckets[place] == self.bucket
    }
}

// Whether the bucket is one of the window that begins with `first`.
fn is_near(first: u64, bucket: u64) -> bool
    ensures { result ≡ is_near first bucket }
{
    bucket >= first && bucket - first < u64::from(WINDOW) && bucket < NONE
}

// The head of the list of places in this bucket.
fn head_of(heads: u32, first: u64, bucket: u64) -> u32
    requires { heads + WINDOW < 2 ^ 32 }
    ensures { result ≡ far_or_near heads first bucket }
{
    if is_near(first, bucket) {
        heads + (bucket - first) as u32
    } else {
        heads + WINDOW
    }
}

// The bucket of the first place of a list, or NONE.
fn first_bucket(buckets: &[u64], lists: &PlaceLists, list: u32) -> u64
    requires { list < length lists.now.next.items }
    ensures { result ≡ bucket_of buckets.now (link_at lists.now.next.items list) }
{
    let first = lists.after(list) as usize;
    if first < buckets.len() {
        buckets[first]
    } else {
        NONE
    }
}

// Where the bucket is one of the window, its entry is made that of its list.
fn renew(
    lowest: &mut Vec<u64>,
    heads: u32,
    first: u64,
    bucket: u64,
    buckets: &[u64],
    lists: &PlaceLists,
)
    requires window { length lowest.old.items ≡ WINDOW }
    requires heads { heads + WINDOW < length lists.now.next.items }
    ensures here { is_near first bucket ≡ true → bucket_of lowest.new.items (bucket - first) ≡ bucket_of buckets.now (link_at lists.now.next.items (heads + (bucket - first))) }
    ensures others { (slot : ℕ) → (is_near first bucket ≡ true → slot ≢ bucket - first) → bucket_of lowest.new.items slot ≡ bucket_of lowest.old.items slot }
    ensures length { length lowest.new.items ≡ length lowest.old.items }
{
    if is_near(first, bucket) {
        let slot = (bucket - first) as u32;
        lowest[slot as usize] = first_bucket(buckets, lists, heads + slot);
    }
}

// Makes each entry that of its list.
fn renew_all(lowest: &mut Vec<u64>, heads: u32, buckets: &[u64], lists: &PlaceLists)
    requires window { length lowest.old.items ≡ WINDOW }
    requires heads { heads + WINDOW < length lists.now.next.items }
    ensures each { (slot : ℕ) → slot < WINDOW → bucket_of lowest.new.items slot ≡ bucket_of buckets.now (link_at lists.now.next.items (heads + slot)) }
    ensures length { length lowest.new.items ≡ length lowest.old.items }
{
    for slot in 0..WINDOW {
        lowest[slot as usize] = first_bucket(buckets, lists, heads + slot);
    }
}

// Moves the places of a list to the lists of the window that begins with `first`, and bounds the far ones.
fn move_list(
    lists: &mut PlaceLists,
    from: u32,
    heads: u32,
    first: u64,
    buckets: &[u64],
    bound: Bound,
) -> Bound
    requires places { lists.old.count ≡ length buckets.now }
    requires from { lists.old.count ≤ from }
    requires from_in { from < length lists.old.next.items }
    requires heads { lists.old.count ≤ heads }
    requires heads_in { heads + WINDOW < length lists.old.next.items }
    requires apart { (offset : ℕ) → offset ≤ WINDOW → from ≢ heads + offset }
    requires pending { (place : ℕ) → place < length buckets.now → home lists.old.moves place ≡ from → bucket_of buckets.now place < NONE }
    requires bound { (place : ℕ) → place < length buckets.now → home lists.old.moves place ≡ heads + WINDOW → bound.bucket ≤ bucket_of buckets.now place }
    ensures stay { (place : ℕ) → place < length buckets.now → home lists.old.moves place ≢ from → home lists.new.moves place ≡ home lists.old.moves place }
    ensures moved { (place : ℕ) → place < length buckets.now → home lists.old.moves place ≡ from → home lists.new.moves place ≡ head_of heads first buckets.now place }
    ensures bound { (place : ℕ) → place < length buckets.now → home lists.new.moves place ≡ heads + WINDOW → result.bucket ≤ bucket_of buckets.now place }
    ensures nodes { length lists.new.next.items ≡ length lists.old.next.items }
    ensures count { lists.new.count ≡ lists.old.count }
{
    let mut bound = bound;
    while let Some(place) = lists.take_first(from) {
        let bucket = buckets[place as usize];
        lists.put(place, head_of(heads, first, bucket));
        bound = bound.with(first, place, bucket);
    }
    bound
}

// Moves the places of all lists from `from` on to those from `heads` on, whose window begins with `first`, and bounds
// the far ones.
fn move_lists(lists: &mut PlaceLists, from: u32, heads: u32, first: u64, buckets: &[u64]) -> Bound
    requires places { lists.old.count ≡ length buckets.now }
    requires from { lists.old.count ≤ from }
    requires from_in { from + WINDOW < length lists.old.next.items }
    requires heads { lists.old.count ≤ heads }
    requires heads_in { heads + WINDOW < length lists.old.next.items }
    requires apart { (one other : ℕ) → one ≤ WINDOW → other ≤ WINDOW → from + one ≢ heads + other }
    requires pending { (place : ℕ) → place < length buckets.now → bucket_of buckets.now place < NONE → (from ≤ home lists.old.moves place) × (home lists.old.moves place ≤ from + WINDOW) }
    requires alone { (place : ℕ) → place < length buckets.now → NONE ≤ bucket_of buckets.now place → home lists.old.moves place ≡ place }
    ensures moved { (place : ℕ) → place < length buckets.now → home lists.new.moves place ≡ head_of heads first buckets.now place }
    ensures bound { (place : ℕ) → place < length buckets.now → home lists.new.moves place ≡ heads + WINDOW → result.bucket ≤ bucket_of buckets.now place }
    ensures nodes { length lists.new.next.items ≡ length lists.old.next.items }
    ensures count { lists.new.count ≡ lists.old.count }
{
    let mut bound = Bound {
        bucket: NONE,
        place: 0,
    };
    for list in 0..LISTS {
        bound = move_list(lists, from + list, heads, first, buckets, bound);
    }
    bound
}

// The least bucket of the places in a list, or NONE.
fn least_of(lists: &PlaceLists, list: u32, buckets: &[u64]) -> Bound
    requires places { lists.now.count ≡ length buckets.now }
    requires head { lists.now.count ≤ list }
    requires list { list < length lists.now.next.items }
    ensures lowest { (place : ℕ) → place < length buckets.now → home lists.now.moves place ≡ list → result.bucket ≤ bucket_of buckets.now place }
    ensures stands { (place : ℕ) × (bucket_of buckets.now place ≡ result.bucket) }
{
    let mut bound = Bound {
        bucket: NONE,
        place: 0,
    };
    let mut node = lists.after(list);
    while node != list {
        bound = bound.lowered(node, buckets[node as usize]);
        node = lists.after(node);
    }
    bound
}
