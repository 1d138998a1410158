//! The agenda of delta-stepping: places by buckets of their amounts.
ghost use Rattle.std.specs.Prelude.{◌≡◌, ◌≢◌, ◌⊎◌, ◌↔◌, ◌+◌, ◌%◌, ◌/◌, ◌<◌, ◌≤◌, ◌^◌, ℕ, Bool, true, false, not, [], length, replicate, slice_set, IfOk, IfNone, IfSome, if◌then◌else◌};
ghost use Rattle.pg_agenda.specs.Shares.{NONE, AreNone, AreSame};
ghost use Rattle.pg_agenda.specs.declared.shares.Share.{Share};
ghost use Rattle.pg_agenda.specs.declared.shares.Share.TheVariants.{Light, Heavy, All};
ghost use Rattle.pg_agenda.specs.LevelLists.{is_set, is_any};
ghost use Rattle.pg_agenda.specs.BucketPhases.{bucket_of, by_bucket, ready_by, takes_by, IsBucketVote, IsLowest, next_agreement};
ghost use Rattle.pg_agenda.specs.BucketQueues.{is_near};

use crate::agreements::Agreement;
use crate::bucket_queues::{BucketQueue, HEADS};
use crate::place_sets::PlaceSet;
use crate::{Agenda, Share};
use pg_base::OutOfMemory;
use pg_group::Vote;
use std::alloc::{AllocError, Global};

/// The buckets of delta-stepping: a place stands in the bucket `amount / delta`. The light arcs, those of at most
/// `delta`, are relaxed from the agreed bucket until it stays empty, and then the heavy arcs of all that it held.
///
/// The pending places of 1,024 buckets, the window, stand in a list for each bucket, the others in one far list.
/// `mark` and `pop` take constant time. `vote` takes a pass over the window's buckets, and one over the far list where
/// the least bucket may be there and the far place that was known to have it has left it. `begin` takes a pass over
/// the votes. Where the agreed bucket isn't one of the window, the window moves there, in a pass over its lists and
/// over each place that is in a bucket; where it moves on to a greater bucket in a run, only the far places are left
/// in one.
///
/// Source: Meyer and Sanders, Delta-stepping: a parallelizable shortest path algorithm (Journal of Algorithms 49,
/// 2003).
#[derive(Drop)]
pub struct Buckets {
    // The places that are pending for their light arcs.
    light: BucketQueue,
    // The places that are pending for their heavy arcs.
    heavy: PlaceSet,
    agreed: Agreement,
    delta: u32,
    ghost divides: { 1 ≤ delta },
    ghost same_places: { length heavy.members.items ≡ length light.buckets.items },
    // The agreed bucket has a list of its own.
    ghost shown: { is_near light.first agreed.bucket ≡ true },
}

impl Buckets {
    ghost use Rattle.pg_agenda.specs.BucketsShown.{place_count, bucket_list, heavy_flags, agreement, width};

    /// Places below `count`, none of them pending, in the light phase of bucket 0. `delta` is the width of a bucket,
    /// in units of weight, at least 1. Allocates all the memory that the agenda needs. `Err` says that the run is out
    /// of memory; it comes for more than 4,294,965,245 places too, since the lists' heads are numbered after them.
    pub fn new(alloc: Global, count: u32, delta: u32) -> Result<Buckets, OutOfMemory>
        requires { 1 ≤ delta }
        ensures count { IfOk result (λ agenda. place_count agenda ≡ count) }
        ensures light { IfOk result (λ agenda. (place : ℕ) → bucket_of (bucket_list agenda) place ≡ NONE) }
        ensures heavy { IfOk result (λ agenda. (place : ℕ) → is_set (heavy_flags agenda) place ≡ false) }
        ensures bucket { IfOk result (λ agenda. (agreement agenda).bucket ≡ 0) }
        ensures phase { IfOk result (λ agenda. (agreement agenda).light ≡ true) }
        ensures delta { IfOk result (λ agenda. width agenda ≡ delta) }
    {
        if count > u32::MAX - HEADS {
            return Err(OutOfMemory);
        }
        match buckets_of(alloc, count, delta) {
            Ok(agenda) => Ok(agenda),
            Err(_) => Err(OutOfMemory),
        }
    }

    // Takes a place out of the agreed bucket, if it has one. The place then is pending for its heavy arcs.
    fn take_light(&mut self) -> Option<u32>
        ensures none { IfNone result ((place : ℕ) → bucket_of self.old.light.buckets.items place ≢ self.old.agreed.bucket) }
        ensures rests { IfNone result (self.new.light.buckets.items ≡ self.old.light.buckets.items) }
        ensures rests_heavy { IfNone result (self.new.heavy.members.items ≡ self.old.heavy.members.items) }
        ensures some { IfSome result (λ place. bucket_of self.old.light.buckets.items place ≡ self.old.agreed.bucket) }
        ensures within { IfSome result (λ place. place < length self.old.light.buckets.items) }
        ensures taken { IfSome result (λ place. self.new.light.buckets.items ≡ slice_set self.old.light.buckets.items place NONE) }
        ensures heavy { IfSome result (λ place. self.new.heavy.members.items ≡ slice_set self.old.heavy.members.items place true) }
        ensures agreed { self.new.agreed ≡ self.old.agreed }
        ensures delta { self.new.delta ≡ self.old.delta }
    {
        let place = self.light.take(self.agreed.bucket)?;
        self.heavy.add(place);
        Some(place)
    }
}

// The buckets of a new agenda.
fn buckets_of(alloc: Global, count: u32, delta: u32) -> Result<Buckets, AllocError>
    requires delta { 1 ≤ delta }
    requires count { count + HEADS < 2 ^ 32 }
    ensures buckets { IfOk result (λ agenda. agenda.light.buckets.items ≡ replicate count NONE) }
    ensures heavy { IfOk result (λ agenda. agenda.heavy.members.items ≡ replicate count false) }
    ensures bucket { IfOk result (λ agenda. agenda.agreed.bucket ≡ 0) }
    ensures phase { IfOk result (λ agenda. agenda.agreed.light ≡ true) }
    ensures delta { IfOk result (λ agenda. agenda.delta ≡ delta) }
{
    Ok(Buckets {
        light: BucketQueue::new(alloc, count)?,
        heavy: PlaceSet::new(alloc, count as usize)?,
        agreed: Agreement {
            bucket: 0,
            light: true,
        },
        delta,
    })
}

impl Agenda for Buckets {
    ghost use Rattle.std.specs.Prelude.{◌≡◌};
    ghost use Rattle.pg_agenda.specs.BucketPhases.{IsBucketVote, next_agreement, takes_by};
    ghost use Rattle.pg_agenda.specs.BucketsShown.{place_count, bucket_list, heavy_flags, agreement, width, pending_places, ready_places};

    ghost count = { place_count };

    ghost pending = { pending_places };

    ghost ready = { ready_places };

    ghost takes = { λ a. takes_by (width a) };

    ghost IsVote = { λ a. IsBucketVote (bucket_list a) (heavy_flags a) };

    ghost HasBegun = { λ old votes new. agreement new ≡ next_agreement votes (agreement old) };

    fn mark(&mut self, place: u32, amount: u64)
        requires place { place < place_count self.old }
        requires amount { amount ≤ 1152921504606846976 }
        ensures marked { (pending_places self.new All place ≡ true) ⊎ (pending_places self.new Light place ≡ true) }
        ensures heavy { pending_places self.new Heavy place ≡ pending_places self.old Heavy place }
        ensures others { (share : Share) (other : ℕ) → other ≢ place → pending_places self.new share other ≡ pending_places self.old share other }
        ensures same_count { place_count self.new ≡ place_count self.old }
        ensures same_takes { (share : Share) (w : ℕ) → takes_by (width self.new) share w ≡ takes_by (width self.old) share w }
        ensures buckets { bucket_list self.new ≡ slice_set (bucket_list self.old) place (amount / width self.old) }
        ensures same_heavy { heavy_flags self.new ≡ heavy_flags self.old }
        ensures agreed { agreement self.new ≡ agreement self.old }
        ensures delta { width self.new ≡ width self.old }
    {
        self.light.put(place, amount / u64::from(self.delta));
    }

    fn pop(&mut self) -> Option<(u32, Share)>
        ensures none { IfNone result (AreNone (ready_places self.old)) }
        ensures still { IfNone result (AreNone (ready_places self.new)) }
        ensures ready { IfSome result (λ got. ready_places self.old got.1 got.0 ≡ true) }
        ensures pending { IfSome result (λ got. pending_places self.old got.1 got.0 ≡ true) }
        ensures within { IfSome result (λ got. got.0 < place_count self.old) }
        ensures taken { IfSome result (λ got. pending_places self.new got.1 got.0 ≡ false) }
        ensures heavy { IfSome result (λ got. got.1 ≡ Light → pending_places self.new Heavy got.0 ≡ true) }
        ensures shares { IfSome result (λ got. (share : Share) → share ≢ got.1 → (got.1 ≡ Light → share ≢ Heavy) → pending_places self.new share got.0 ≡ pending_places self.old share got.0) }
        ensures others { IfSome result (λ got. (share : Share) (other : ℕ) → other ≢ got.0 → pending_places self.new share other ≡ pending_places self.old share other) }
        ensures rests { IfNone result (AreSame (pending_places self.old) (pending_places self.new)) }
        ensures whole { (w : ℕ) → takes_by (width self.old) All w ≡ true }
        ensures halves { (w : ℕ) → (takes_by (width self.old) Light w ≡ true) ⊎ (takes_by (width self.old) Heavy w ≡ true) }
        ensures same_count { place_count self.new ≡ place_count self.old }
        ensures same_takes { (share : Share) (w : ℕ) → takes_by (width self.new) share w ≡ takes_by (width self.old) share w }
        ensures same_buckets { IfNone result (bucket_list self.new ≡ bucket_list self.old) }
        ensures same_heavy { IfNone result (heavy_flags self.new ≡ heavy_flags self.old) }
        ensures buckets { IfSome result (λ got. bucket_list self.new ≡ (if (agreement self.old).light then slice_set (bucket_list self.old) got.0 NONE else bucket_list self.old)) }
        ensures flags { IfSome result (λ got. heavy_flags self.new ≡ slice_set (heavy_flags self.old) got.0 (agreement self.old).light) }
        ensures agreed { agreement self.new ≡ agreement self.old }
        ensures delta { width self.new ≡ width self.old }
    {
        if self.agreed.light {
            let place = self.take_light()?;
            Some((place, Share::Light))
        } else {
            let place = self.heavy.take()?;
            Some((place, Share::Heavy))
        }
    }

    fn takes(&self, share: Share, w: u32) -> bool {
        match share {
            Share::Light => w <= self.delta,
            Share::Heavy => w > self.delta,
            Share::All => true,
        }
    }

    fn vote(&mut self, sent: bool) -> Vote
        ensures form { IsBucketVote (bucket_list self.old) (heavy_flags self.old) sent result }
        ensures odd { (result.b % 2 ≡ 1) ↔ (sent ≡ true) }
        ensures none { result.a ≡ NONE → result.b < 2 → AreNone (pending_places self.old) }
        ensures c { result.c ≡ 0 }
        ensures d { result.d ≡ 0 }
        ensures rests { AreSame (pending_places self.old) (pending_places self.new) }
        ensures same_count { place_count self.new ≡ place_count self.old }
        ensures same_takes { (share : Share) (w : ℕ) → takes_by (width self.new) share w ≡ takes_by (width self.old) share w }
        ensures lowest { IsLowest (bucket_list self.old) result.a }
        ensures told { result.b ≡ (if sent then 1 else 0) + (if is_any (heavy_flags self.old) then 2 else 0) }
        ensures same_buckets { bucket_list self.new ≡ bucket_list self.old }
        ensures same_heavy { heavy_flags self.new ≡ heavy_flags self.old }
        ensures agreed { agreement self.new ≡ agreement self.old }
        ensures delta { width self.new ≡ width self.old }
    {
        let heavy = if self.heavy.is_empty() { 0 } else { 2 };
        Vote {
            a: self.light.least_bucket(),
            b: u64::from(sent) + heavy,
            c: 0,
            d: 0,
        }
    }

    fn begin(&mut self, votes: &[Vote])
        ensures begun { agreement self.new ≡ next_agreement votes.now (agreement self.old) }
        ensures rests { AreSame (pending_places self.old) (pending_places self.new) }
        ensures same_count { place_count self.new ≡ place_count self.old }
        ensures same_takes { (share : Share) (w : ℕ) → takes_by (width self.new) share w ≡ takes_by (width self.old) share w }
        ensures agreed { agreement self.new ≡ next_agreement votes.now (agreement self.old) }
        ensures same_buckets { bucket_list self.new ≡ bucket_list self.old }
        ensures same_heavy { heavy_flags self.new ≡ heavy_flags self.old }
        ensures delta { width self.new ≡ width self.old }
    {
        self.agreed = self.agreed.after(votes);
        self.light.show(self.agreed.bucket);
    }
}
