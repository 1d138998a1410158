//! The least entry of a list.

ghost use Rattle.std.specs.Prelude.{◌≡◌, ◌↔◌, [], IsNone, IfSome, min};
ghost use Rattle.std.specs.List.{fold};
ghost use Rattle.pg_simd.specs.Kernels.{IsLeast};

use crate::LANES;
use crate::lesser::lesser_lanes;
use std::simd::prelude::*;

/// The least entry of `list`. `None` exactly where the list is empty.
pub fn least(list: &[u64]) -> Option<u64>
    ensures none { IsNone result ↔ (list.now ≡ []) }
    ensures least { IfSome result (λ entry. IsLeast list.now entry) }
{
    if list.is_empty() {
        return None;
    }
    let mut lanes = u64x8::splat(u64::MAX);
    let mut at = 0;
    while list.len() - at >= LANES {
        lanes = lesser_lanes(lanes, u64x8::from_slice(&list[at..]));
        at += LANES;
    }
    let whole = least_plain(u64::MAX, &lanes.to_array());
    Some(least_plain(whole, &list[at..]))
}

/// The least of `bound` and the entries of `list`, one entry at a time.
fn least_plain(bound: u64, list: &[u64]) -> u64
    ensures { result ≡ fold min bound list.now }
{
    let mut least = bound;
    for entry in list {
        least = least.min(*entry);
    }
    least
}
