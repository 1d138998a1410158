//! The lesser of two lists, entry by entry.

ghost use Rattle.std.specs.Prelude.{◌≡◌, length};
ghost use Rattle.pg_simd.specs.Kernels.{lesser};

use crate::LANES;
use std::simd::prelude::*;

/// Makes each entry of `into` the lesser of it and the entry of `from` in its place. Both lists have the same length.
pub fn min_into(into: &mut [u64], from: &[u64])
    requires { length into.old ≡ length from.now }
    ensures { into.new ≡ lesser into.old from.now }
{
    let mut at = 0;
    while into.len() - at >= LANES {
        let mine = u64x8::from_slice(&into[at..]);
        let theirs = u64x8::from_slice(&from[at..]);
        lesser_lanes(mine, theirs).copy_to_slice(&mut into[at..]);
        at += LANES;
    }
    min_into_plain(&mut into[at..], &from[at..]);
}

/// The lesser of two vectors, lane by lane.
#[inline(always)]
pub(crate) fn lesser_lanes(mine: u64x8, theirs: u64x8) -> u64x8
    ensures { result ≡ lesser mine theirs }
{
    mine.simd_min(theirs)
}

/// The same as `min_into`, one entry at a time.
fn min_into_plain(into: &mut [u64], from: &[u64])
    requires { length into.old ≡ length from.now }
    ensures { into.new ≡ lesser into.old from.now }
{
    for (place, mine) in into.iter_mut().enumerate() {
        *mine = from[place].min(*mine);
    }
}
