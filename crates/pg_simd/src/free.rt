//! The first place of a list that isn't stamped: in first fit the least colour that no neighbour has, where the
//! neighbours' colours were stamped before.
//! Source: Gebremedhin, Manne and Pothen, What Color Is Your Jacobian?, SIAM Review 47 (2005), section 3 (the array of
//! forbidden colours).

ghost use Rattle.std.specs.Prelude.{◌≡◌, ◌+◌, ◌≤◌, ◌==◌, length};
ghost use Rattle.std.specs.List.{list_all, prefix_len};
ghost use Rattle.std.specs.Simd.Lanes.{chunk};
ghost use Rattle.pg_simd.specs.Kernels.{IsFirstFree};

use crate::LANES;
use std::simd::prelude::*;

/// The least place of `used`, from 0, whose entry isn't `stamp`, or the length of `used` where each entry is. Reads no
/// entry past the eight in which that place lies.
pub fn first_free(used: &[u64], stamp: u64) -> usize
    ensures { IsFirstFree used.now stamp result }
{
    let mut at = 0;
    while used.len() - at >= LANES && all_stamped(used, at, stamp) {
        at += LANES;
    }
    at + first_free_plain(&used[at..], stamp)
}

/// Whether the eight entries from `at` on are all `stamp`.
#[inline(always)]
fn all_stamped(used: &[u64], at: usize, stamp: u64) -> bool
    requires { at + LANES ≤ length used.now }
    ensures { result ≡ list_all (λ entry. entry == stamp) (chunk at LANES used.now) }
{
    let lanes = u64x8::from_slice(&used[at..]);
    lanes.simd_ne(u64x8::splat(stamp)).to_bitmask() == 0
}

/// The same as `first_free`, one entry at a time.
fn first_free_plain(used: &[u64], stamp: u64) -> usize
    ensures { result ≡ prefix_len (λ entry. entry == stamp) used.now }
{
    for (place, entry) in used.iter().enumerate() {
        if *entry != stamp {
            return place;
        }
    }
    used.len()
}
