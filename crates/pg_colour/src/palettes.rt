//! Which colours are taken, by stamps: all of them are free again with the next stamp, and none is cleared.
//! Source: Gebremedhin, Manne and Pothen, What Color Is Your Jacobian?, SIAM Review 47 (2005), section 3 (the array of
//! forbidden colours).
ghost use Rattle.std.specs.Prelude.{◌≡◌, ◌≢◌, ◌⊎◌, ◌↔◌, ℕ, ◌<◌, ◌≤◌, All, IfOk, length};
ghost use Rattle.pg_simd.specs.Kernels.{IsFirstFree};
ghost use Rattle.pg_colour.specs.Palettes.{IsMarked};

use pg_simd::first_free;
use std::alloc::{AllocError, Global};

/// The colours from 0 up to a number of them, each taken or free.
#[derive(Drop)]
pub(crate) struct Palette {
    // The stamp at which each colour was last taken.
    pub(crate) stamps: Vec<u64>,
    // The stamp of the colours that are taken now.
    pub(crate) stamp: u64,
    ghost past: { All (λ s. s ≤ stamp) stamps.items },
}

impl Palette {
    /// A palette of `count` colours.
    pub(crate) fn new(alloc: Global, count: usize) -> Result<Palette, AllocError>
        ensures { IfOk result (λ palette. length palette.stamps.items ≡ count) }
    {
        Ok(Palette {
            stamps: vec![in alloc; 0; count]?,
            stamp: 0,
        })
    }

    /// Frees every colour.
    pub(crate) fn free_all(&mut self)
        ensures free { (colour : ℕ) → IsMarked self.new.stamps.items self.new.stamp colour → ⊥ }
        ensures count { length self.new.stamps.items ≡ length self.old.stamps.items }
    {
        if self.stamp == u64::MAX {
            self.stamps.fill(0);
            self.stamp = 0;
        }
        self.stamp += 1;
    }

    /// Takes the colour, if it is one of these.
    pub(crate) fn take(&mut self, colour: u64)
        ensures taken { (d : ℕ) → IsMarked self.new.stamps.items self.new.stamp d ↔ (((d ≡ colour) × (d < length self.old.stamps.items)) ⊎ IsMarked self.old.stamps.items self.old.stamp d) }
        ensures count { length self.new.stamps.items ≡ length self.old.stamps.items }
    {
        if let Some(stamp) = self.stamps.get_mut(colour as usize) {
            *stamp = self.stamp;
        }
    }

    /// The least colour that is free, or the number of colours where none is.
    pub(crate) fn least_free(&self) -> usize
        ensures { IsFirstFree self.now.stamps.items self.now.stamp result }
    {
        first_free(&self.stamps, self.stamp)
    }
}
