//! How vertices are divided among ranks in a measurement.
ghost use Rattle.std.specs.Prelude.{◌≡◌, ◌<◌, All, IfOk, vec_len};

use pg_base::Ranks;
use std::alloc::{AllocError, Global};

/// How the vertices are given to the ranks.
#[derive(Clone, Copy, Debug, PartialEq, Eq)]
pub enum Layout {
    /// In blocks.
    Block,
    /// Each vertex to a rank that is drawn for it.
    Random,
}

impl Layout {
    /// The layout of the name `block` or `random`. `None` for all others.
    pub fn named(name: &str) -> Option<Layout> {
        match name {
            "block" => Some(Layout::Block),
            "random" => Some(Layout::Random),
            _ => None,
        }
    }
}

/// An owner for each of `n` vertices, drawn by the linear congruential generator of Knuth's MMIX (The Art of
/// Computer Programming, volume 2, section 3.3.4).
pub fn random_owners(alloc: Global, n: u32, ranks: Ranks) -> Result<Vec<u32>, AllocError>
    ensures each { IfOk result (λ owners. vec_len owners ≡ n) }
    ensures ranks { IfOk result (λ owners. All (λ owner. owner < ranks) owners.items) }
{
    let mut state = 1u64;
    let mut owners = Vec::with_capacity(alloc, n as usize)?;
    for _ in 0..n {
        state = state
            .wrapping_mul(6_364_136_223_846_793_005)
            .wrapping_add(1_442_695_040_888_963_407);
        owners.push((state >> 33) as u32 % ranks.count())?;
    }
    Ok(owners)
}
