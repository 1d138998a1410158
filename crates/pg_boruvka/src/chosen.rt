//! The chosen edges, as a mark for each edge.
ghost use Rattle.std.specs.Prelude.{◌≡◌, ℕ, ◌^◌, ◌<◌, ◌≤◌, All, IfOk, length};
ghost use Rattle.pg_base.specs.declared.TheConstants.{MAX_EDGES};
ghost use Rattle.pg_boruvka.specs.Noted.{IsEdgeOrNone};
ghost use Rattle.pg_boruvka.specs.Chosen.{marked, AreMarked};

use crate::hooks::NO_EDGE;
use std::alloc::{AllocError, Global};

/// Marks the edge of each hook.
pub(crate) fn mark(chosen: &mut [bool], edges: &[u32])
    requires few { length chosen.old ≤ MAX_EDGES }
    requires within { All (IsEdgeOrNone (length chosen.old)) edges.now }
    ensures marked { AreMarked edges.now chosen.old chosen.new }
    ensures same_count { length chosen.new ≡ length chosen.old }
{
    for edge in edges {
        if *edge != NO_EDGE {
            chosen[*edge as usize] = true;
        }
    }
}

/// The indices that are marked, ascending. Takes 4 bytes each.
pub(crate) fn list(alloc: Global, chosen: &[bool]) -> Result<Vec<u32>, AllocError>
    requires { length chosen.now ≤ MAX_EDGES }
    ensures { IfOk result (λ list. list.items ≡ marked chosen.now) }
{
    let count = chosen.iter().filter(|is| **is).count();
    let mut list = Vec::with_capacity(alloc, count)?;
    for (index, is) in chosen.iter().enumerate() {
        if *is {
            list.push(index as u32)?;
        }
    }
    Ok(list)
}
