//! How many edges a forest has, and how many colours a colouring.
ghost use Rattle.std.specs.Prelude.{◌≡◌, ◌≤◌, ℕ, All, IfOk, Some, length, slice_get};
ghost use Rattle.pg_boruvka.specs.Known.{edges_in};
ghost use Rattle.pg_bench.specs.Coloured.{HasColoursBelow, IsLeast};

use crate::counted::Counted;
use pg_base::OutOfMemory;
use pg_boruvka::Dense;
use pg_colour::Colouring;
use std::alloc::Global;

/// How many edges the first program has chosen. All have the same when they have ended.
pub fn edge_count(alloc: Global, programs: &[Counted<Dense>]) -> Result<u64, OutOfMemory>
    requires { 1 ≤ length programs.now }
    ensures { IfOk result (λ count. (first : Counted Dense) → slice_get programs.now 0 ≡ Some first → count ≡ length (edges_in first.program)) }
{
    let edges = programs[0].program.edges(alloc)?;
    Ok(edges.len() as u64)
}

/// How many colours there are, from 0 to the greatest that a vertex has; 0 where no vertex has one.
pub fn colour_count(programs: &[Counted<Colouring>]) -> u64
    ensures { IsLeast (λ bound. All (λ p. HasColoursBelow bound p.program) programs.now) result }
{
    let mut count = 0;
    for program in programs {
        count = count.max(colours_of(&program.program));
    }
    count
}

// How many colours a rank has, from 0 to the greatest of one of its vertices.
fn colours_of(colouring: &Colouring) -> u64
    ensures { IsLeast (λ bound. HasColoursBelow bound colouring.now) result }
{
    let mut count = 0;
    for place in 0..colouring.count() {
        if let Some(colour) = colouring.colour(place) {
            count = count.max(u64::from(colour) + 1);
        }
    }
    count
}
