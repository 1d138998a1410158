//! The grid itself, vertex by vertex.

ghost use Rattle.std.specs.Prelude.{◌≡◌, ◌*◌, ◌≤◌, All, IfOk};
ghost use Rattle.pg_base.specs.Graph.{IsGraph};
ghost use Rattle.pg_base.specs.declared.TheConstants.{MAX_VERTICES};
ghost use Rattle.pg_make.specs.Grid.{grid_of};
ghost use Rattle.pg_make.specs.declared.TheConstants.{MAX_GRID_WEIGHT};

use crate::drawing::Drawing;
use pg_base::{EdgeList, OutOfMemory};
use std::alloc::Global;

/// The grid of `width` columns and `height` rows whose edges and weights are drawn from `seed`. The vertex in column x
/// and row y, both from 0, is `y * width + x + 1`. Takes time linear in the number of vertices, and allocates once, at
/// the beginning; `OutOfMemory` comes only where that is refused.
pub fn grid(alloc: Global, width: u32, height: u32, seed: u32) -> Result<EdgeList, OutOfMemory>
    requires width { 1 ≤ width }
    requires height { 1 ≤ height }
    requires size { width * height ≤ MAX_VERTICES }
    ensures value { IfOk result (λ g. g ≡ grid_of width height seed) }
    ensures graph { IfOk result (λ g. IsGraph g) }
    ensures weights { IfOk result (λ g. All (λ e. e.w ≤ MAX_GRID_WEIGHT) g.edges) }
{
    let count = width * height;
    let Ok(edges) = Vec::with_capacity(alloc, 2 * count as usize) else {
        return Err(OutOfMemory);
    };
    let mut drawing = Drawing::from_seed(seed, edges);
    for passed in 0..count {
        drawing.draw_neighbours(width, height, passed % width, passed / width);
    }
    Ok(EdgeList::new(count, drawing.edges))
}
