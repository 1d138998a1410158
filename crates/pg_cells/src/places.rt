//! The place of each own vertex, found in constant time.

ghost use Rattle.std.specs.Prelude.{◌≡◌, ◌≢◌, ℕ, ◌+◌, ◌-◌, ◌^◌, ◌<◌, ◌≤◌, All, Option, Some, None, IfOk, IfSome, length, slice_get};
ghost use Rattle.pg_cells.specs.Sparse.{AreFound};

use pg_adj::Part;
use pg_base::Vertex;
use std::alloc::{AllocError, Global};

/// Where each own vertex has its cell: a sparse set, which finds the place of a vertex in constant time.
///
/// Source: Briggs and Torczon, An efficient representation for sparse sets (ACM LOPLAS 2, 1993).
#[derive(Drop)]
pub struct Places {
    // The own vertices by place.
    pub vertices: Vec<u32>,
    // The vertex of the first entry of `sparse`.
    pub first: u32,
    // For each own vertex a place that holds it. What stands for any other vertex means nothing.
    pub sparse: Vec<u32>,
    ghost found: { AreFound vertices.items first sparse.items },
}

impl Places {
    /// The places of a part's own vertices.
    pub fn of_part(alloc: Global, part: &Part) -> Result<Places, AllocError>
        ensures { IfOk result (λ places. places.vertices.items ≡ part.now.vertices) }
    {
        let vertices = own_vertices(alloc, part)?;
        let first = least(&vertices);
        let last = greatest(&vertices);
        let mut sparse = vec![in alloc; 0; last.saturating_sub(first) as usize + 1]?;
        fill(first, &vertices, &mut sparse);
        Ok(Places {
            vertices,
            first,
            sparse,
        })
    }

    /// A place that holds `v`, if there is one.
    pub fn place(&self, v: Vertex) -> Option<u32>
        ensures found { IfSome result (λ place. slice_get self.now.vertices.items place ≡ Some v.0) }
        ensures none { result ≡ None → (place : ℕ) → slice_get self.now.vertices.items place ≢ Some v.0 }
    {
        let at = v.0.checked_sub(self.first)?;
        let place = *self.sparse.get(at as usize)?;
        (*self.vertices.get(place as usize)? == v.0).then_some(place)
    }
}

// The own vertices of a part, by place.
fn own_vertices(alloc: Global, part: &Part) -> Result<Vec<u32>, AllocError>
    ensures value { IfOk result (λ vertices. vertices.items ≡ part.now.vertices) }
    ensures count { length part.now.vertices < 2 ^ 32 }
{
    let mut vertices = Vec::with_capacity(alloc, part.count() as usize)?;
    for i in 0..part.count() {
        vertices.push(part.vertex(i).0)?;
    }
    Ok(vertices)
}

// The least number, 0 where there is none.
fn least(numbers: &[u32]) -> u32
    ensures { All (λ x. result ≤ x) numbers.now }
{
    numbers.iter().copied().min().unwrap_or(0)
}

// The greatest number, 0 where there is none.
fn greatest(numbers: &[u32]) -> u32
    ensures { All (λ x. x ≤ result) numbers.now }
{
    numbers.iter().copied().max().unwrap_or(0)
}

// Enters each place for its vertex.
fn fill(first: u32, vertices: &[u32], sparse: &mut [u32])
    requires first { All (λ v. first ≤ v) vertices.now }
    requires entries { All (λ v. v - first < length sparse.old) vertices.now }
    requires places { length vertices.now < 2 ^ 32 }
    ensures { AreFound vertices.now first sparse.new }
{
    for (place, v) in vertices.iter().enumerate() {
        sparse[(*v - first) as usize] = place as u32;
    }
}
