//! The trait of all distributions: which rank owns a vertex, and at which place among its vertices.

ghost use Rattle.std.specs.Prelude.{◌≡◌, ◌<◌, ◌≤◌};
ghost use Rattle.pg_base.specs.declared.TheConstants.{MAX_VERTICES};
ghost use Rattle.pg_dist.specs.Sharing.{Sharing, IsSharing};

use pg_base::{RankNo, Ranks, Vertex};

/// A division of the vertices 1 to n among the ranks of a group. Each vertex has one owner, and a local
/// place among its owner's vertices, from 0; the vertices of a rank ascend with their places.
///
/// The laws hold of every distribution, and generic code may use them.
///
/// Source: Gregor and Lumsdaine, Lifting Sequential Graph Algorithms for Distributed-Memory Parallel Computation
/// (OOPSLA 2005): owners, and local and global descriptors.
pub trait Distribution {
    /// What the distribution says of all vertices and ranks.
    ghost sharing: { Self → Sharing };

    /// The number of vertices, which are 1 to n.
    fn n(&self) -> u32
        ensures value { result ≡ (sharing self.now).n }
        ensures within { result ≤ MAX_VERTICES };

    /// How many ranks the vertices are divided among.
    fn ranks(&self) -> Ranks
        ensures { result ≡ (sharing self.now).ranks };

    /// The rank that owns the vertex `v`.
    fn owner(&self, v: Vertex) -> RankNo
        requires first { 1 ≤ v.0 }
        requires last { v.0 ≤ (sharing self.now).n }
        ensures { result.0 ≡ (sharing self.now).owner v.0 };

    /// The place of the vertex `v` among its owner's vertices, from 0.
    fn local(&self, v: Vertex) -> u32
        requires first { 1 ≤ v.0 }
        requires last { v.0 ≤ (sharing self.now).n }
        ensures { result ≡ (sharing self.now).local v.0 };

    /// How many vertices the rank `r` owns.
    fn count(&self, r: RankNo) -> u32
        requires { r.0 < (sharing self.now).ranks }
        ensures { result ≡ (sharing self.now).count r.0 };

    /// The vertex of the rank `r` at the place `i`, from 0.
    fn global(&self, r: RankNo, i: u32) -> Vertex
        requires rank { r.0 < (sharing self.now).ranks }
        requires place { i < (sharing self.now).count r.0 }
        ensures { result.0 ≡ (sharing self.now).global r.0 i };

    /// Each vertex has one owner and one place there, each place holds one vertex, and the vertices of a rank ascend.
    ghost laws: { (d : Self) → IsSharing (sharing d) };
}
