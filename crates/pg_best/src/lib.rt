//! The law of relaxation: a run of ranks that each keep a local relation over what they handled and sent ends, in
//! whatever order its messages came, with the least value over walks at every vertex.
//! Source: Gregor and Lumsdaine, Lifting sequential graph algorithms for distributed-memory parallel computation
//! (OOPSLA 2005), section 4; the induction along walks is that of Dijkstra and of Bellman and Ford.
#![tactic(auto)]

pub mod laws;
mod offers;

pub use offers::Offer;
