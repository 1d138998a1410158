//! The laws of colouring by passes over several ranks: each rank colours its own vertices by first fit with what it
//! knows of its ghosts, looks for clashes with other ranks' vertices, and colours the greater end of each anew. Such a
//! run ends, with a proper colouring. The definitions of proper colourings and of first fit stand in `pg_base`.
//! Source: Boman, Bozdağ, Catalyurek, Gebremedhin and Manne, A scalable parallel graph coloring algorithm for
//! distributed memory computers (Euro-Par 2005).
#![tactic(auto)]

pub mod laws;
