//! Tests of `pg_adj`, over its public calls alone.
#![tactic(auto)]

#[cfg(test)]
mod tests;
