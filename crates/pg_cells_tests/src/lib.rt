//! Tests of `pg_cells`, over its public calls alone.
#![tactic(auto)]

#[cfg(test)]
mod tests;
