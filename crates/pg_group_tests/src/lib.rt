//! Tests of `pg_group`, over its public calls alone.
#![tactic(auto)]

#[cfg(test)]
mod tests;
