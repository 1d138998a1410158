//! Tests of `pg_agenda`, over its public calls alone.
#![tactic(auto)]

#[cfg(test)]
mod tests;
