//! Tests of `pg_words`, over its public calls alone.
#![tactic(auto)]

#[cfg(test)]
mod tests;
