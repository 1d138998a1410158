//! Tests of `pg_metis`, over its public calls alone.
#![tactic(auto)]

#[cfg(test)]
mod batch_tests;
#[cfg(test)]
mod parts_tests;
#[cfg(test)]
mod tests;
