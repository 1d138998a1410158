//! Tests of `pg_run`, over its public calls alone.
#![tactic(auto)]

#[cfg(test)]
mod counting_tests;
#[cfg(test)]
mod gate_tests;
#[cfg(test)]
mod ring_tests;
#[cfg(test)]
mod tests;
#[cfg(test)]
mod thread_tests;
