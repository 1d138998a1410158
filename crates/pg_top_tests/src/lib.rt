//! Tests of `pg_top`, over its public calls alone.
#![tactic(auto)]

#[cfg(test)]
mod colour_tests;
#[cfg(test)]
mod division_tests;
#[cfg(test)]
mod fault_tests;
#[cfg(test)]
mod forest_tests;
#[cfg(test)]
mod grid_tests;
#[cfg(test)]
mod name_tests;
#[cfg(test)]
mod running;
#[cfg(test)]
mod search_tests;
#[cfg(test)]
mod thread_tests;
#[cfg(test)]
mod word_tests;
