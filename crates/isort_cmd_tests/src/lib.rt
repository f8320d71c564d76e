//! Tests of isort_cmd, by its public calls. They stand in a crate of their own, since a crate with tests is proved twice, and so
//! that the tests of the other libraries need not wait for isort_cmd. `test_harness` tries them.
#![tactic(auto)]

#[cfg(test)]
mod command_line;
#[cfg(test)]
mod failures;
#[cfg(test)]
mod listing;
#[cfg(test)]
mod messages;
#[cfg(test)]
mod report;
#[cfg(test)]
mod sorting;
