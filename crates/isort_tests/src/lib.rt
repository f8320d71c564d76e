//! Tests of the libraries below isort_cmd, each by its public calls. They stand in a crate of their own, since a crate with tests
//! is proved twice. Each library has a folder; `test_harness` tries them.
#![tactic(auto)]

#[cfg(test)]
mod errors;
#[cfg(test)]
mod find;
#[cfg(test)]
mod imports;
#[cfg(test)]
mod lines;
#[cfg(test)]
mod own_sections;
#[cfg(test)]
mod settings;
#[cfg(test)]
mod sort;
#[cfg(test)]
mod told;
