//! What the tests of the libraries share: tables of cases, devices that fail, what finders are asked for, and texts.
#![tactic(auto)]

pub mod cases;
pub mod devices;
pub mod options;
pub mod texts;
