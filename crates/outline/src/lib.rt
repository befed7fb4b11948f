// Outlines: writing a row as sixteen bytes, reading it back, and reading stored outlines.
#![tactic(auto)]

pub mod row;
pub mod stored;
