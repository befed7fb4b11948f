// One block of a walk: what its content is, and what is put for it.
#![tactic(auto)]

pub mod content;
pub mod sink;
