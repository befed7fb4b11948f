// One file by itself: its layout, its blocks one by one, and the index that is written for it.
#![tactic(auto)]

pub mod index_writer;
pub mod layout;
pub mod open;
