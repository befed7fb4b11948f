// The block index: the verdict on an index, and the text of one. Of the blocks, only the offsets are needed.
#![tactic(auto)]

mod dashes;
mod form;
mod list;
mod spaces;
pub mod text;
pub mod verdict;
