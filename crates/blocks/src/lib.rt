// The blocks of a file: a block's header, the chain of blocks, and the tail after the last block.
#![tactic(auto)]

pub mod again;
mod block;
pub mod chain;
pub mod step;
