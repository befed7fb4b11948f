// The front of a file, which comes before its blocks: the header, the comments and the tree. It also tests whether a
// text is exactly one tree.
#![tactic(auto)]

pub mod comments;
pub mod header;
pub mod tree;
