// MD5 by RFC 1321, of bytes that come in parts.
#![tactic(auto)]

mod blocks;
mod padding;
mod rounds;
pub mod state;
pub mod words;
