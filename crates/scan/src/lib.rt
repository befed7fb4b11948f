// The leaf functions: tests on bytes, numbers in bytes and in digits, and lines. Every public function gives an answer
// for every input. The searches and the tests on bytes stop at the byte that decides, or after the block of bytes that
// holds it. Bytes and an offset in them are two parameters, here and in the crates above: the bytes never change, and an
// offset counts from the first byte of the file, as refusals and layouts do.
#![tactic(auto)]

mod find;
pub mod line;
pub mod number;
pub mod text;
