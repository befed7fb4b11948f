// What is answered beside the parts of a file. Everything that can be refused is a `Result` with the refusal.
use crate::layout::Layout;
use crate::refusal::Refusal;

// The answer for the outline of a file, together with the answer for its layout. The layout of an accepted file is there
// also if the buffer was too short for the outline, so one Result around both would say less.
#[derive(Clone, Copy)]
pub struct OutlinedAnswer {
    pub layout: Result<Layout, Refusal>,
    // How many bytes were written.
    pub written: Result<u64, Refusal>,
}

// What the data of a block says about the checksum in its header.
#[derive(Clone, Copy)]
pub enum Check {
    // The header states no checksum.
    NotStated,
    Agrees,
    Differs,
}
