// What the walk along the blocks finds: after each block, and in the end.

// What follows at the end of a block, or where the first block may begin.
#[derive(Clone, Copy)]
pub enum Link {
    // A block, with the distance from its first byte to the end of its allocated space.
    Block(usize),
    // A block that reaches to the end of the file.
    Streamed,
    // No block: nothing is left, or only zero bytes.
    Zeros,
    // No block, but bytes that begin like an index.
    Index,
}

// What a walk along the chain found.
#[derive(Clone, Copy)]
pub struct ChainFound {
    // How many blocks the chain has.
    pub blocks: usize,
    // Where bytes that begin like an index follow the chain, if they do.
    pub tail: Option<usize>,
}
