// A row of an outline: what sixteen bytes say about a block.
use crate::block::InnerKind;
use crate::offset::OutermostOffset;

// The fields of a row. `at` counts from the first byte of the outermost file.
#[derive(Clone, Copy)]
pub struct Row {
    pub depth: u8,
    pub streamed: bool,
    pub compressed: bool,
    // The checksum is not all zeros.
    pub checksum: bool,
    pub inner: InnerKind,
    pub ordinal: u8,
    pub header_size: u16,
    pub at: OutermostOffset,
    pub allocated: u64,
    pub used: u64,
}
