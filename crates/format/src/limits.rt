// The limits of the format and the sizes of what is written, each under one name. The definitions in specs/ use the
// same names.

// The length of the longest file, in bytes.
pub const MOST_BYTES: usize = 4294967295;

// The highest number of blocks in a file.
pub const MOST_BLOCKS: usize = 64;

// The highest depth at which a file is read. The outermost file has depth 0.
pub const DEEPEST: u8 = 7;

// The smallest header size of a block.
pub const LEAST_HEADER: u64 = 48;

// How many bytes a row of an outline takes.
pub const ROW_BYTES: usize = 16;

// How many bytes a record takes.
pub const RECORD_BYTES: usize = 120;

// The smallest number of bytes in a block: the smallest header and what comes before it.
pub const LEAST_BLOCK: usize = 54;

// How many bytes the numbers of a stored row take.
pub const STORED_ROW_BYTES: usize = 80;
