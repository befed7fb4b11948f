// Reads again the header of a block that was judged before. Nothing is judged here, and every input gets an answer:
// bytes that are too short for a header give zeros, and content that is not inside the bytes is empty. The definitions
// in specs/Again.antt say the same, and none of these functions can fail, so none returns an Option.
ghost use Rattle.std.specs.Prelude.{◌≤◌, ◌≡◌, length};
ghost use Rattle.format.specs.Block.{least_block, bytes_left};
ghost use Rattle.blocks.specs.Again.{reported, block_again, summary_again, streamed_again, content_again, no_content};

use crate::block::field;
use format::block::{Block, has_checksum, is_compressed};
use format::limits::LEAST_BLOCK;
use format::offset::Offset;

// What a row shows of a block.
#[derive(Clone, Copy)]
pub struct Summary {
    pub header_size: u16,
    pub streamed: bool,
    pub compressed: bool,
    pub checksum: bool,
    pub allocated: u64,
    pub used: u64,
}

// Where a block's content is, counted from the block's first byte, and whether it is compressed. Content that is not
// inside the bytes is an empty range.
#[derive(Clone, Copy)]
pub struct Content {
    pub from: usize,
    pub to: usize,
    pub compressed: bool,
}

// Reads the block that `t` begins with. It has this ordinal and begins at offset `at` of its file; `t` reaches to the
// end of that file.
pub fn block_of(t: &[u8], ordinal: u8, at: usize) -> Block
    ensures { result ≡ block_again ordinal at t.now }
{
    if t.len() < LEAST_BLOCK {
        return Block {
            ordinal,
            at: Offset(at as u64),
            header_size: 0,
            flags: 0,
            compression: 0,
            allocated: 0,
            used: 0,
            data_size: 0,
            checksum_high: 0,
            checksum_low: 0,
        };
    }
    Block {
        ordinal,
        at: Offset(at as u64),
        header_size: field(t, 4, 6) as u16,
        flags: field(t, 6, 10) as u32,
        compression: field(t, 10, 14) as u32,
        allocated: size(t, field(t, 14, 22)),
        used: size(t, field(t, 22, 30)),
        data_size: size(t, field(t, 30, 38)),
        checksum_high: field(t, 38, 46),
        checksum_low: field(t, 46, 54),
    }
}

// Reads the summary of the block that `t` begins with.
pub fn summary_of(t: &[u8]) -> Summary
    ensures { result ≡ summary_again t.now }
{
    if t.len() < LEAST_BLOCK {
        return Summary {
            header_size: 0,
            streamed: false,
            compressed: false,
            checksum: false,
            allocated: 0,
            used: 0,
        };
    }
    Summary {
        header_size: field(t, 4, 6) as u16,
        streamed: field(t, 6, 10) % 2 == 1,
        compressed: is_compressed(field(t, 10, 14)),
        checksum: has_checksum(field(t, 38, 46), field(t, 46, 54)),
        allocated: size(t, field(t, 14, 22)),
        used: size(t, field(t, 22, 30)),
    }
}

// Whether the block that `t` begins with is streamed.
pub fn is_streamed(t: &[u8]) -> bool
    ensures { result ≡ streamed_again t.now }
{
    if t.len() < LEAST_BLOCK {
        return false;
    }
    field(t, 6, 10) % 2 == 1
}

// Reads where the content of the block that `t` begins with is.
pub fn content_of(t: &[u8]) -> Content
    ensures { result ≡ content_again t.now }
{
    if t.len() < LEAST_BLOCK {
        return no_content();
    }
    let from = 6 + field(t, 4, 6) as usize;
    if t.len() < from {
        return no_content();
    }
    let used = size(t, field(t, 22, 30));
    if ((t.len() - from) as u64) < used {
        return no_content();
    }
    Content {
        from,
        to: from + used as usize,
        compressed: is_compressed(field(t, 10, 14)),
    }
}

// Returns the answer for content that is not inside the bytes: an empty range that counts as compressed.
fn no_content() -> Content
    ensures { result ≡ no_content }
{
    Content {
        from: 0,
        to: 0,
        compressed: true,
    }
}

// Returns a size as it is reported. For a streamed block every size is the length of its content.
fn size(t: &[u8], stored: u64) -> u64
    requires { least_block ≤ length t.now }
    ensures { result ≡ reported t.now stored }
{
    if field(t, 6, 10) % 2 == 1 {
        return bytes_left(t);
    }
    stored
}

// Returns how many bytes follow the header.
fn bytes_left(t: &[u8]) -> u64
    requires { least_block ≤ length t.now }
    ensures { result ≡ bytes_left t.now }
{
    let content = 6 + field(t, 4, 6) as usize;
    if t.len() < content {
        return 0;
    }
    (t.len() - content) as u64
}
