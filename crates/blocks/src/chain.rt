// The chain of blocks, with unallocated space between them, and the tail after the last block.
ghost use Rattle.std.specs.Prelude.{◌≤◌, ◌<◌, ◌≡◌, length, drop, set};
ghost use Rattle.format.specs.Bytes.{begins};
ghost use Rattle.format.specs.Comments.{index_line};
ghost use Rattle.format.specs.Chain.{chain, most_blocks};
ghost use Rattle.blocks.specs.Chain.{Follows, NextMark, LinkIs, Walked, WalkedInside};

use crate::block;
use crate::step::{ChainFound, Link};
use format::limits::MOST_BLOCKS;
use format::refusal::{Reason, Refusal};
use scan::text;

// Walks the blocks from offset `first` on. The front of the table is filled with the offsets at which they begin, and
// the rest of the table stays as it was. A refused chain leaves only zeros in the table: what the walk kept before the
// refusal is not passed on. The answer counts the blocks, and the table is the caller's, since there is no heap.
pub fn walk(s: &[u8], first: usize, offsets: &mut [u64; MOST_BLOCKS]) -> Result<ChainFound, Refusal>
    ensures { Walked s.now (chain most_blocks 0 first (drop first s.now)) offsets.old offsets.new result }
{
    if s.len() < first {
        return Ok(ChainFound {
            blocks: 0,
            tail: None,
        });
    }
    let walked = walk_inside(s, first, offsets);
    if walked.is_err() {
        *offsets = [0u64; MOST_BLOCKS];
    }
    walked
}

// Does the same from an offset inside the file. A refused chain leaves what was kept before the refusal. The loop goes
// on by itself: where the next block begins is known only after this one is read, so there is nothing that a `for` could
// go along. The label names it for its proof.
fn walk_inside(
    s: &[u8],
    first: usize,
    offsets: &mut [u64; MOST_BLOCKS],
) -> Result<ChainFound, Refusal>
    requires { first ≤ length s.now }
    ensures { WalkedInside s.now (chain most_blocks 0 first (drop first s.now)) offsets.old offsets.new result }
{
    let mut at = first;
    let mut i: usize = 0;
    'chain: loop {
        let next = next_mark(s, at);
        match link(s, at, next, i)? {
            Link::Zeros => {
                return Ok(ChainFound {
                    blocks: i,
                    tail: None,
                });
            }
            Link::Index => {
                return Ok(ChainFound {
                    blocks: i,
                    tail: Some(at),
                });
            }
            Link::Streamed => {
                keep(offsets, i, next);
                return Ok(ChainFound {
                    blocks: i + 1,
                    tail: None,
                });
            }
            Link::Block(extent) => {
                keep(offsets, i, next);
                i += 1;
                at = next + extent;
            }
        }
    }
}

// Keeps where block `i` begins.
fn keep(offsets: &mut [u64], i: usize, at: usize)
    requires { i < length offsets.old }
    ensures { offsets.new ≡ set offsets.old i at }
{
    offsets[i] = at as u64;
}

// Returns where the next block from offset `at` on begins, or the end of the file if none follows. Blocks mostly follow
// immediately, and no index can begin where a mark is, so the mark is tried first. Nothing after the beginning of an
// index is searched. The end stands for none, as in `mark::find`. This takes an offset and not the rest of the bytes,
// since what it calls does, and its answer is an offset.
fn next_mark(s: &[u8], at: usize) -> usize
    requires { at ≤ length s.now }
    ensures { NextMark s.now at result }
{
    if mark::is_mark(s, at) {
        return at;
    }
    if is_index(s, at) {
        return s.len();
    }
    mark::find(s, at)
}

// Whether an index begins at offset `at`. Its first line decides, whatever comes after it.
fn is_index(s: &[u8], at: usize) -> bool
    ensures { result ≡ begins index_line (drop at s.now) }
{
    text::begins_at(s, at, b"#ASDF BLOCK INDEX")
}

// Returns what follows from offset `at` on. If `next` is before the end of the file, it is a mark, and block `i`
// follows there, if a further block is allowed. Otherwise the tail follows.
fn link(s: &[u8], at: usize, next: usize, i: usize) -> Result<Link, Refusal>
    requires { (at ≤ length s.now) × NextMark s.now at next }
    ensures { LinkIs s.now i at next result }
{
    if next < s.len() {
        return link_at_mark(s, at, next, i);
    }
    if is_index(s, at) {
        return Ok(Link::Index);
    }
    if text::only_zeros(&s[at..]) {
        return Ok(Link::Zeros);
    }
    Err(Refusal::new(Reason::StrayTail, at))
}

// Returns the same if a block follows at the mark `next`.
fn link_at_mark(s: &[u8], at: usize, next: usize, i: usize) -> Result<Link, Refusal>
    requires { Follows s.now at next }
    ensures { LinkIs s.now i at next result }
{
    if MOST_BLOCKS <= i {
        return Err(Refusal::new(Reason::TooManyBlocks, next));
    }
    let t = &s[next..];
    match block::check(t) {
        Err(reason) => Err(Refusal::new(reason, next)),
        Ok(()) => Ok(block::sound_link(t)),
    }
}
