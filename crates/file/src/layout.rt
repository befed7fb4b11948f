// Reads the layout of a file, from front to back.
ghost use Rattle.std.specs.Prelude.{◌≡◌, ◌≤◌, length, take, drop, replicate, MatchResult};
ghost use Rattle.format.specs.File.{file, offset_table, layout, block_at, first_block, goes_on};
ghost use Rattle.format.specs.Chain.{most_blocks};
ghost use Rattle.format.specs.Outcome.{accepted, refused};
ghost use Rattle.file.specs.Layout.{layout_with, chain_verdict, ChainInside, Judged, Kept};

use crate::open::OpenFile;
use blocks::step::ChainFound;
use blocks::{again, chain};
use format::block::Block;
use format::layout::{Header, Layout, Tree, Verdict};
use format::limits::{MOST_BLOCKS, MOST_BYTES};
use format::offset::Offset;
use format::refusal::{Reason, Refusal};
use front::{comments, header, tree};

// Returns the layout of a file, or its refusal.
pub fn read(s: &[u8]) -> Result<Layout, Refusal>
    ensures { result ≡ layout s.now }
{
    let mut offsets = [0u64; MOST_BLOCKS];
    judge(s, &mut offsets)
}

// Does the same, and keeps where the blocks begin. The offsets of an accepted file come first in the table, and the
// rest of the table stays as it was. A refused file leaves only zeros, so that nothing that was kept before the refusal
// is passed on. The table is the caller's, since there is no heap.
pub fn read_into(s: &[u8], offsets: &mut [u64; MOST_BLOCKS]) -> Result<Layout, Refusal>
    ensures answer { result ≡ layout s.now }
    ensures table { offsets.new ≡ offset_table offsets.old (file s.now) }
{
    let layout = judge(s, offsets);
    if layout.is_err() {
        *offsets = [0u64; MOST_BLOCKS];
    }
    layout
}

// Reads a file and opens it: its blocks can then be found without reading it again. The table keeps where they begin.
pub fn open<'a>(
    s: &'a [u8],
    table: &'a mut [u64; MOST_BLOCKS],
) -> Result<(Layout, OpenFile<'a>), Refusal>
    ensures { MatchResult result (λ p. (layout s.now ≡ accepted p.0) × (p.1.bytes.now ≡ s.now)) (λ r. layout s.now ≡ refused r) }
{
    let layout = read_into(s, table)?;
    Ok((layout, open_kept(s, table, layout.blocks)))
}

// Opens an accepted file with this many blocks, which begin at the first offsets of the table. It has a condition, so it
// can't be public, and the walk has a function like it.
fn open_kept<'a>(s: &'a [u8], table: &'a [u64], blocks: u8) -> OpenFile<'a>
    requires { Kept s.now table.now blocks }
    ensures { result.bytes.now ≡ s.now }
{
    OpenFile {
        bytes: s,
        offsets: &table[..blocks as usize],
    }
}

// Returns block `ordinal` of the file, nothing if there is none, or the file's refusal.
pub fn block(s: &[u8], ordinal: u64) -> Result<Option<Block>, Refusal>
    ensures { result ≡ block_at s.now ordinal }
{
    let mut table = [0u64; MOST_BLOCKS];
    let (_, file) = open(s, &mut table)?;
    Ok(block_of(file, ordinal))
}

// Returns the block with this ordinal of an open file.
fn block_of(file: OpenFile<'_>, ordinal: u64) -> Option<Block>
    ensures { accepted result ≡ block_at file.entry.bytes.now ordinal }
{
    if file.offsets.len() as u64 <= ordinal {
        return None;
    }
    let at = file.offsets[ordinal as usize] as usize;
    Some(again::block_of(&file.bytes[at..], ordinal as u8, at))
}

// Judges a file. If it is accepted, the offsets of its blocks come first in the table.
fn judge(s: &[u8], offsets: &mut [u64; MOST_BLOCKS]) -> Result<Layout, Refusal>
    ensures { Judged (file s.now) offsets.old offsets.new result }
{
    if MOST_BYTES < s.len() {
        return Err(Refusal::new(Reason::FileTooLong, 0));
    }
    let header = header::read_header(s)?;
    let comments_end = comments::comments_end(s, header.end.0 as usize)?;
    let tree = tree::read_tree(s, comments_end)?;
    if !goes_on(s, tree, comments_end) {
        return Err(Refusal::new(Reason::NeitherTreeNorBlock, comments_end));
    }
    let first = first_block(comments_end, tree);
    let chain = chain::walk(s, first, offsets)?;
    let verdict = chain_verdict(s, offsets, chain);
    Ok(layout_with(header, comments_end, tree, chain.blocks, verdict))
}

// Whether the file may go on at offset `at`, where its comments end: with this tree, at its end, or with a block.
fn goes_on(s: &[u8], tree: Option<Tree>, at: usize) -> bool
    ensures { result ≡ goes_on tree (drop at s.now) }
{
    if tree.is_some() {
        return true;
    }
    if s.len() <= at {
        return true;
    }
    mark::is_mark(s, at)
}

// Returns where the first block begins, if there is one: after the tree's room or, without a tree, where the comments
// end.
fn first_block(comments_end: usize, tree: Option<Tree>) -> usize
    ensures { result ≡ first_block comments_end tree }
{
    match tree {
        None => comments_end,
        Some(t) => t.room_end.0 as usize,
    }
}

// Returns the verdict on what follows the chain.
fn chain_verdict(s: &[u8], offsets: &[u64; MOST_BLOCKS], chain: ChainFound) -> Verdict
    requires { ChainInside s.now offsets.now chain }
    ensures { result ≡ chain_verdict s.now offsets.now chain }
{
    match chain.tail {
        None => Verdict::Absent,
        Some(tail) => index::verdict::judge(&s[tail..], &offsets[..chain.blocks]),
    }
}

fn layout_with(h: Header, n: usize, t: Option<Tree>, blocks: usize, v: Verdict) -> Layout
    requires { blocks ≤ most_blocks }
    ensures { result ≡ layout_with h n t blocks v }
{
    Layout {
        header: h,
        comments_end: Offset(n as u64),
        tree: t,
        blocks: blocks as u8,
        verdict: v,
    }
}
