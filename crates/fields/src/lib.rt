// The lists of numbers in which a file, a block and a row are reported.
#![tactic(auto)]

ghost use Rattle.std.specs.Prelude.{◌≡◌};
ghost use Rattle.format.specs.Fields.{block_fields, layout_fields, line_end_number, record_fields, refusal_fields, row_fields, tree_fields, verdict_number};

use format::block::{Block, Inner, Record};
use format::layout::{Layout, Tree, Verdict};
use format::line::LineEnd;
use format::row::Row;

// Returns the numbers of a layout: the version, the end of the header, the end of the comments, the tree, the number of
// blocks, the verdict and the header's line end.
pub fn layout_fields(l: Layout) -> [u64; 12]
    ensures { result ≡ layout_fields l }
{
    let header = l.header;
    let version = header.version;
    let [found, start, end, room_end] = tree_fields(l.tree);
    [
        version.major as u64,
        version.minor as u64,
        version.patch as u64,
        header.end.0,
        l.comments_end.0,
        found,
        start,
        end,
        room_end,
        l.blocks as u64,
        verdict_number(l.verdict),
        line_end_number(header.line_end),
    ]
}

// Returns whether there is a tree, its start, its end and the end of its room. C gets these numbers, and zeros for no
// tree.
fn tree_fields(tree: Option<Tree>) -> [u64; 4]
    ensures { result ≡ tree_fields tree }
{
    match tree {
        None => [0, 0, 0, 0],
        Some(t) => [1, t.start.0, t.end.0, t.room_end.0],
    }
}

// Returns the number of a verdict on the block index. It is a function because of its promise: `as` has none.
fn verdict_number(v: Verdict) -> u64
    ensures { result ≡ verdict_number v }
{
    v as u64
}

// Returns the number of the header's line end, by a function for the same reason.
fn line_end_number(e: LineEnd) -> u64
    ensures { result ≡ line_end_number e }
{
    e as u64
}

// Returns the numbers of a block: its ordinal, offset, header size, flags, compression, sizes and checksum.
pub fn block_fields(b: Block) -> [u64; 10]
    ensures { result ≡ block_fields b }
{
    [
        b.ordinal as u64,
        b.at.0,
        b.header_size as u64,
        b.flags as u64,
        b.compression as u64,
        b.allocated,
        b.used,
        b.data_size,
        b.checksum_high,
        b.checksum_low,
    ]
}

// Returns the number and the place of an inner file's refusal. C gets these numbers, and zeros for none.
fn refusal_fields(inner: Inner) -> [u64; 2]
    ensures { result ≡ refusal_fields inner }
{
    match inner {
        Inner::Refused(r) => [r.reason.number() as u64, r.place.0],
        Inner::Plain | Inner::Opened | Inner::TooDeep => [0, 0],
    }
}

// Returns the numbers of a record: its depth, its offset in the outermost file, the inner state with its refusal, and
// the block. The numbers of an array are named to be put into another, since no method joins two arrays.
pub fn record_fields(r: Record) -> [u64; 15]
    ensures { result ≡ record_fields r }
{
    let [reason, place] = refusal_fields(r.inner);
    let [
        ordinal,
        at,
        header_size,
        flags,
        compression,
        allocated,
        used,
        data_size,
        high,
        low,
    ] = block_fields(r.block);
    [
        r.depth as u64,
        r.at.number(),
        r.inner.kind().number() as u64,
        reason,
        place,
        ordinal,
        at,
        header_size,
        flags,
        compression,
        allocated,
        used,
        data_size,
        high,
        low,
    ]
}

// Returns the numbers of a row: its depth, ordinal, offset, header size, allocated and used size, flags and inner
// state.
pub fn row_fields(r: Row) -> [u64; 10]
    ensures { result ≡ row_fields r }
{
    [
        r.depth as u64,
        r.ordinal as u64,
        r.at.number(),
        r.header_size as u64,
        r.allocated,
        r.used,
        u64::from(r.streamed),
        u64::from(r.compressed),
        u64::from(r.checksum),
        r.inner.number() as u64,
    ]
}
