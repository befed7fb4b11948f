// The walk. The reader of a block's content and the walker along the blocks call each other. Every file is judged once,
// when it is opened. From then on the walk follows the offsets that were kept when it was judged. What is wanted of the
// blocks, the number of the next one and the buffer are three parameters and no struct: the buffer is lent again at each
// call, and each promise is about its bytes before and after one call.
ghost use Rattle.std.specs.Prelude.{◌+◌, ◌≤◌, ◌≡◌, length};
ghost use Rattle.format.specs.Block.{Sound};
ghost use Rattle.format.specs.File.{most_bytes};
ghost use Rattle.format.specs.Nest.{deepest};
ghost use Rattle.file.specs.Layout.{Kept};
ghost use Rattle.visit.specs.Content.{file_records};
ghost use Rattle.visit.specs.Sink.{Delivered};
ghost use Rattle.nest.specs.Walk.{reached_records, all_records};

use blocks::again;
use file::open::OpenFile;
use format::limits::MOST_BLOCKS;
use format::offset::{Offset, OutermostOffset};
use visit::sink::{Form, Reached};
use visit::{content, sink};

// Walks all blocks of an accepted file.
pub(crate) fn walk_all(file: OpenFile<'_>, form: Form, out: &mut [u8]) -> u64
    ensures { Delivered form 0 out.old (all_records file.entry.bytes.now) out.new result }
{
    walk_blocks(file, 0, OutermostOffset::start(), form, 0, out)
}

// Walks the blocks of a file at this depth. The file's first byte is at `start` of the outermost file.
#[cycle(walk_blocks_walk_content)]
fn walk_blocks(
    file: OpenFile<'_>,
    depth: u8,
    start: OutermostOffset,
    form: Form,
    number: u64,
    out: &mut [u8],
) -> u64
    requires depth { depth ≤ deepest }
    requires inside { start.0 + length file.bytes.now ≤ most_bytes }
    ensures { Delivered form number out.old (file_records depth start.0 file.entry.bytes.now) out.new result }
{
    // One table serves all inner files, because each is finished before the next is opened.
    let mut inside = [0u64; MOST_BLOCKS];
    let mut n = number;
    for (k, offset) in file.offsets.iter().enumerate() {
        let at = *offset as usize;
        let block = Reached {
            bytes: &file.bytes[at..],
            ordinal: k as u8,
            at,
            depth,
            here: Offset(at as u64).outermost(start),
        };
        n = walk_content(block, &mut inside, form, n, out);
    }
    n
}

// Takes a block, and after it the blocks inside. The record is made at one point of the code only, so that the compiler
// can build it in place.
#[cycle(walk_blocks_walk_content)]
fn walk_content(
    block: Reached<'_>,
    offsets: &mut [u64; MOST_BLOCKS],
    form: Form,
    number: u64,
    out: &mut [u8],
) -> u64
    requires sound { Sound block.bytes.now }
    requires depth { block.depth ≤ deepest }
    requires inside { block.here.0 + length block.bytes.now ≤ most_bytes }
    ensures { Delivered form number out.old (reached_records block.entry) out.new result }
{
    let c = again::content_of(block.bytes);
    let from = c.from;
    let to = c.to;
    let part = &block.bytes[from..to];
    let found = content::content_of(part, c.compressed, block.depth, offsets);
    let n = sink::take_block(form, number, block, found.inner, out);
    if found.blocks == 0 {
        return n;
    }
    let content = Offset(from as u64).outermost(block.here);
    walk_blocks(
        opened(part, offsets, found.blocks),
        block.depth + 1,
        content,
        form,
        n,
        out,
    )
}

// Makes an open file of an accepted one with this many blocks, which begin at the first offsets of the table. The crate
// `file` has a function like it. It has a condition, and public functions have none, so the two are not one.
fn opened<'a>(bytes: &'a [u8], table: &'a [u64], blocks: u8) -> OpenFile<'a>
    requires { Kept bytes.now table.now blocks }
    ensures bytes { result.bytes.now ≡ bytes.now }
    ensures blocks { length result.offsets.now ≡ blocks }
{
    OpenFile {
        bytes,
        offsets: &table[..blocks as usize],
    }
}
