// The index that is written for a file.
ghost use Rattle.format.specs.IndexWriter.{index_for};
ghost use Rattle.format.specs.Outcome.{accepted};
ghost use Rattle.format.specs.Promise.{Written, IndexWritten};
ghost use Rattle.file.specs.Opened.{EndsAs};

use crate::layout::open;
use crate::open::OpenFile;
use blocks::again;
use format::limits::MOST_BLOCKS;
use format::line::LineEnd;
use format::refusal::{Reason, Refusal};

// Writes the index of a file at the start of the buffer, and returns how many bytes it has. Otherwise returns the
// file's refusal, 22 if no index is possible, or 21 if the buffer is too short.
pub fn write(s: &[u8], out: &mut [u8]) -> Result<u64, Refusal>
    ensures { IndexWritten s.now out.old out.new result }
{
    let mut table = [0u64; MOST_BLOCKS];
    let (layout, file) = open(s, &mut table)?;
    write_open(file, layout.header.line_end, out)
}

// Does the same for an open file whose header ends in `ending`. Reads the last block's header again, to know whether
// that block is streamed.
fn write_open(file: OpenFile<'_>, ending: LineEnd, out: &mut [u8]) -> Result<u64, Refusal>
    requires { EndsAs file.bytes.now ending }
    ensures { Written (index_for file.entry.bytes.now) out.old out.new result }
{
    let Some(last) = file.offsets.last() else {
        return Err(Refusal::new(Reason::NoIndexPossible, 0));
    };
    let from = *last as usize;
    if again::is_streamed(&file.bytes[from..]) {
        return Err(Refusal::new(Reason::NoIndexPossible, 0));
    }
    index::text::write(ending, file.offsets, out)
}
