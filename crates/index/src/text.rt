// The text of an index.
ghost use Rattle.std.specs.Prelude.{◌≡◌, ◌≤◌, length};
ghost use Rattle.format.specs.Chain.{most_blocks};
ghost use Rattle.format.specs.Index.{index_text};
ghost use Rattle.format.specs.Promise.{Written};
ghost use Rattle.index.specs.Text.{offsets_index, front_text, back_text, most_text};
ghost use Rattle.put.specs.Put.{PutAt};

use format::limits::MOST_BLOCKS;
use format::line::LineEnd;
use format::refusal::{Reason, Refusal};
use put::decimal::put_decimals;
use put::text::{put_text, write_text};

// The maximum number of bytes in an index whose offsets may take all of their 64 bits: 43 around the list, and twenty
// digits, a comma and a space for each offset.
const MOST_TEXT: usize = 43 + 22 * MOST_BLOCKS;

// Writes the index of these offsets at the start of the buffer, with this line end, and returns how many bytes it has.
// The refusal is 21 if the buffer is too short, and 22 if a file cannot have that many blocks.
pub fn write(ending: LineEnd, offsets: &[u64], out: &mut [u8]) -> Result<u64, Refusal>
    ensures { Written (offsets_index ending offsets.now) out.old out.new result }
{
    if MOST_BLOCKS < offsets.len() {
        return Err(Refusal::new(Reason::NoIndexPossible, 0));
    }
    // The text is made here and then copied, because a buffer that is too short must not change.
    let mut own = [0u8; MOST_TEXT];
    let end = put_index(&mut own, ending, offsets);
    write_text(&own[..end], out)
}

// Puts the index of at most 64 offsets at the start of the buffer, and returns where it ends.
fn put_index(out: &mut [u8], ending: LineEnd, offsets: &[u64]) -> usize
    requires { length offsets.now ≤ most_blocks }
    ensures { PutAt out.old out.new 0 (index_text ending offsets.now) most_text result }
{
    let from = put_text(out, 0, front(ending));
    let to = put_decimals(out, from, b", ", offsets);
    put_text(out, to, back(ending))
}

// Returns the text before the list.
fn front(ending: LineEnd) -> &'static [u8]
    ensures { result.now ≡ front_text ending }
{
    match ending {
        LineEnd::Lf => b"#ASDF BLOCK INDEX\n%YAML 1.1\n--- [",
        LineEnd::Crlf => b"#ASDF BLOCK INDEX\r\n%YAML 1.1\r\n--- [",
    }
}

// Returns the text after the list.
fn back(ending: LineEnd) -> &'static [u8]
    ensures { result.now ≡ back_text ending }
{
    match ending {
        LineEnd::Lf => b"]\n...\n",
        LineEnd::Crlf => b"]\r\n...\r\n",
    }
}
