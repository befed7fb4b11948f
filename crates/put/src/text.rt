// Functions that put texts into a lent buffer.
ghost use Rattle.format.specs.Outcome.{accepted};
ghost use Rattle.format.specs.Promise.{Written};
ghost use Rattle.put.specs.Put.{PutWhole};
ghost use Rattle.std.specs.Prelude.{length};

use crate::fits;
use format::refusal::{Reason, Refusal};

// Puts a text at an offset, and returns where it ends. If it does not fit, nothing changes.
pub fn put_text(out: &mut [u8], at: usize, text: &[u8]) -> usize
    ensures { PutWhole out.old out.new at text.now (length text.now) result }
{
    if fits(out, at, text.len()) {
        out[at..at + text.len()].copy_from_slice(text);
    }
    at.wrapping_add(text.len())
}

// Writes a text at the start of the buffer, and returns how many bytes it has. If the buffer is too short, refuses with
// number 21.
pub fn write_text(text: &[u8], out: &mut [u8]) -> Result<u64, Refusal>
    ensures { Written (accepted text.now) out.old out.new result }
{
    if out.len() < text.len() {
        return Err(Refusal::new(Reason::BufferTooShort, 0));
    }
    put_text(out, 0, text);
    Ok(text.len() as u64)
}
