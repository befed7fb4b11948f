// Judges a block's header.
ghost use Rattle.std.specs.Prelude.{◌≤◌, ◌≡◌, ◌||◌, length, eqb};
ghost use Rattle.format.specs.Block.{is_compressed, Sound};
ghost use Rattle.blocks.specs.Block.{IsField, FieldRead, HeaderRead, Checked, sound_link};

use crate::step::Link;
use format::block::is_compressed;
use format::limits::LEAST_HEADER;
use format::refusal::Reason;
use scan::number;

// Checks the block that `t` begins with, and returns why it is refused if it is. The walk has already found the mark, so
// its four bytes are not checked again.
pub(crate) fn check(t: &[u8]) -> Result<(), Reason>
    ensures { Checked t.now result }
{
    if t.len() < 6 {
        return Err(Reason::HeaderPassesEnd);
    }
    let header_size = field(t, 4, 6);
    if header_size < LEAST_HEADER {
        return Err(Reason::HeaderTooSmall);
    }
    let content = 6 + header_size as usize;
    if t.len() < content {
        return Err(Reason::HeaderPassesEnd);
    }
    let left = (t.len() - content) as u64;
    if field(t, 6, 10) % 2 == 1 {
        return Ok(());
    }
    check_sizes(t, left)
}

// Does the same for a whole header of a block that is not streamed. `left` bytes follow the header.
fn check_sizes(t: &[u8], left: u64) -> Result<(), Reason>
    requires { HeaderRead t.now left }
    ensures { Checked t.now result }
{
    let allocated = field(t, 14, 22);
    let used = field(t, 22, 30);
    if allocated < used {
        return Err(Reason::UsedAboveAllocated);
    }
    if !is_data_size(field(t, 30, 38), field(t, 10, 14), used) {
        return Err(Reason::DataSizeDiffers);
    }
    if left < allocated {
        return Err(Reason::AllocatedPassesEnd);
    }
    Ok(())
}

// Whether the data may have this size. Without compression only the used size is allowed.
fn is_data_size(data_size: u64, compression: u64, used: u64) -> bool
    ensures { result ≡ (is_compressed compression || eqb data_size used) }
{
    if is_compressed(compression) {
        return true;
    }
    data_size == used
}

// Returns the number in the bytes from offset `from` to offset `to`, at most eight of them.
pub(crate) fn field(t: &[u8], from: usize, to: usize) -> u64
    requires { IsField t.now from to }
    ensures { FieldRead t.now from to result }
{
    number::big_endian(&t[from..to])
}

// Returns how the chain goes on after a block with which nothing is wrong.
pub(crate) fn sound_link(t: &[u8]) -> Link
    requires { Sound t.now }
    ensures { result ≡ sound_link t.now }
{
    if field(t, 6, 10) % 2 == 1 {
        return Link::Streamed;
    }
    let content = 6 + field(t, 4, 6) as usize;
    Link::Block(content + field(t, 14, 22) as usize)
}
