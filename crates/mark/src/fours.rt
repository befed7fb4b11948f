// The search by fours. A mark is four bytes long, so one of every four bytes belongs to it. Therefore every fourth byte
// is looked at first, and the search steps back only from a byte that belongs to a mark.
// The tests of 64 bytes have no early exit, no branch and no table, so that the compiled code tests many bytes at a
// time. They count the place in the block, which decides what is looked at. `fourths` could go along parts of four bytes
// instead, but then tests that are proved alike would go along the block in two ways.
ghost use Rattle.std.specs.Prelude.{◌+◌, ◌≤◌, ◌≡◌, length, drop};
ghost use Rattle.format.specs.Tree.{free_space};
ghost use Rattle.mark.specs.Fours.{FirstIn, FourthsUpTo, Told, InMark, fourth_of_mark, begins_mark};

use crate::{is_mark, mark_at};

// Returns how many bytes come before the first mark, or before the end if there is none. Blocks of 64 bytes (not blocks
// of a file) are tested for the marks that begin in them. Such a mark may end up to three bytes after the block, so
// three more bytes have to be there. The loop counts the offset, since the search by fours goes on from it.
pub(crate) fn free_space(t: &[u8]) -> usize
    ensures { (result ≡ free_space t.now) × (result ≤ length t.now) }
{
    let mut i = 0;
    while let Some(block) = t[i..].first_chunk() {
        if block_has_mark(block) {
            break;
        }
        i += 64;
    }
    four_by_four(t, i)
}

// Whether a mark begins at one of the first 64 bytes. No byte of a mark is below 42: the test for this is the fastest,
// and it passes over spaces and zeros. The second test is whether a fourth byte belongs to a mark. The other bytes are
// looked at only if one does. So no bytes, however they were made, are searched four by four before the block with the
// first mark, except at most the last 66.
fn block_has_mark(block: &[u8; 67]) -> bool
    ensures { Told (begins_mark block.now) 64 result }
{
    if fourths(block) < 0x42 {
        return false;
    }
    if !marked_fourths(block) {
        return false;
    }
    any_is_mark(block)
}

// Returns a bound: no fourth byte of the first 64 is above it.
fn fourths(block: &[u8; 67]) -> u8
    ensures { FourthsUpTo block.now 16 result }
{
    let mut seen = 0u8;
    for k in 0..16 {
        seen = seen | block[4 * k + 3];
    }
    seen
}

// Whether a fourth byte of the first 64 belongs to a mark. The loop goes through all 64, although only every fourth byte
// counts: the compiled code tests many bytes at a time only if they are adjacent.
fn marked_fourths(block: &[u8; 67]) -> bool
    ensures { Told (fourth_of_mark block.now) 64 result }
{
    let mut seen = false;
    for j in 0..64 {
        seen = seen | ((j % 4 == 3) & in_mark(block[j]));
    }
    seen
}

// Whether a mark begins at one of the first 64 bytes. Each of them is tried.
fn any_is_mark(block: &[u8; 67]) -> bool
    ensures { Told (begins_mark block.now) 64 result }
{
    let mut seen = false;
    for j in 0..64 {
        seen = seen | mark_at(block, j);
    }
    seen
}

// Whether a byte belongs to a mark. It is compared with all four bytes, with no branch that certain bytes could make
// the processor mispredict.
fn in_mark(b: u8) -> bool
    ensures { InMark b result }
{
    (b == 0xD3) | (b == 0x42) | (b == 0x4C) | (b == 0x4B)
}

// Returns where the first mark from an offset on begins, or the end if there is none. Fewer than four bytes hold no
// mark. The loop counts offsets and takes no slices of four, since a mark may begin before the byte that shows it.
fn four_by_four(t: &[u8], from: usize) -> usize
    requires { from ≤ length t.now }
    ensures { (result ≡ from + free_space (drop from t.now)) × (result ≤ length t.now) }
{
    let mut i = from;
    while 4 <= t.len() - i {
        let r = in_four(t, i);
        if r < i + 4 {
            return r;
        }
        i += 4;
    }
    t.len()
}

// Returns where a mark begins among the next four bytes, or the offset after them, from which the search goes on. The
// bytes of a mark differ, so the last of the four determines the only offset at which a mark can begin: how far to step
// back.
fn in_four(t: &[u8], i: usize) -> usize
    requires { i + 4 ≤ length t.now }
    ensures { FirstIn t.now i result }
{
    let back = octets::find(b"\xD3BLK", 0, 4, t[i + 3]);
    if back == 4 {
        return i + 4;
    }
    let start = i + 3 - back;
    if is_mark(t, start) {
        return start;
    }
    i + 4
}
