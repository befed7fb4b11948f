// What a block's content is: plain bytes, a file that is too deep to be read, or a file that is judged here.
ghost use Rattle.std.specs.Prelude.{◌≡◌};
ghost use Rattle.visit.specs.Content.{ContentIs, closed_found};

use file::layout;
use format::block::Inner;
use format::limits::{DEEPEST, MOST_BLOCKS};
use scan::text;

// What a block's content is, and how many blocks in it must be walked: none if it is not opened, or if it has none. The
// walk asks only for this number, so it is no Option.
#[derive(Clone, Copy)]
pub struct Found {
    pub inner: Inner,
    pub blocks: u8,
}

impl Found {
    // Makes the answer for content that is not opened.
    fn closed(inner: Inner) -> Found
        ensures { result ≡ closed_found inner }
    {
        Found { inner, blocks: 0 }
    }
}

// Returns what the content `t` of a block at this depth is. If it is opened, the offsets of its blocks come first in
// the table, which is the caller's, as in `blocks::chain`. Content that is not read as a file leaves the table as it was.
pub fn content_of(t: &[u8], compressed: bool, depth: u8, offsets: &mut [u64; MOST_BLOCKS]) -> Found
    ensures { ContentIs depth compressed t.now offsets.old offsets.new result }
{
    if compressed {
        return Found::closed(Inner::Plain);
    }
    if !text::begins_at(t, 0, b"#ASDF ") {
        return Found::closed(Inner::Plain);
    }
    if DEEPEST <= depth {
        return Found::closed(Inner::TooDeep);
    }
    match layout::read_into(t, offsets) {
        Err(r) => Found::closed(Inner::Refused(r)),
        Ok(l) => Found {
            inner: Inner::Opened,
            blocks: l.blocks,
        },
    }
}
