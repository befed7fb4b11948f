// The listing of a file: the whole text that the program prints.
#![tactic(auto)]

mod text;

ghost use Rattle.std.specs.Prelude.{◌≤◌, length};
ghost use Rattle.format.specs.Listing.{most_input, printed};
ghost use Rattle.format.specs.Outcome.{refused as Outcome·refused};
ghost use Rattle.format.specs.Promise.{Listed, ListedLent};
ghost use Rattle.listing.specs.Listing.{most_outline, BothShort, Outlined, Short};
ghost use Rattle.listing.specs.Text.{file_text};

use format::answer::OutlinedAnswer;
use format::layout::Layout;
use format::limits::{LEAST_BLOCK, ROW_BYTES};
use format::refusal::{Reason, Refusal};
use put::text::{put_text, write_text};

// The longest file that is listed, in bytes.
pub const MOST_INPUT: usize = 65536;

// The length of a buffer, in bytes, that is long enough for every listing and for every outline of a listed file.
pub const LENT_BYTES: usize = 65536;

// The maximum number of bytes in the outline of a listed file.
const MOST_OUTLINE: usize = MOST_INPUT / LEAST_BLOCK * ROW_BYTES;

// A bound for every line except a row's, in bytes: each of these lines is shorter.
const MOST_SHORT: usize = 64;

// Writes the listing of a file at the start of `out` and the file's outline at the start of `rows`, and returns how
// many bytes the listing has. If one of the buffers is too short, the answer is refusal 21 and neither buffer changes.
// A file that is refused or too long has one line as its listing, and no outline. The buffers stay two parameters, here
// and below, since each promise speaks of both.
pub fn list(s: &[u8], rows: &mut [u8], out: &mut [u8]) -> Result<u64, Refusal>
    ensures { Listed s.now rows.old out.old rows.new out.new result }
{
    if MOST_INPUT < s.len() {
        return write_text(b"too long for this program\n", out);
    }
    let mut own = [0u8; MOST_OUTLINE];
    let found = nest::outline_with_layout(s, &mut own);
    list_outlined(s, found, &own, rows, out)
}

// Does the same as `list`, with buffers that are long enough for every file. The listing is at the start of `out`, and
// its length is returned. The promise says that the 0 for a refusal is never returned.
pub fn list_lent(s: &[u8], rows: &mut [u8; LENT_BYTES], out: &mut [u8; LENT_BYTES]) -> usize
    ensures { ListedLent s.now rows.old out.old rows.new out.new result }
{
    match list(s, rows, out) {
        Err(_) => 0,
        Ok(n) => n as usize,
    }
}

// Writes the line of a refusal.
fn write_refused(r: Refusal, out: &mut [u8]) -> Result<u64, Refusal>
    ensures { Short (printed (Outcome·refused r)) out.old out.new result }
{
    let mut own = [0u8; MOST_SHORT];
    let end = text::put_refused(&mut own, r);
    write_text(&own[..end], out)
}

// Does the same as `list` for a file that was already read with this answer, and whose outline was written into `own`,
// a buffer that is long enough. The answer, and no slice, says how long the outline is: it holds nothing that is lent.
fn list_outlined(
    s: &[u8],
    found: OutlinedAnswer,
    own: &[u8],
    rows: &mut [u8],
    out: &mut [u8],
) -> Result<u64, Refusal>
    requires short { length s.now ≤ most_input }
    requires outlined { Outlined s.now found.layout found.written own.now }
    ensures { Listed s.now rows.old out.old rows.new out.new result }
{
    match found.layout {
        Err(r) => write_refused(r, out),
        Ok(l) => {
            let n = found.written?;
            write_both(&own[..n as usize], l, rows, out)
        }
    }
}

// Writes the outline `b` and the text of an accepted file that has this outline. The text is measured first, so that a
// refusal changes nothing.
fn write_both(b: &[u8], l: Layout, rows: &mut [u8], out: &mut [u8]) -> Result<u64, Refusal>
    requires { length b.now ≤ most_outline }
    ensures { BothShort b.now (file_text l.tree b.now l.verdict) rows.old out.old rows.new out.new result }
{
    let mut nothing = [0u8; 1];
    let n = text::put_file(&mut nothing, l.tree, b, l.verdict);
    if rows.len() < b.len() {
        return Err(Refusal::new(Reason::BufferTooShort, 0));
    }
    if out.len() < n {
        return Err(Refusal::new(Reason::BufferTooShort, 0));
    }
    put_text(rows, 0, b);
    text::put_file(out, l.tree, b, l.verdict);
    Ok(n as u64)
}
