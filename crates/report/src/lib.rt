// Prints the listing of what a reader gives, which may be up to 65,536 bytes.
#![tactic(auto)]

ghost use Rattle.std.specs.Prelude.{◌≡◌, ◌<◌, ◌≤◌, length, take, IfOk, IfSome, OnOk};
ghost use Rattle.std.specs.Io.KnownBytes.{Appends, Consumes, IsAtEnd};
ghost use Rattle.format.specs.Listing.{listing};

use listing::{LENT_BYTES, MOST_INPUT};
use std::io;
use std::io::{Read, Write};

// Prints the listing of all that the input gives. Its promise holds for every reader and every writer whose bytes are
// known. Of standard input and standard output no promise can say which bytes come and go.
pub fn print_input<R: Read, W: Write>(input: &mut R, to: &mut W) -> io::Result<()>
    ensures { OnOk result (IfSome (R.remaining input.old)
        (λ s. Appends (W.contents to.old) (W.contents to.new) (listing s))) }
{
    // One byte more than the program takes, so that an input that is too long is noticed.
    let mut bytes = [0u8; MOST_INPUT + 1];
    let n = read_full(input, &mut bytes)?;
    print_listing(&bytes[..n], to)
}

// Reads until the buffer is full or the input ends, and returns how many bytes were read. The loop counts them: each read
// says how many it gave, and the library's `read_to_end` would take memory from the heap.
fn read_full<R: Read>(input: &mut R, buf: &mut [u8]) -> io::Result<usize>
    ensures bound { IfOk result (λ n. n ≤ length buf.new) }
    ensures bytes { IfOk result (λ n. Consumes (R.remaining input.old) (R.remaining input.new)
        (take n buf.new)) }
    ensures end { IfOk result (λ n. n < length buf.new → IsAtEnd (R.remaining input.new)) }
{
    let mut done = 0;
    while done < buf.len() {
        let n = input.read(&mut buf[done..])?;
        if n == 0 {
            return Ok(done);
        }
        done += n;
    }
    Ok(done)
}

// Prints the listing of the bytes of a file.
fn print_listing<W: Write>(s: &[u8], to: &mut W) -> io::Result<()>
    ensures { OnOk result (Appends (W.contents to.old) (W.contents to.new) (listing s.now)) }
{
    let mut rows = [0u8; LENT_BYTES];
    let mut out = [0u8; LENT_BYTES];
    let n = listing::list_lent(s, &mut rows, &mut out);
    write_listing(s, &out[..n], to)
}

// Writes a text. Its condition is that the text is the listing of `s`, and nothing else in this crate writes.
fn write_listing<W: Write>(s: &[u8], text: &[u8], to: &mut W) -> io::Result<()>
    requires { text.now ≡ listing s.now }
    ensures { OnOk result (Appends (W.contents to.old) (W.contents to.new) (listing s.now)) }
{
    to.write_all(text)
}
