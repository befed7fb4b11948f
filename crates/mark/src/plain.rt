// The plain search, which looks at every byte.
ghost use Rattle.std.specs.Prelude.{◌≤◌, ◌≡◌, length};
ghost use Rattle.format.specs.Tree.{free_space};
ghost use Rattle.mark.specs.Mark.{Skipped};

use crate::is_mark;

// Returns how many bytes come before the first mark, or before the end if there is none. The loop counts offsets, since
// it goes on by fours and by single bytes in turn.
pub(crate) fn free_space(t: &[u8]) -> usize
    ensures { (result ≡ free_space t.now) × (result ≤ length t.now) }
{
    let mut i = 0;
    loop {
        i = skip_fours(t, i);
        if t.len() <= i || is_mark(t, i) {
            return i;
        }
        i += 1;
    }
}

// Passes over groups of four bytes that have no D3, the first byte of a mark. The bytes are tested one by one, but each
// turn of the loop tests four of them: with the library's `position`, one byte a turn, the search took 1.5 times as
// long.
fn skip_fours(t: &[u8], from: usize) -> usize
    requires { from ≤ length t.now }
    ensures { Skipped t.now from result }
{
    let mut i = from;
    while let Some([a, b, c, d]) = t[i..].first_chunk::<4>() {
        if *a == 0xD3 || *b == 0xD3 || *c == 0xD3 || *d == 0xD3 {
            break;
        }
        i += 4;
    }
    i
}
