// The search for a block's mark, by fours. There is also a plain search with the same promise, with which the search by
// fours is compared.
#![tactic(auto)]

mod fours;
mod plain;

ghost use Rattle.std.specs.Prelude.{◌+◌, ◌≤◌, ◌≡◌, length, drop};
ghost use Rattle.format.specs.Bytes.{begins};
ghost use Rattle.format.specs.Tree.{mark};
ghost use Rattle.mark.specs.Mark.{MarkFound};

// Whether a block begins at an offset. This is asked for every block.
pub fn is_mark(s: &[u8], at: usize) -> bool
    ensures { result ≡ begins mark (drop at s.now) }
{
    let enough = 4 <= s.len().saturating_sub(at);
    enough && mark_at(s, at)
}

// Whether a block begins at an offset from which at least four bytes are left. All four are compared, with no branch:
// with `==` of slices, `is_mark` took 1.8 times as long.
fn mark_at(s: &[u8], at: usize) -> bool
    requires { at + 4 ≤ length s.now }
    ensures { result ≡ begins mark (drop at s.now) }
{
    (s[at] == 0xD3) & (s[at + 1] == 0x42) & (s[at + 2] == 0x4C) & (s[at + 3] == 0x4B)
}

// Returns where the first mark at or after an offset begins, or the end if there is none. The end is no None, because it
// is the answer that is needed: the room of a tree reaches to it. A block mostly follows the one before it directly, so
// the offset itself is tried first.
pub fn find(s: &[u8], at: usize) -> usize
    ensures { MarkFound s.now at result }
{
    if s.len() <= at {
        return at;
    }
    if is_mark(s, at) {
        return at;
    }
    at + fours::free_space(&s[at..])
}

// Returns the same as `find`, but looks at every byte. A generic function for both would need a trait with two types
// for the two searches, which says no more than the two names.
pub fn find_plain(s: &[u8], at: usize) -> usize
    ensures { MarkFound s.now at result }
{
    if s.len() <= at {
        return at;
    }
    at + plain::free_space(&s[at..])
}
