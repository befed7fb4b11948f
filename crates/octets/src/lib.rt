// The search for a byte in a part of a slice, and the copying of bytes into the start of another slice.
#![tactic(auto)]

ghost use Rattle.std.specs.Prelude.{◌≡◌, ◌+◌, ◌≤◌, ◌++◌, ◌==◌, length, take, drop, min, max, position};
ghost use Rattle.std.proofs.Math.Seq.{slice};
ghost use Rattle.octets.specs.Octets.{index_of};

// Returns where the first `b` from offset `from` up to offset `to` is, or `to` if there is none. A `to` after the end
// stands for the end. If nothing comes after `from`, the answer is `from`. It is no Option: the promise names `to` for
// none, and may not change.
pub fn find(s: &[u8], from: usize, to: usize, b: u8) -> usize
    ensures value { result ≡ from + index_of b (slice from to s.now) }
    ensures inside { result ≤ max from to }
{
    let end = to.min(s.len());
    if end <= from {
        return from;
    }
    match first(&s[from..end], b) {
        Some(before) => from + before,
        None => end,
    }
}

// Returns how many bytes come before the first `b`, if there is one.
fn first(s: &[u8], b: u8) -> Option<usize>
    ensures { result ≡ position (λ a. a == b) s.now }
{
    s.iter().position(|a| *a == b)
}

// Copies as many bytes of `from` as `to` has room for to the start of `to`. Returns how many these are.
pub fn copy(from: &[u8], to: &mut [u8]) -> usize
    ensures count { result ≡ min (length from.now) (length to.old) }
    ensures after { to.new ≡ take result from.now ++ drop result to.old }
{
    let count = from.len().min(to.len());
    to[..count].copy_from_slice(&from[..count]);
    count
}
