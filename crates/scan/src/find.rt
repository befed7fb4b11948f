// The search for a byte, and blocks of bytes that are passed over (not blocks of a file). A block is tested without an
// early exit, so that the compiled code tests many bytes at a time.
// The end stands for none, as in `octets::find`: with an Option, the test would stand here at each of two calls, and it
// stands once in the caller, `long_line`. That the offset is inside the bytes stands in three contracts: the caller has
// an offset and needs one, so the rest of the bytes in its place would be no plainer.
ghost use Rattle.std.specs.Prelude.{◌≤◌, ◌≡◌, ℕ, Bool, length};
ghost use Rattle.std.specs.List.{list_any};
ghost use Rattle.scan.specs.Find.{Computes, PassedOver, first_from};

// Returns where the first `b` at or after an offset is, or the end if there is none. The next eight bytes are tested
// one by one, since a `b` is often near.
pub(crate) fn find_byte(s: &[u8], at: usize, b: u8) -> usize
    requires { at ≤ length s.now }
    ensures value { result ≡ first_from b s.now at }
    ensures upper_bound { result ≤ length s.now }
{
    if s.len() - at < 8 {
        return octets::find(s, at, s.len(), b);
    }
    let far = at + 8;
    let near = octets::find(s, at, far, b);
    if near < far {
        return near;
    }
    find_far(s, far, b)
}

// Returns the same for a `b` that may be far away.
fn find_far(s: &[u8], at: usize, b: u8) -> usize
    requires { at ≤ length s.now }
    ensures value { result ≡ first_from b s.now at }
    ensures upper_bound { result ≤ length s.now }
{
    let large = skip_blocks(s, at, 64, |a| a == b);
    let small = skip_blocks(s, large, 8, |a| a == b);
    octets::find(s, small, s.len(), b)
}

// Passes over blocks of `size` bytes while none of their bytes passes a test. Returns the offset after them. The loop
// counts offsets: with a slice that gets shorter, lines of 20 to 100 bytes took 1.2 to 1.3 times as long to read.
pub(crate) fn skip_blocks<F: Fn(u8) -> bool>(s: &[u8], at: usize, size: usize, wanted: F) -> usize
    ghost test: { ℕ → Bool }
    requires at_in_bounds { at ≤ length s.now }
    requires le_size { 1 ≤ size }
    requires callable { F.IsAlwaysCallable wanted }
    requires computes { Computes (F.post wanted) test }
    ensures { PassedOver test s.now at result }
{
    let mut i = at;
    while size <= s.len() - i {
        if has(&s[i..i + size], &wanted) {
            return i;
        }
        i += size;
    }
    i
}

// Whether a byte passes a test. Looks at every byte.
fn has<F: Fn(u8) -> bool>(block: &[u8], wanted: &F) -> bool
    ghost test: { ℕ → Bool }
    requires callable { F.IsAlwaysCallable wanted.now }
    requires computes { Computes (F.post wanted.now) test }
    ensures { result ≡ list_any test block.now }
{
    let mut found = false;
    for b in block {
        found = found | wanted(*b);
    }
    found
}
