// Tests on bytes.
ghost use Rattle.std.specs.Prelude.{◌≡◌, ◌==◌, drop};
ghost use Rattle.std.specs.List.{list_all};
ghost use Rattle.format.specs.Bytes.{begins, same, all_zero};

use crate::find;

// Whether `s` has `word` at an offset. The bytes are compared by `==`, which costs little for the short words of the
// format. The library's `starts_with` is a call and took longer where it was tried.
pub fn begins_at(s: &[u8], at: usize, word: &[u8]) -> bool
    ensures { result ≡ begins word.now (drop at s.now) }
{
    if s.len() < at {
        return word.is_empty();
    }
    let rest = &s[at..];
    word.len() <= rest.len() && word == &rest[..word.len()]
}

// Whether two byte strings are the same. This is `==`; as a function it promises `same`, by which lines are judged.
pub fn is(s: &[u8], word: &[u8]) -> bool
    ensures { result ≡ same s.now word.now }
{
    s == word
}

// Whether every byte is zero. Fewer than eight bytes are tested one by one. Of more bytes, the blocks of zeros are
// passed over first. The large blocks have 128 bytes: the compiler unrolls a test of 64 bytes against zero, and the
// code that it makes of this is slow.
pub fn only_zeros(s: &[u8]) -> bool
    ensures { result ≡ all_zero s.now }
{
    if s.len() < 8 {
        return zeros(s);
    }
    let large = find::skip_blocks(s, 0, 128, |b| b != 0);
    let small = find::skip_blocks(s, large, 8, |b| b != 0);
    zeros(&s[small..])
}

// Does the same byte by byte.
fn zeros(s: &[u8]) -> bool
    ensures { result ≡ list_all (λ b. b == 0) s.now }
{
    s.iter().all(|b| *b == 0)
}
