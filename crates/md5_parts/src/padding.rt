// What follows a message: its padding, and the digest that then comes of the words.
ghost use Rattle.std.specs.Prelude.{◌≡◌, ◌+◌, ◌%◌, ◌≤◌, ◌++◌, length};
ghost use Rattle.md5_parts.specs.Md5.{hashed, padding, digest_of};
ghost use Rattle.md5_parts.specs.State.{in_block};

use crate::blocks::blocks;
use crate::words::Words;

// The words `w` after the padding of a message of `count` bytes. `held` has its last bytes, after the whole blocks. With
// the padding they are one block or two.
pub(crate) fn finish(w: Words, held: &[u8], count: u64) -> Words
    requires { length held.now ≡ count % 64 }
    ensures { result ≡ hashed w (held.now ++ padding count) }
{
    let bits = count.wrapping_mul(8).to_le_bytes();
    let block = joined(held, &[128]);
    if held.len() < 56 {
        return blocks(w, &[joined(&block[..56], &bits)]);
    }
    blocks(w, &[block, joined(&[0; 56], &bits)])
}

// Two parts of a block, with zeros after them.
pub(crate) fn joined(a: &[u8], b: &[u8]) -> [u8; 64]
    requires { length a.now + length b.now ≤ 64 }
    ensures { result ≡ in_block (a.now ++ b.now) }
{
    let mut block = [0u8; 64];
    block[..a.len()].copy_from_slice(a);
    block[a.len()..a.len() + b.len()].copy_from_slice(b);
    block
}

// The sixteen bytes of four words.
pub(crate) fn digest_of(w: Words) -> [u8; 16]
    ensures { result ≡ digest_of w }
{
    let mut digest = [0u8; 16];
    digest[..4].copy_from_slice(&w.a.to_le_bytes());
    digest[4..8].copy_from_slice(&w.b.to_le_bytes());
    digest[8..12].copy_from_slice(&w.c.to_le_bytes());
    digest[12..].copy_from_slice(&w.d.to_le_bytes());
    digest
}
