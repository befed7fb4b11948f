// The four rounds over one block. Each operation stands where RFC 1321 lists it.
ghost use Rattle.std.specs.Prelude.{◌≡◌, ℕ, ◌<◌, List, length, map, true, refl};
ghost use Rattle.std.specs.Int.{w32, from_le_bytes};
ghost use Rattle.md5_parts.specs.Md5.{mix_f, mix_g, mix_h, mix_i, operation, round, first_round, second_round, third_round, fourth_round, all_fit, added as Md5·added, compressed as Md5·compressed};

use crate::words::Words;

// Which word of the block an operation takes, by how many bits it rotates, and its constant: the whole part of 2^32
// times the sine, without its sign, of the operation's number from 1 to 64.
#[derive(Clone, Copy, Debug, PartialEq, Eq)]
pub(crate) struct Operation {
    word: usize,
    bits: u32,
    sine: u32,
}

// The operations of a round, four to a line as the RFC lists them.
macro_rules! operations {
    ($($word:literal $bits:literal $sine:literal,)*) => {
        [$(Operation { word: $word, bits: $bits, sine: $sine }),*]
    };
}

// A round: how it mixes three words, and its operations. `mix` is written so that little is left to do when `x`, which
// the operation before works out, is known. This is what the speed depends on.
trait Round {
    ghost use Rattle.md5_parts.specs.declared.rounds.Operation.{Operation};

    ghost mixed: { ℕ → ℕ → ℕ → ℕ };

    ghost OPERATIONS: { List Operation };

    const OPERATIONS: [Operation; 16];

    fn mix(x: u32, y: u32, z: u32) -> u32
        ensures { result ≡ mixed x y z };

    // Each operation takes one of the sixteen words, and rotates by 1 to 31 bits.
    ghost fits: { all_fit OPERATIONS ≡ true };
}

struct First;

impl Round for First {
    ghost mixed = { mix_f };

    ghost OPERATIONS = { first_round };

    const OPERATIONS: [Operation; 16] = operations![
        0 7 0xd76aa478, 1 12 0xe8c7b756, 2 17 0x242070db, 3 22 0xc1bdceee,
        4 7 0xf57c0faf, 5 12 0x4787c62a, 6 17 0xa8304613, 7 22 0xfd469501,
        8 7 0x698098d8, 9 12 0x8b44f7af, 10 17 0xffff5bb1, 11 22 0x895cd7be,
        12 7 0x6b901122, 13 12 0xfd987193, 14 17 0xa679438e, 15 22 0x49b40821,
    ];

    fn mix(x: u32, y: u32, z: u32) -> u32 {
        z ^ (x & (y ^ z))
    }

    ghost fits = { refl };
}

struct Second;

impl Round for Second {
    ghost mixed = { mix_g };

    ghost OPERATIONS = { second_round };

    const OPERATIONS: [Operation; 16] = operations![
        1 5 0xf61e2562, 6 9 0xc040b340, 11 14 0x265e5a51, 0 20 0xe9b6c7aa,
        5 5 0xd62f105d, 10 9 0x02441453, 15 14 0xd8a1e681, 4 20 0xe7d3fbc8,
        9 5 0x21e1cde6, 14 9 0xc33707d6, 3 14 0xf4d50d87, 8 20 0x455a14ed,
        13 5 0xa9e3e905, 2 9 0xfcefa3f8, 7 14 0x676f02d9, 12 20 0x8d2a4c8a,
    ];

    fn mix(x: u32, y: u32, z: u32) -> u32 {
        (x & z).wrapping_add(y & !z)
    }

    ghost fits = { refl };
}

struct Third;

impl Round for Third {
    ghost mixed = { mix_h };

    ghost OPERATIONS = { third_round };

    const OPERATIONS: [Operation; 16] = operations![
        5 4 0xfffa3942, 8 11 0x8771f681, 11 16 0x6d9d6122, 14 23 0xfde5380c,
        1 4 0xa4beea44, 4 11 0x4bdecfa9, 7 16 0xf6bb4b60, 10 23 0xbebfbc70,
        13 4 0x289b7ec6, 0 11 0xeaa127fa, 3 16 0xd4ef3085, 6 23 0x04881d05,
        9 4 0xd9d4d039, 12 11 0xe6db99e5, 15 16 0x1fa27cf8, 2 23 0xc4ac5665,
    ];

    fn mix(x: u32, y: u32, z: u32) -> u32 {
        x ^ y ^ z
    }

    ghost fits = { refl };
}

struct Fourth;

impl Round for Fourth {
    ghost mixed = { mix_i };

    ghost OPERATIONS = { fourth_round };

    const OPERATIONS: [Operation; 16] = operations![
        0 6 0xf4292244, 7 10 0x432aff97, 14 15 0xab9423a7, 5 21 0xfc93a039,
        12 6 0x655b59c3, 3 10 0x8f0ccc92, 10 15 0xffeff47d, 1 21 0x85845dd1,
        8 6 0x6fa87e4f, 15 10 0xfe2ce6e0, 6 15 0xa3014314, 13 21 0x4e0811a1,
        4 6 0xf7537e82, 11 10 0xbd3af235, 2 15 0x2ad7d2bb, 9 21 0xeb86d391,
    ];

    fn mix(x: u32, y: u32, z: u32) -> u32 {
        y ^ (x | !z)
    }

    ghost fits = { refl };
}

// One operation. The sum begins with what is known early.
fn after_operation<R: Round>(w: Words, x: u32, s: u32, t: u32) -> Words
    requires { (0 < s) × (s < 32) }
    ensures { result ≡ operation R.mixed x s t w }
{
    let mix = R::mix(w.b, w.c, w.d);
    let sum = x.wrapping_add(t).wrapping_add(w.a).wrapping_add(mix);
    Words {
        a: w.d,
        b: w.b.wrapping_add(sum.rotate_left(s)),
        c: w.b,
        d: w.c,
    }
}

// The words `w` after a round over the words of a block, of four bytes each.
fn after_round<R: Round>(w: Words, block: &[[u8; 4]]) -> Words
    requires { length block.now ≡ 16 }
    ensures { result ≡ round R.mixed R.OPERATIONS (map (from_le_bytes w32) block.now) w }
{
    let mut v = w;
    for o in &R::OPERATIONS {
        v = after_operation::<R>(v, u32::from_le_bytes(block[o.word]), o.bits, o.sine);
    }
    v
}

// The sums of the words in the same places.
fn added(v: Words, w: Words) -> Words
    ensures { result ≡ Md5·added v w }
{
    Words {
        a: v.a.wrapping_add(w.a),
        b: v.b.wrapping_add(w.b),
        c: v.c.wrapping_add(w.c),
        d: v.d.wrapping_add(w.d),
    }
}

// The words `w` after a block.
pub(crate) fn compress(w: Words, block: &[u8; 64]) -> Words
    ensures { result ≡ Md5·compressed w block.now }
{
    let (fours, _) = block.as_chunks::<4>();
    let v = after_round::<First>(w, fours);
    let v = after_round::<Second>(v, fours);
    let v = after_round::<Third>(v, fours);
    added(w, after_round::<Fourth>(v, fours))
}
