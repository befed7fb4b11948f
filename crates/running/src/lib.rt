// A running digest in bytes that the caller keeps between its parts. Every function takes any bytes: those that are too
// short for a state are refused with 21.
#![tactic(auto)]

ghost use Rattle.std.specs.Prelude.{◌%◌, ◌^◌, ◌≡◌};
ghost use Rattle.format.specs.Bytes.{big_endian};
ghost use Rattle.format.specs.Outcome.{accepted};
ghost use Rattle.format.specs.Promise.{Written};
ghost use Rattle.md5_parts.specs.Kept.{encode_state, stored_state, digest_bytes, PartKept};
ghost use Rattle.md5_parts.specs.State.{starting};

use format::refusal::{Reason, Refusal};
use md5_parts::state::Md5;
use md5_parts::words::Words;
use put::text::write_text;

// How many bytes a state takes.
pub const STATE_BYTES: usize = 104;

// Writes the state before any byte, and returns how many bytes it takes.
pub fn start(state: &mut [u8]) -> Result<u64, Refusal>
    ensures { Written (accepted (encode_state starting)) state.old state.new result }
{
    write_text(&encode(Md5::new()), state)
}

// Gives a part to the state. If the part is refused, no byte of the state changes.
pub fn part(state: &mut [u8], bytes: &[u8]) -> Result<(), Refusal>
    ensures { PartKept state.old bytes.now state.new result }
{
    let fed = decode(state)?.part(bytes);
    fed.answer?;
    write_text(&encode(fed.state), state)?;
    Ok(())
}

// Writes the digest that the state gives: sixteen bytes.
pub fn digest(state: &[u8], out: &mut [u8]) -> Result<u64, Refusal>
    ensures { Written (digest_bytes state.now) out.old out.new result }
{
    write_text(&decode(state)?.digest(), out)
}

// Reads the state that the bytes begin with. If they are too short for one, refuses with number 21.
fn decode(s: &[u8]) -> Result<Md5, Refusal>
    ensures { result ≡ stored_state s.now }
{
    if s.len() < STATE_BYTES {
        return Err(Refusal::new(Reason::BufferTooShort, 0));
    }
    let (numbers, _) = s.as_chunks::<8>();
    let mut pending = [0; 64];
    pending.copy_from_slice(&s[40..STATE_BYTES]);
    Ok(Md5 {
        words: Words {
            a: word(numbers[0]),
            b: word(numbers[1]),
            c: word(numbers[2]),
            d: word(numbers[3]),
        },
        pending,
        count: u64::from_be_bytes(numbers[4]),
    })
}

// Reads a word: the lowest 32 bits of a number.
fn word(number: [u8; 8]) -> u32
    ensures { result ≡ big_endian number % 2 ^ 32 }
{
    (u64::from_be_bytes(number) % 4294967296) as u32
}

// The bytes of a state.
fn encode(state: Md5) -> [u8; STATE_BYTES]
    ensures { result ≡ encode_state state }
{
    let words = state.words;
    let numbers = [
        u64::from(words.a),
        u64::from(words.b),
        u64::from(words.c),
        u64::from(words.d),
        state.count,
    ];
    let mut bytes = [0; STATE_BYTES];
    put::put_numbers(&mut bytes, 0, &numbers);
    put::text::put_text(&mut bytes, 40, &state.pending);
    bytes
}
