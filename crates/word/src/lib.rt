// Makes the one number that an exported function returns, and puts numbers into the lent buffer.
#![tactic(auto)]

ghost use Rattle.std.specs.Prelude.{◌≡◌};
ghost use Rattle.format.specs.Outcome.{accepted, refused as Outcome·refused};
ghost use Rattle.format.specs.Fields.{number_bytes};
ghost use Rattle.format.specs.Export.{word};
ghost use Rattle.format.specs.Promise.{Written};

use format::refusal::{Reason, Refusal};

// The smallest number that is a refusal: one in the top byte.
const LEAST_REFUSAL: u64 = 1 << 56;

// Returns a refusal as one number: its number in the top byte, and its place in the bytes below.
pub fn refused(r: Refusal) -> u64
    ensures { result ≡ word (Outcome·refused r) }
{
    r.reason.number() as u64 * LEAST_REFUSAL + r.place.0 % LEAST_REFUSAL
}

// Returns a count, or a refusal as one number.
pub fn counted(a: Result<u64, Refusal>) -> u64
    ensures { result ≡ word a }
{
    a.unwrap_or_else(refused)
}

// Puts numbers at the start of the buffer, each in eight bytes, and returns how many bytes that is. If the buffer is
// too short, the answer is a refusal.
pub fn put_numbers(out: &mut [u8], numbers: &[u64]) -> Result<u64, Refusal>
    ensures { Written (accepted (number_bytes numbers.now)) out.old out.new result }
{
    if out.len() / 8 < numbers.len() {
        return Err(Refusal::new(Reason::BufferTooShort, 0));
    }
    put::put_numbers(out, 0, numbers);
    Ok(8 * numbers.len() as u64)
}
