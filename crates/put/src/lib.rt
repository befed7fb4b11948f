// Functions that put numbers and texts into a lent buffer. The buffer and the offset in it are two parameters, here and
// in the crates above: a writer that holds both would be lent or handed back at each step, and each promise is about
// the bytes before and after one call.
#![tactic(auto)]

pub mod decimal;
pub mod text;

ghost use Rattle.std.specs.Prelude.{◌≡◌, ◌+◌, ◌≤◌, length, nat_le};
ghost use Rattle.format.specs.Bytes.{to_bytes};
ghost use Rattle.format.specs.Fields.{number_bytes};
ghost use Rattle.format.specs.Lent.{placed};

// Whether so many bytes fit into a buffer at an offset.
fn fits(out: &[u8], at: usize, count: usize) -> bool
    ensures { result ≡ nat_le (at + count) (length out.now) }
{
    at <= out.len() && count <= out.len() - at
}

// Puts the last `width` bytes of a number at an offset, the most significant first. If they do not fit, nothing
// changes.
pub fn put_number(out: &mut [u8], at: usize, width: usize, x: u64)
    ensures { out.new ≡ placed out.old at (to_bytes width x) }
{
    if fits(out, at, width) {
        put_bytes(out, at, width, x);
    }
}

// Puts the same bytes, which have to fit. Of more than eight bytes, all but the last eight are zero.
fn put_bytes(out: &mut [u8], at: usize, width: usize, x: u64)
    requires { at + width ≤ length out.old }
    ensures { out.new ≡ placed out.old at (to_bytes width x) }
{
    if width <= 8 {
        out[at..at + width].copy_from_slice(&x.to_be_bytes()[8 - width..]);
        return;
    }
    let end = at + width;
    out[at..end - 8].fill(0);
    out[end - 8..end].copy_from_slice(&x.to_be_bytes());
}

// Puts numbers at an offset, each in eight bytes. If they do not all fit, nothing changes. The loop counts the offset:
// with an index from `enumerate` it would be computed in each turn, and of an adapter of `iter_mut` over parts of the
// buffer a proof learns nothing.
pub fn put_numbers(out: &mut [u8], at: usize, numbers: &[u64])
    ensures { out.new ≡ placed out.old at (number_bytes numbers.now) }
{
    if out.len() < at || (out.len() - at) / 8 < numbers.len() {
        return;
    }
    let mut place = at;
    for number in numbers {
        put_bytes(out, place, 8, *number);
        place += 8;
    }
}
