// Functions that put decimal numbers into a lent buffer.
ghost use Rattle.std.specs.Prelude.{◌≡◌, ◌+◌, ◌≤◌, length};
ghost use Rattle.format.specs.Lent.{placed};
ghost use Rattle.format.specs.Numeral.{decimal};
ghost use Rattle.put.specs.Decimal.{DecimalLength};
ghost use Rattle.put.specs.Put.{PutDecimals, PutWhole, most_digits};

use crate::fits;
use crate::text::put_text;

// Puts numbers in decimal at an offset, with a text between each two, and returns where they end. Each number and each
// text is put only if it fits. So a call with an empty buffer measures how many bytes they take.
pub fn put_decimals(out: &mut [u8], at: usize, between: &[u8], numbers: &[u64]) -> usize
    ensures { PutDecimals out.old out.new at between.now numbers.now result }
{
    let Some((first, others)) = numbers.split_first() else {
        return at;
    };
    let mut end = put_decimal(out, at, *first);
    for number in others {
        end = put_text(out, end, between);
        end = put_decimal(out, end, *number);
    }
    end
}

// Puts a number in decimal at an offset, and returns where it ends. If its digits do not fit, nothing changes.
pub fn put_decimal(out: &mut [u8], at: usize, x: u64) -> usize
    ensures { PutWhole out.old out.new at (decimal x) most_digits result }
{
    let n = decimal_length(x);
    if fits(out, at, n) {
        put_digits(out, at, n, x);
    }
    at.wrapping_add(n)
}

// Returns how many digits a number has in decimal: 1 to 20.
fn decimal_length(x: u64) -> usize
    ensures { DecimalLength x result }
{
    match x.checked_ilog10() {
        Some(more) => more as usize + 1,
        None => 1,
    }
}

// Puts the `n` digits of a number, which have to fit. The last digit is put first. The range gives the places: of an
// adapter of `iter_mut` a proof learns nothing.
fn put_digits(out: &mut [u8], at: usize, n: usize, x: u64)
    requires n_value { n ≡ length (decimal x) }
    requires n_in_bounds { at + n ≤ length out.old }
    ensures { out.new ≡ placed out.old at (decimal x) }
{
    let mut rest = x;
    for place in (at + 1..at + n).rev() {
        out[place] = b'0' + (rest % 10) as u8;
        rest /= 10;
    }
    out[at] = b'0' + rest as u8;
}
