// Numbers in bytes and in decimal digits.
ghost use Rattle.std.specs.Prelude.{◌≤◌, ◌≡◌, length};
ghost use Rattle.scan.specs.Number.{BigEndian, leads_well, NumeralRead, DigitsRead};

// Returns the number that bytes give, the first being the most significant. Of more than eight bytes, only the last
// eight count. For eight, four and two bytes, the sizes of fields, the library has a method for each; it has none for any
// number of bytes, which this promises.
pub fn big_endian(s: &[u8]) -> u64
    ensures { BigEndian s.now result }
{
    if let Some(bytes) = s.as_array::<8>() {
        return u64::from_be_bytes(*bytes);
    }
    if let Some(bytes) = s.as_array::<4>() {
        return u64::from(u32::from_be_bytes(*bytes));
    }
    if let Some(bytes) = s.as_array::<2>() {
        return u64::from(u16::from_be_bytes(*bytes));
    }
    byte_by_byte(s)
}

// Does the same for any number of bytes, in a loop.
fn byte_by_byte(s: &[u8]) -> u64
    ensures { BigEndian s.now result }
{
    let mut x = 0;
    for b in s {
        x = x % 72057594037927936 * 256 + u64::from(*b);
    }
    x
}

// Reads `t` as a decimal number. It must have 1 to `most` digits, never more than 19, and no leading zero except in a
// lone 0.
pub fn numeral(t: &[u8], most: usize) -> Option<u64>
    ensures { NumeralRead t.now most result }
{
    if t.is_empty() || most.min(19) < t.len() || !leads_well(t) {
        return None;
    }
    digits(t)
}

// Whether `t` has no leading zero, except in a lone 0.
fn leads_well(t: &[u8]) -> bool
    ensures { result ≡ leads_well t.now }
{
    t.len() <= 1 || t[0] != b'0'
}

// Reads up to 19 digits as a number.
fn digits(t: &[u8]) -> Option<u64>
    requires { length t.now ≤ 19 }
    ensures { DigitsRead t.now result }
{
    let mut x = 0;
    for b in t {
        if !b.is_ascii_digit() {
            return None;
        }
        x = x * 10 + u64::from(*b - b'0');
    }
    Some(x)
}
