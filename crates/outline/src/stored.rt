// Stored outlines: counts their rows, reads one of them, and writes them again.
ghost use Rattle.std.specs.Prelude.{ℕ, ◌*◌, ◌≤◌, ◌<◌, ◌≡◌, length, map, MatchResult};
ghost use Rattle.format.specs.declared.row.Row.{Row};
ghost use Rattle.format.specs.Bytes.{Bytes};
ghost use Rattle.format.specs.Fields.{encode_stored_row, stored_rows, stored_row_bytes};
ghost use Rattle.format.specs.Lent.{placed};
ghost use Rattle.format.specs.Outcome.{accepted, refused};
ghost use Rattle.format.specs.Outline.{row_bytes, encode_row, decode_row, is_row, stored, stored_count, stored_at};
ghost use Rattle.format.specs.Promise.{Written, WrittenAgain};
ghost use Rattle.format.proofs.RowLaws.{encoded_length};
ghost use Rattle.outline.specs.Form.{numbers_long, rows_in_form, stored_in};
ghost use Rattle.std.proofs.Common.{lit<};

use crate::row;
use format::limits::{LEAST_HEADER, MOST_BLOCKS, ROW_BYTES, STORED_ROW_BYTES};
use format::refusal::{Reason, Refusal};
use format::row::Row;

// Returns how many rows a stored outline has, or its refusal.
pub fn count(b: &[u8]) -> Result<u64, Refusal>
    ensures { result ≡ stored_count b.now }
{
    Ok(judge(b)?.len() as u64)
}

// Reads row `k` of a stored outline. The answer is the row, that there is no such row, or the outline's refusal.
pub fn row(b: &[u8], k: u64) -> Result<Option<Row>, Refusal>
    ensures { result ≡ stored_at b.now k }
{
    Ok(judge(b)?.get(k as usize).map(row::decode))
}

// Judges a stored outline. Returns the bytes of each row, or the refusal.
fn judge(b: &[u8]) -> Result<&[[u8; ROW_BYTES]], Refusal>
    ensures { MatchResult result (λ rows. stored b.now ≡ accepted (map decode_row rows.now)) (λ r. stored b.now ≡ refused r) }
{
    let (rows, rest) = b.as_chunks();
    if !rest.is_empty() {
        return Err(Refusal::new(Reason::OutlineLength, 0));
    }
    let mut most = 0;
    for (k, bytes) in rows.iter().enumerate() {
        let r = row::decode(bytes);
        if !is_row(r, most) {
            return Err(Refusal::new(Reason::OutlineRow, k * ROW_BYTES));
        }
        most = r.depth + 1;
    }
    Ok(rows)
}

// Whether a row keeps the rules and is at most `most` deep.
fn is_row(r: Row, most: u8) -> bool
    ensures { result ≡ is_row most r }
{
    (r.ordinal as usize) < MOST_BLOCKS
        && LEAST_HEADER <= r.header_size as u64
        && r.used <= r.allocated
        && r.depth <= most
}

// Reads a stored outline and writes its rows again.
pub fn rewrite(b: &[u8], out: &mut [u8]) -> Result<u64, Refusal>
    ensures { WrittenAgain b.now out.old out.new result }
{
    write::<AsStored>(b, out)
}

// Reads a stored outline and writes its rows as numbers, each number in eight bytes.
pub fn rows(b: &[u8], out: &mut [u8]) -> Result<u64, Refusal>
    ensures { Written (stored_rows b.now) out.old out.new result }
{
    write::<AsNumbers>(b, out)
}

// A form in which rows are written.
trait RowForm {
    ghost BYTES: { ℕ };

    // The bytes of a row.
    ghost formed: { Row → Bytes };

    // How many bytes each row takes.
    const BYTES: usize;

    // Puts a row at an offset. If it does not fit, nothing changes.
    fn put(out: &mut [u8], at: usize, r: Row)
        ensures { out.new ≡ placed out.old at (formed r) };

    ghost all_long: { (r : Row) → length (formed r) ≡ BYTES };

    ghost some: { 0 < BYTES };
}

// The bytes that are stored for a row.
struct AsStored;

impl RowForm for AsStored {
    ghost BYTES = { row_bytes };

    ghost formed = { encode_row };

    ghost all_long = { encoded_length };

    ghost some = { lit< tt };

    const BYTES: usize = ROW_BYTES;

    fn put(out: &mut [u8], at: usize, r: Row) {
        row::put_row(out, at, r);
    }
}

// The numbers that the program prints.
struct AsNumbers;

impl RowForm for AsNumbers {
    ghost BYTES = { stored_row_bytes };

    ghost formed = { encode_stored_row };

    ghost all_long = { numbers_long };

    ghost some = { lit< tt };

    const BYTES: usize = STORED_ROW_BYTES;

    fn put(out: &mut [u8], at: usize, r: Row) {
        put::put_numbers(out, at, &fields::row_fields(r));
    }
}

// Writes the rows of a stored outline. All of them are judged before the first is put, so that a refusal changes
// nothing.
fn write<F: RowForm>(b: &[u8], out: &mut [u8]) -> Result<u64, Refusal>
    ensures { Written (stored_in F.formed b.now) out.old out.new result }
{
    let rows = judge(b)?;
    if out.len() / F::BYTES < rows.len() {
        return Err(Refusal::new(Reason::BufferTooShort, 0));
    }
    put_rows::<F>(rows, out);
    Ok((rows.len() * F::BYTES) as u64)
}

// Puts rows at the start of a buffer that has room for them.
fn put_rows<F: RowForm>(rows: &[[u8; ROW_BYTES]], out: &mut [u8])
    requires { length rows.now * F.BYTES ≤ length out.old }
    ensures { out.new ≡ placed out.old 0 (rows_in_form F.formed (map decode_row rows.now)) }
{
    for (k, bytes) in rows.iter().enumerate() {
        F::put(out, k * F::BYTES, row::decode(bytes));
    }
}
