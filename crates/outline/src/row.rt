// Writes a row as sixteen bytes and reads it back.
ghost use Rattle.std.specs.Prelude.{◌≤◌, ◌<◌, ◌≡◌};
ghost use Rattle.format.specs.Lent.{placed};
ghost use Rattle.format.specs.Outline.{encode_row, decode_row};
ghost use Rattle.outline.specs.Row.{state_of, front_of, Field, row_at};

use format::block::InnerKind;
use format::limits::ROW_BYTES;
use format::offset::{Offset, OutermostOffset};
use format::row::Row;
use scan::number;

// Puts a row at an offset. If it does not fit, nothing changes. The ten fields fill four numbers of four bytes exactly.
pub fn put_row(out: &mut [u8], at: usize, r: Row)
    ensures { out.new ≡ placed out.old at (encode_row r) }
{
    if out.len() < at {
        return;
    }
    if out.len() - at < ROW_BYTES {
        return;
    }
    put::put_number(out, at, 4, front(r));
    put::put_number(out, at + 4, 4, r.at.number());
    put::put_number(out, at + 8, 4, r.allocated);
    put::put_number(out, at + 12, 4, r.used);
}

// Returns the first four bytes of a row as a number: its state, its ordinal and its header size. Here and below, bits
// are packed by sums and products, as the definition of a row packs them.
fn front(r: Row) -> u64
    ensures { result ≡ front_of r }
{
    (state(r) * 256 + r.ordinal as u64) * 65536 + r.header_size as u64
}

// Returns the first byte of a row: its depth, its flags and its inner state.
fn state(r: Row) -> u64
    ensures { (result ≡ state_of r) × (result < 256) }
{
    (r.depth % 8) as u64 * 32
        + u64::from(r.streamed) * 16
        + u64::from(r.compressed) * 8
        + u64::from(r.checksum) * 4
        + r.inner.number() as u64
}

// Reads the row in the sixteen bytes at an offset. If there are fewer bytes, there is no such row. The rows around it
// are not looked at.
pub fn read_row(s: &[u8], at: usize) -> Option<Row>
    ensures { result ≡ row_at s.now at }
{
    let bytes = s.get(at..)?.first_chunk()?;
    Some(decode(bytes))
}

// Reads the row in sixteen bytes.
pub(crate) fn decode(bytes: &[u8; ROW_BYTES]) -> Row
    ensures { result ≡ decode_row bytes.now }
{
    let front = field(bytes, 0);
    let state = front / 16777216;
    Row {
        depth: (state / 32) as u8,
        streamed: state / 16 % 2 == 1,
        compressed: state / 8 % 2 == 1,
        checksum: state / 4 % 2 == 1,
        inner: InnerKind::of_bits(state),
        ordinal: (front / 65536 % 256) as u8,
        header_size: (front % 65536) as u16,
        at: Offset(field(bytes, 4)).outermost(OutermostOffset::start()),
        allocated: field(bytes, 8),
        used: field(bytes, 12),
    }
}

// Reads the number in the four bytes at an offset.
fn field(bytes: &[u8; ROW_BYTES], at: usize) -> u64
    requires { at ≤ 12 }
    ensures { Field bytes.now at 4 result }
{
    number::big_endian(&bytes[at..at + 4])
}
