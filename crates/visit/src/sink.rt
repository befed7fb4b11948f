// What is done with the blocks of a walk, which come one after another. What the form wants of a block is made from the
// block's bytes, at the point where it is wanted. Nothing is judged here: whatever the bytes are, what is put is what
// `blocks::again` reads of them.
ghost use Rattle.std.specs.Prelude.{◌≡◌, ℕ, ◌*◌, [], ◌∷◌};
ghost use Rattle.format.specs.Fields.{encode_record};
ghost use Rattle.format.specs.Lent.{placed};
ghost use Rattle.format.specs.Outline.{row_of};
ghost use Rattle.visit.specs.Sink.{Delivered, PlaceIs, delivery, reached_record, width};

use blocks::again;
use format::block::{Inner, Record};
use format::limits::{RECORD_BYTES, ROW_BYTES};
use format::offset::OutermostOffset;
use format::row::Row;
use outline::row;

// What is wanted of the blocks. It is an enum, so that the walk is compiled once for all three. A trait with three types
// would be no plainer than a match with three arms.
#[derive(Clone, Copy)]
pub enum Form {
    // A row is put for each block. If the buffer is too short for a row, blocks are only counted.
    Rows,
    // The record of each block is put as numbers.
    Table,
    // Only the record with this number is put as numbers, at the start.
    One(u64),
}

// A block that the walk has reached.
#[derive(Clone, Copy)]
pub struct Reached<'a> {
    // The rest of its file, which begins with it.
    pub bytes: &'a [u8],
    // Its number in its file, and its first byte there.
    pub ordinal: u8,
    pub at: usize,
    // How many files surround its file.
    pub depth: u8,
    // Its first byte, in the outermost file.
    pub here: OutermostOffset,
}

// What is put of a block, and where.
#[derive(Clone, Copy)]
enum Place {
    // Its row, at this offset.
    Row(usize),
    // The numbers of its record, at this offset.
    Numbers(usize),
}

// Returns how many bytes each block takes in the buffer. In the form `One` this is 0, because only one record is put,
// at the start.
pub fn width_of(form: Form) -> u64
    ensures { result ≡ width form }
{
    match form {
        Form::Rows => ROW_BYTES as u64,
        Form::Table => RECORD_BYTES as u64,
        Form::One(_) => 0,
    }
}

// Takes a block as number `n`, and returns the number of the next block.
pub fn take_block(form: Form, n: u64, block: Reached<'_>, inner: Inner, out: &mut [u8]) -> u64
    ensures { Delivered form n out.old (reached_record block.entry inner ∷ []) out.new result }
{
    put_entry(form, n, block, inner, out);
    n.wrapping_add(1)
}

// Puts what the form wants of the block. If it does not fit, nothing changes.
fn put_entry(form: Form, n: u64, block: Reached<'_>, inner: Inner, out: &mut [u8])
    ensures { out.new ≡ placed out.old (n * width form) (delivery form n (reached_record block.entry inner)) }
{
    match place_of(form, n, out.len()) {
        None => {}
        Some(Place::Row(place)) => {
            row::put_row(out, place, row_of(block, inner));
        }
        Some(Place::Numbers(place)) => {
            put_record(out, place, block, inner);
        }
    }
}

// Returns what is put of block number `n` in a buffer of `room` bytes, and where, if anything is put.
fn place_of(form: Form, n: u64, room: usize) -> Option<Place>
    ensures { PlaceIs form n room result }
{
    match form {
        Form::Rows => {
            if (room / ROW_BYTES) as u64 <= n {
                return None;
            }
            Some(Place::Row(n as usize * ROW_BYTES))
        }
        Form::Table => {
            if (room / RECORD_BYTES) as u64 <= n {
                return None;
            }
            Some(Place::Numbers(n as usize * RECORD_BYTES))
        }
        Form::One(wanted) => {
            if wanted != n {
                return None;
            }
            Some(Place::Numbers(0))
        }
    }
}

// Returns the row of a block. It does not depend on where the block is in its own file.
fn row_of(block: Reached<'_>, inner: Inner) -> Row
    ensures { result ≡ row_of (reached_record block.entry inner) }
{
    let b = again::summary_of(block.bytes);
    Row {
        depth: block.depth,
        streamed: b.streamed,
        compressed: b.compressed,
        checksum: b.checksum,
        inner: inner.kind(),
        ordinal: block.ordinal,
        header_size: b.header_size,
        at: block.here,
        allocated: b.allocated,
        used: b.used,
    }
}

// Puts the record of a block as numbers at offset `place`. If they do not fit, nothing changes.
fn put_record(out: &mut [u8], place: usize, block: Reached<'_>, inner: Inner)
    ensures { out.new ≡ placed out.old place (encode_record (reached_record block.entry inner)) }
{
    let numbers = fields::record_fields(Record {
        depth: block.depth,
        at: block.here,
        block: again::block_of(block.bytes, block.ordinal, block.at),
        inner,
    });
    put::put_numbers(out, place, &numbers);
}
