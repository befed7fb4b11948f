// The files inside blocks: how many blocks there are in all, their outline and their records, in walking order.
#![tactic(auto)]

mod walk;

ghost use Rattle.std.specs.Prelude.{◌≤◌, ◌≡◌, length};
ghost use Rattle.format.specs.Fields.{record_fields, found_bytes, record_table};
ghost use Rattle.format.specs.File.{layout as File·layout};
ghost use Rattle.format.specs.Nest.{record_count, record_at};
ghost use Rattle.format.specs.Outcome.{accepted};
ghost use Rattle.format.specs.Promise.{Written, OutlineWritten};
ghost use Rattle.visit.specs.Sink.{all_encoded, width};
ghost use Rattle.nest.specs.Walk.{all_records};

use file::layout::open;
use file::open::OpenFile;
use format::answer::OutlinedAnswer;
use format::limits::{LEAST_BLOCK, MOST_BLOCKS, RECORD_BYTES};
use format::refusal::{Reason, Refusal};
use put::text::write_text;
use visit::sink;
use visit::sink::Form;

// The size of a buffer that is enough in the usual case: a record for each block of a file without inner files.
const OWN_BYTES: usize = MOST_BLOCKS * RECORD_BYTES;

// Returns how many blocks a file and its inner files have, or the file's refusal.
pub fn count(s: &[u8]) -> Result<u64, Refusal>
    ensures { result ≡ record_count s.now }
{
    let mut table = [0u64; MOST_BLOCKS];
    let (_, file) = open(s, &mut table)?;
    Ok(count_in(file))
}

// Writes the outline of a file: a row of sixteen bytes for each block.
pub fn outline(s: &[u8], out: &mut [u8]) -> Result<u64, Refusal>
    ensures { OutlineWritten s.now out.old out.new result }
{
    outline_with_layout(s, out).written
}

// Does the same and also returns the layout, so that the file is judged only once.
pub fn outline_with_layout(s: &[u8], out: &mut [u8]) -> OutlinedAnswer
    ensures layout { result.layout ≡ File·layout s.now }
    ensures written { OutlineWritten s.now out.old out.new result.written }
{
    let mut table = [0u64; MOST_BLOCKS];
    match open(s, &mut table) {
        Err(r) => OutlinedAnswer {
            layout: Err(r),
            written: Err(r),
        },
        Ok((layout, file)) => {
            let written = write(file, Form::Rows, out);
            OutlinedAnswer {
                layout: Ok(layout),
                written,
            }
        }
    }
}

// Writes the records of all blocks, each in 120 bytes.
pub fn records(s: &[u8], out: &mut [u8]) -> Result<u64, Refusal>
    ensures { Written (record_table s.now) out.old out.new result }
{
    let mut table = [0u64; MOST_BLOCKS];
    let (_, file) = open(s, &mut table)?;
    write(file, Form::Table, out)
}

// Writes the record with this number, in 120 bytes, or nothing if there is no such record.
pub fn record(s: &[u8], wanted: u64, out: &mut [u8]) -> Result<u64, Refusal>
    ensures { Written (found_bytes record_fields (record_at s.now wanted)) out.old out.new result }
{
    let mut table = [0u64; MOST_BLOCKS];
    let (_, file) = open(s, &mut table)?;
    write_one(file, wanted, out)
}

// Returns how many records a file has. They are put nowhere, because a buffer of one byte is too short for a row.
fn count_in(file: OpenFile<'_>) -> u64
    ensures { result ≡ length (all_records file.entry.bytes.now) }
{
    let mut nothing = [0u8; 1];
    walk::walk_all(file, Form::Rows, &mut nothing)
}

// Writes the record with this number. One walk is enough: if the record does not fit, the walk changes nothing.
fn write_one(file: OpenFile<'_>, wanted: u64, out: &mut [u8]) -> Result<u64, Refusal>
    ensures { Written (found_bytes record_fields (record_at file.entry.bytes.now wanted)) out.old out.new result }
{
    let n = walk::walk_all(file, Form::One(wanted), out);
    if n <= wanted {
        return Ok(0);
    }
    if out.len() < RECORD_BYTES {
        return Err(Refusal::new(Reason::BufferTooShort, 0));
    }
    Ok(RECORD_BYTES as u64)
}

// Writes what is wanted of each block. A block has a minimum size, so the length of the file limits how many blocks
// there can be. If the buffer is long enough for that many, one walk is enough.
fn write(file: OpenFile<'_>, form: Form, out: &mut [u8]) -> Result<u64, Refusal>
    requires { 1 ≤ width form }
    ensures { Written (accepted (all_encoded form (all_records file.entry.bytes.now))) out.old out.new result }
{
    let each = sink::width_of(form);
    if out.len() as u64 / each < (file.bytes.len() / LEAST_BLOCK) as u64 {
        return write_measured(file, form, out);
    }
    let n = walk::walk_all(file, form, out);
    Ok(each * n)
}

// Does the same if the buffer might be too short. The first walk counts and writes into a buffer of its own, so that a
// refusal changes nothing. If everything fitted into that buffer, no second walk is needed.
fn write_measured(file: OpenFile<'_>, form: Form, out: &mut [u8]) -> Result<u64, Refusal>
    requires { 1 ≤ width form }
    ensures { Written (accepted (all_encoded form (all_records file.entry.bytes.now))) out.old out.new result }
{
    let each = sink::width_of(form);
    let mut own = [0u8; OWN_BYTES];
    let n = walk::walk_all(file, form, &mut own);
    if out.len() as u64 / each < n {
        return Err(Refusal::new(Reason::BufferTooShort, 0));
    }
    let own_most = OWN_BYTES as u64 / each;
    if own_most < n {
        walk::walk_all(file, form, out);
        return Ok(each * n);
    }
    write_text(&own[..(each * n) as usize], out)
}
