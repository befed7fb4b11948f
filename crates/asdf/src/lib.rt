// The functions that C and Rust call. Each returns one number: how many bytes it put at the start of the lent buffer,
// or the count that was asked for, or a refusal. A refusal has its number in the top byte and its place in the bytes
// below, and changes no byte that was lent. If everything that is lent is shorter than 2^56 bytes in all, the returned
// number can be read in only one way.
#![tactic(auto)]

ghost use Rattle.std.specs.Prelude.{◌≡◌, length};
ghost use Rattle.format.specs.Outcome.{accepted};
ghost use Rattle.format.specs.Fields.{layout_bytes, block_fields, record_fields, row_fields, found_numbers, found_bytes, record_table, stored_rows};
ghost use Rattle.format.specs.File.{block_at};
ghost use Rattle.format.specs.Nest.{record_count, record_at};
ghost use Rattle.format.specs.Outline.{stored_count, stored_at};
ghost use Rattle.format.specs.Promise.{Written, Returned, Exported, OutlineExported, RewriteExported, IndexExported, EditExported};

use format::refusal::Refusal;

// Puts the layout of a file into the buffer: 96 bytes.
#[unsafe(no_mangle)]
pub extern "C" fn asdf_read(file: &[u8], out: &mut [u8]) -> u64
    ensures { Exported file.now (layout_bytes file.now) out.old out.new result }
{
    word::counted(put_layout(file, out))
}

// Puts the block with this ordinal of a file into the buffer: 80 bytes, or none if there is no such block.
#[unsafe(no_mangle)]
pub extern "C" fn asdf_block(file: &[u8], ordinal: u64, out: &mut [u8]) -> u64
    ensures { Exported file.now (found_bytes block_fields (block_at file.now ordinal)) out.old out.new result }
{
    word::counted(put_block(file, ordinal, out))
}

// Returns how many blocks a file and the files inside it have.
#[unsafe(no_mangle)]
pub extern "C" fn asdf_count(file: &[u8]) -> u64
    ensures { Returned (record_count file.now) (length file.now) result }
{
    word::counted(nest::count(file))
}

// Puts the outline of a file into the buffer: 16 bytes for each block, including the blocks of inner files.
#[unsafe(no_mangle)]
pub extern "C" fn asdf_outline(file: &[u8], out: &mut [u8]) -> u64
    ensures { OutlineExported file.now out.old out.new result }
{
    word::counted(nest::outline(file, out))
}

// Puts the record of block `k` in walking order into the buffer: 120 bytes, or none if there is no such block.
#[unsafe(no_mangle)]
pub extern "C" fn asdf_record(file: &[u8], k: u64, out: &mut [u8]) -> u64
    ensures { Exported file.now (found_bytes record_fields (record_at file.now k)) out.old out.new result }
{
    word::counted(nest::record(file, k, out))
}

// Puts the records of all blocks in walking order into the buffer: 120 bytes for each.
#[unsafe(no_mangle)]
pub extern "C" fn asdf_records(file: &[u8], out: &mut [u8]) -> u64
    ensures { Exported file.now (record_table file.now) out.old out.new result }
{
    word::counted(nest::records(file, out))
}

// Puts the text of a block index for a file into the buffer: at most 809 bytes.
#[unsafe(no_mangle)]
pub extern "C" fn asdf_index(file: &[u8], out: &mut [u8]) -> u64
    ensures { IndexExported file.now out.old out.new result }
{
    word::counted(file::index_writer::write(file, out))
}

// Returns how many rows a stored outline has.
#[unsafe(no_mangle)]
pub extern "C" fn asdf_stored_count(stored: &[u8]) -> u64
    ensures { Returned (stored_count stored.now) (length stored.now) result }
{
    word::counted(outline::stored::count(stored))
}

// Puts row `k` of a stored outline into the buffer: 80 bytes, or none if there is no such row.
#[unsafe(no_mangle)]
pub extern "C" fn asdf_stored_row(stored: &[u8], k: u64, out: &mut [u8]) -> u64
    ensures { Exported stored.now (found_bytes row_fields (stored_at stored.now k)) out.old out.new result }
{
    word::counted(put_stored_row(stored, k, out))
}

// Puts the rows of a stored outline into the buffer as numbers: 80 bytes for each.
#[unsafe(no_mangle)]
pub extern "C" fn asdf_stored_rows(stored: &[u8], out: &mut [u8]) -> u64
    ensures { Exported stored.now (stored_rows stored.now) out.old out.new result }
{
    word::counted(outline::stored::rows(stored, out))
}

// Reads a stored outline and writes it again from its rows: the bytes are the same.
#[unsafe(no_mangle)]
pub extern "C" fn asdf_rewrite(stored: &[u8], out: &mut [u8]) -> u64
    ensures { RewriteExported stored.now out.old out.new result }
{
    word::counted(outline::stored::rewrite(stored, out))
}

// Replaces the tree of a file by a text, in place, and returns 0 when that is done.
#[unsafe(no_mangle)]
pub extern "C" fn asdf_edit(file: &mut [u8], text: &[u8]) -> u64
    ensures { EditExported file.old text.now file.new result }
{
    word::counted(edit::edit(file, text).and(Ok(0)))
}

// Puts the numbers of the layout of a file.
fn put_layout(file: &[u8], out: &mut [u8]) -> Result<u64, Refusal>
    ensures { Written (layout_bytes file.now) out.old out.new result }
{
    let layout = file::layout::read(file)?;
    word::put_numbers(out, &fields::layout_fields(layout))
}

// Puts the numbers of the block with this ordinal of a file.
fn put_block(file: &[u8], ordinal: u64, out: &mut [u8]) -> Result<u64, Refusal>
    ensures { Written (found_bytes block_fields (block_at file.now ordinal)) out.old out.new result }
{
    let block = file::layout::block(file, ordinal)?;
    put_found(block.map(fields::block_fields), out)
}

// Puts the numbers of row `k` of a stored outline.
fn put_stored_row(stored: &[u8], k: u64, out: &mut [u8]) -> Result<u64, Refusal>
    ensures { Written (found_bytes row_fields (stored_at stored.now k)) out.old out.new result }
{
    let row = outline::stored::row(stored, k)?;
    put_found(row.map(fields::row_fields), out)
}

// Puts the numbers that were found. If nothing was found, no bytes are put.
fn put_found<const N: usize>(found: Option<[u64; N]>, out: &mut [u8]) -> Result<u64, Refusal>
    ensures { Written (accepted (found_numbers (λ ns. ns) found.entry)) out.old out.new result }
{
    match found {
        None => Ok(0),
        Some(numbers) => word::put_numbers(out, &numbers),
    }
}
