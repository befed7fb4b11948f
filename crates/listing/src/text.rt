// Puts the parts of the text at an offset of a buffer. Each function returns where its part ends, even if the buffer is
// too short: to measure a part, it is put into a buffer that is too short for it. Each promise states the maximum
// number of bytes in the part.
ghost use Rattle.std.specs.Prelude.{◌*◌, ◌/◌, length};
ghost use Rattle.format.specs.Listing.{printed, row_text, tree_text};
ghost use Rattle.format.specs.Outcome.{refused};
ghost use Rattle.format.specs.Outline.{row_bytes};
ghost use Rattle.listing.specs.Text.{file_text, line_text, most_file, most_line, most_row, most_short, row_texts, verdict_text};
ghost use Rattle.put.specs.Put.{PutAt};

use format::layout::{Tree, Verdict};
use format::limits::ROW_BYTES;
use format::refusal::Refusal;
use format::row::Row;
use outline::row;
use put::decimal::put_decimals;
use put::text::put_text;

// Puts one line: a text, the numbers with a space between each two, and a line end.
fn put_line(out: &mut [u8], at: usize, start: &[u8], numbers: &[u64]) -> usize
    ensures { PutAt out.old out.new at (line_text start.now numbers.now) (most_line (length start.now) (length numbers.now)) result }
{
    let from = put_text(out, at, start);
    let to = put_decimals(out, from, b" ", numbers);
    put_text(out, to, b"\n")
}

// Puts the line of a refusal.
pub(crate) fn put_refused(out: &mut [u8], r: Refusal) -> usize
    ensures { PutAt out.old out.new 0 (printed (refused r)) most_short result }
{
    let numbers = [r.reason.number() as u64, r.place.0];
    put_line(out, 0, b"refused ", &numbers)
}

// Puts the line of a tree.
fn put_tree(out: &mut [u8], t: Option<Tree>) -> usize
    ensures { PutAt out.old out.new 0 (tree_text t) most_short result }
{
    match t {
        None => put_text(out, 0, b"tree none\n"),
        Some(t) => {
            let numbers = [t.start.0, t.end.0];
            put_line(out, 0, b"tree ", &numbers)
        }
    }
}

// Puts the line of a row. The bound is the bound for any ten numbers, because this function does not know that the row
// was read from sixteen bytes.
fn put_row(out: &mut [u8], at: usize, r: Row) -> usize
    ensures { PutAt out.old out.new at (row_text r) (most_line 0 10) result }
{
    let numbers = fields::row_fields(r);
    put_line(out, at, b"", &numbers)
}

// Puts the lines of all rows of an outline. Each part has sixteen bytes, so it is proved that there is a row to unwrap.
fn put_rows(out: &mut [u8], at: usize, b: &[u8]) -> usize
    ensures { PutAt out.old out.new at (row_texts (length b.now / row_bytes) b.now) (most_row * (length b.now / row_bytes)) result }
{
    let mut end = at;
    for bytes in b.as_chunks::<ROW_BYTES>().0 {
        end = put_row(out, end, row::read_row(bytes, 0).unwrap());
    }
    end
}

// Puts the line of a verdict.
fn put_verdict(out: &mut [u8], at: usize, v: Verdict) -> usize
    ensures { PutAt out.old out.new at (verdict_text v) most_short result }
{
    match v {
        Verdict::Absent => put_text(out, at, b"index absent\n"),
        Verdict::Good => put_text(out, at, b"index good\n"),
        Verdict::IgnoredForm => put_text(out, at, b"index ignored-form\n"),
        Verdict::IgnoredList => put_text(out, at, b"index ignored-list\n"),
    }
}

// Puts all lines of an accepted file whose outline is `b`.
pub(crate) fn put_file(out: &mut [u8], t: Option<Tree>, b: &[u8], v: Verdict) -> usize
    ensures { PutAt out.old out.new 0 (file_text t b.now v) (most_file (length b.now / row_bytes)) result }
{
    let tree_end = put_tree(out, t);
    let rows_end = put_rows(out, tree_end, b);
    put_verdict(out, rows_end, v)
}
