// The numbers of an index with dashes: each is on a line of its own, after a dash.
ghost use Rattle.std.specs.Prelude.{◌≡◌};
ghost use Rattle.format.specs.Line.{lines};
ghost use Rattle.format.specs.Index.{at_least_one, dash_numbers, dashed};
ghost use Rattle.index.specs.Verdict.{compared};

use crate::list::Comparison;
use crate::spaces;
use scan::{line, number, text};

// Whether the numbers on the lines of `t`, up to the end line, are these offsets, if these lines have the form of a
// list. All of them are read, even after one that does not agree, because the form comes first. The loop goes from
// offset to offset, as `scan::line` says.
pub(crate) fn compare(t: &[u8], offsets: &[u64]) -> Option<bool>
    ensures { result ≡ compared offsets.now (at_least_one (dash_numbers (lines t.now))) }
{
    let mut comparison = Comparison::new(offsets);
    let mut at = 0;
    while let Some(line) = line::line_at(t, at) {
        let text = &t[at..line.text_end];
        if text::is(text, b"...") {
            let empty = at == 0;
            if empty || !text::only_zeros(&t[line.next..]) {
                return None;
            }
            return Some(comparison.is_good());
        }
        let x = dash_number(text)?;
        comparison.add(x);
        at = line.next;
    }
    None
}

// Reads the number on a line: a dash, one space, the number, and any number of spaces.
fn dash_number(t: &[u8]) -> Option<u64>
    ensures { result ≡ dashed t.now }
{
    let digits = t.strip_prefix(b"- ")?;
    number::numeral(spaces::trim_end(digits), 10)
}
