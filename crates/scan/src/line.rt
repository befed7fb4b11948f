// Lines. A line ends at the first 0A, and one 0D directly before it belongs to the line end.
// The library has no iterator over such lines. Four walks go along lines (comments, the two parts of a tree, an index
// with dashes): each calls `line_at` with the offset where the line before ended, and each needs that offset, for a
// refusal, as its answer or for the bytes that follow. An iterator would give back the same three numbers, and its own
// laws would come on top.
ghost use Rattle.std.specs.Prelude.{◌-◌, ◌≤◌, ◌≡◌, length};
ghost use Rattle.format.specs.Tree.{yaml_line};
ghost use Rattle.scan.specs.Line.{LineRead, ExactRead};

use crate::{find, text};
use format::line::LineEnd;

// A line. Its text ends at `text_end`, where its line end begins. The next line begins at `next`.
#[derive(Clone, Copy)]
pub struct Line {
    pub text_end: usize,
    pub next: usize,
    pub ending: LineEnd,
}

// Reads the line that begins at an offset, if a 0A follows. If its first byte is 0A, the line is empty and no search is
// needed. This and `long_line` are put into their callers' loops, where a line stays in registers: a call hands it back
// through memory, and lines of one to three bytes took 1.2 to 1.3 times as long.
#[inline(always)]
pub fn line_at(s: &[u8], at: usize) -> Option<Line>
    ensures { LineRead s.now at result }
{
    if text::begins_at(s, at, b"\n") {
        return Some(Line {
            text_end: at,
            next: at + 1,
            ending: LineEnd::Lf,
        });
    }
    long_line(s, at)
}

// Reads the same line, without the shortcut for an empty one.
#[inline(always)]
fn long_line(s: &[u8], at: usize) -> Option<Line>
    ensures { LineRead s.now at result }
{
    if s.len() <= at {
        return None;
    }
    let end = find::find_byte(s, at, b'\n');
    if end == s.len() {
        return None;
    }
    if at < end && s[end - 1] == b'\r' {
        return Some(Line {
            text_end: end - 1,
            next: end + 1,
            ending: LineEnd::Crlf,
        });
    }
    Some(Line {
        text_end: end,
        next: end + 1,
        ending: LineEnd::Lf,
    })
}

// If the line at an offset is `word`, returns where the next line begins, and how this line ends.
pub fn exact_line(s: &[u8], at: usize, word: &[u8]) -> Option<(usize, LineEnd)>
    ensures { ExactRead s.now word.now at result }
{
    let line = long_line(s, at)?;
    if text::is(&s[at..line.text_end], word) {
        return Some((line.next, line.ending));
    }
    None
}

// Does the same for the first line of a tree. Looks at no byte after that line.
pub fn yaml_line(s: &[u8], at: usize) -> Option<(usize, LineEnd)>
    ensures { ExactRead s.now yaml_line at result }
{
    if text::begins_at(s, at, b"%YAML 1.1\n") {
        return Some((at + 10, LineEnd::Lf));
    }
    if text::begins_at(s, at, b"%YAML 1.1\r\n") {
        return Some((at + 11, LineEnd::Crlf));
    }
    None
}
