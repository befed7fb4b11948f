// The tree and the free space after it.
ghost use Rattle.std.specs.Prelude.{◌≡◌, drop};
ghost use Rattle.format.specs.Line.{lines};
ghost use Rattle.format.specs.Tree.{is_start, is_directive, content, directives, tree};
ghost use Rattle.format.specs.Edit.{is_one_tree};

use format::layout::Tree;
use format::offset::Offset;
use format::refusal::{Reason, Refusal};
use scan::{line, text};

// Reads what is at an offset: no tree, or a tree with its room.
pub fn read_tree(s: &[u8], at: usize) -> Result<Option<Tree>, Refusal>
    ensures { result ≡ tree at s.now }
{
    let Some((next, _)) = line::yaml_line(s, at) else {
        return Ok(None);
    };
    let end = directives_end(s, next)?;
    Ok(Some(Tree {
        start: Offset(at as u64),
        end: Offset(end as u64),
        room_end: Offset(mark::find(s, end) as u64),
    }))
}

// Whether a text is exactly one tree, with nothing before or after it.
pub fn is_one_tree(t: &[u8]) -> bool
    ensures { result ≡ is_one_tree t.now }
{
    let Some((next, _)) = line::yaml_line(t, 0) else {
        return false;
    };
    directives_end(t, next).is_ok_and(|end| end == t.len())
}

// Returns where a tree ends. The line after its first line begins at `from`. This and `content_end` go from offset to
// offset, as `scan::line` says. They have one shape, but share no test and no outcome: as closures of one walk these
// would take more lines.
fn directives_end(s: &[u8], from: usize) -> Result<usize, Refusal>
    ensures { result ≡ directives from (lines (drop from s.now)) }
{
    let mut at = from;
    while let Some(line) = line::line_at(s, at) {
        let text = &s[at..line.text_end];
        if is_start(text) {
            return content_end(s, line.next);
        }
        if !is_directive(text) {
            return Err(Refusal::new(Reason::WrongLineBeforeStart, at));
        }
        at = line.next;
    }
    Err(Refusal::new(Reason::TreeNotEnded, at))
}

// Returns where a tree ends. The line after its start line begins at `from`.
fn content_end(s: &[u8], from: usize) -> Result<usize, Refusal>
    ensures { result ≡ content from (lines (drop from s.now)) }
{
    let mut at = from;
    while let Some(line) = line::line_at(s, at) {
        let text = &s[at..line.text_end];
        if text::is(text, b"...") {
            return Ok(line.next);
        }
        if is_start(text) {
            return Err(Refusal::new(Reason::SecondStartLine, at));
        }
        at = line.next;
    }
    Err(Refusal::new(Reason::TreeNotEnded, at))
}

// Whether a line is a start line: `---` alone, or `---`, a space and anything after it.
fn is_start(t: &[u8]) -> bool
    ensures { result ≡ is_start t.now }
{
    text::is(t, b"---") || text::begins_at(t, 0, b"--- ")
}

fn is_directive(t: &[u8]) -> bool
    ensures { result ≡ is_directive t.now }
{
    text::begins_at(t, 0, b"%") || text::begins_at(t, 0, b"#")
}
