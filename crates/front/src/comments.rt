// Comments: zero or more lines that begin with `#`.
ghost use Rattle.std.specs.Prelude.{◌≡◌, drop};
ghost use Rattle.format.specs.Line.{lines};
ghost use Rattle.format.specs.Comments.{comments};

use format::refusal::{Reason, Refusal};
use scan::{line, text};

// Returns the end of the comments that begin at an offset. The loop goes from offset to offset, as `scan::line` says.
pub fn comments_end(s: &[u8], from: usize) -> Result<usize, Refusal>
    ensures { result ≡ comments from (lines (drop from s.now)) }
{
    let mut at = from;
    while text::begins_at(s, at, b"#") {
        let Some(line) = line::line_at(s, at) else {
            return Err(Refusal::new(Reason::CommentNotEnded, at));
        };
        if text::is(&s[at..line.text_end], b"#ASDF BLOCK INDEX") {
            return Err(Refusal::new(Reason::IndexAmongComments, at));
        }
        at = line.next;
    }
    Ok(at)
}
