// The verdict on a block index.
ghost use Rattle.std.specs.Prelude.{◌≡◌};
ghost use Rattle.format.specs.Line.{lines};
ghost use Rattle.format.specs.Index.{judged, indexed};
ghost use Rattle.index.specs.Verdict.{compared};

use crate::form::Numbers;
use crate::{dashes, form, list};
use format::layout::Verdict;

// Judges the tail `t` of a file whose blocks begin at these offsets. Whether there is an index at all is decided
// before: here, a tail of only zeros has the wrong form.
pub fn judge(t: &[u8], offsets: &[u64]) -> Verdict
    ensures { result ≡ judged offsets.now (indexed (lines t.now)) }
{
    match compare(t, offsets) {
        None => Verdict::IgnoredForm,
        Some(true) => Verdict::Good,
        Some(false) => Verdict::IgnoredList,
    }
}

// Whether the numbers of an index are these offsets, if the tail `t` has the form of an index.
fn compare(t: &[u8], offsets: &[u64]) -> Option<bool>
    ensures { result ≡ compared offsets.now (indexed (lines t.now)) }
{
    match form::find_numbers(t)? {
        Numbers::InBrackets(list) => list::compare(list, offsets),
        Numbers::AfterDashes(lines) => dashes::compare(lines, offsets),
    }
}
