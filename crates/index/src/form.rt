// The form of an index: the text around its list.
ghost use Rattle.std.specs.Prelude.{◌≡◌, drop};
ghost use Rattle.format.specs.Line.{lines};
ghost use Rattle.format.specs.Index.{indexed, styled, in_brackets};
ghost use Rattle.index.specs.Verdict.{numbers_in, bytes_in, EndRead};

use scan::{line, text};

// Where the numbers of an index are.
#[derive(Clone, Copy)]
pub enum Numbers<'a> {
    // In this list between brackets.
    InBrackets(&'a [u8]),
    // On these lines, each number after a dash. The end line is not looked for yet.
    AfterDashes(&'a [u8]),
}

// Finds the numbers in a tail that has the form of an index around them.
pub(crate) fn find_numbers(t: &[u8]) -> Option<Numbers<'_>>
    ensures { numbers_in result ≡ indexed (lines t.now) }
{
    let (second, _) = line::exact_line(t, 0, b"#ASDF BLOCK INDEX")?;
    let (third, _) = line::exact_line(t, second, b"%YAML 1.1")?;
    styled_numbers(t, third)
}

// Finds the numbers whose start line begins at an offset. That line determines the style.
fn styled_numbers(t: &[u8], at: usize) -> Option<Numbers<'_>>
    ensures { numbers_in result ≡ styled (lines (drop at t.now)) }
{
    let line = line::line_at(t, at)?;
    let start = &t[at..line.text_end];
    if text::is(start, b"---") {
        return Some(Numbers::AfterDashes(&t[line.next..]));
    }
    if !ends_at(t, line.next) {
        return None;
    }
    let list = in_brackets(start)?;
    Some(Numbers::InBrackets(list))
}

// Whether an index ends at an offset: with the end line, and only zeros after it.
fn ends_at(t: &[u8], at: usize) -> bool
    ensures { EndRead t.now at result }
{
    let Some((end, _)) = line::exact_line(t, at, b"...") else {
        return false;
    };
    text::only_zeros(&t[end..])
}

// Returns what is between `--- [` and the `]` at the end of a line.
fn in_brackets(t: &[u8]) -> Option<&[u8]>
    ensures { bytes_in result ≡ in_brackets t.now }
{
    t.strip_prefix(b"--- [")?.strip_suffix(b"]")
}
