// The header: `#ASDF`, one space, a version and a line end.
ghost use Rattle.std.specs.Prelude.{◌≡◌};
ghost use Rattle.format.specs.Header.{header, version};
ghost use Rattle.format.specs.Numeral.{numeral};

use format::layout::{Header, Version};
use format::offset::Offset;
use format::refusal::{Reason, Refusal};
use scan::{line, number, text};

// Reads the header of a file.
pub fn read_header(s: &[u8]) -> Result<Header, Refusal>
    ensures { result ≡ header s.now }
{
    if !text::begins_at(s, 0, b"#ASDF ") {
        return Err(Refusal::new(Reason::NotAsdf, 0));
    }
    let malformed = Refusal::new(Reason::VersionMalformed, 6);
    let line = line::line_at(s, 6).ok_or(malformed)?;
    let version = read_version(&s[6..line.text_end]).ok_or(malformed)?;
    if version.major != 1 {
        return Err(Refusal::new(Reason::VersionNotOne, 6));
    }
    Ok(Header {
        version,
        line_end: line.ending,
        end: Offset(line.next as u64),
    })
}

// The length of the longest version, in bytes: three numbers of four digits, and two points.
const MOST_VERSION: usize = 14;

// Reads a version: three numbers of 1 to 4 digits, joined by points. A line may be as long as the file, so a text that
// is too long for a version is not looked at.
fn read_version(t: &[u8]) -> Option<Version>
    ensures { result ≡ version t.now }
{
    if MOST_VERSION < t.len() {
        return None;
    }
    let mut parts = t.split(|b| *b == b'.');
    let major = number(parts.next()?)?;
    let minor = number(parts.next()?)?;
    let patch = number(parts.next()?)?;
    if parts.next().is_some() {
        return None;
    }
    Some(Version {
        major,
        minor,
        patch,
    })
}

// Reads one of the numbers of a version.
fn number(t: &[u8]) -> Option<u16>
    ensures { result ≡ numeral 4 t.now }
{
    let x = number::numeral(t, 4)?;
    Some(x as u16)
}
