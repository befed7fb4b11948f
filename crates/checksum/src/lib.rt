// Checks the data of a block against the checksum in its header.
#![tactic(auto)]

ghost use Rattle.std.specs.Prelude.{◌+◌, ◌≤◌, ◌≡◌, length};
ghost use Rattle.format.specs.Check.{is_checksum, check_block, checked};
ghost use Rattle.format.specs.File.{most_bytes};
ghost use Rattle.format.specs.Nest.{content_at};
ghost use Rattle.md5_parts.specs.Md5.{md5 as Md5·md5};

use file::layout;
use format::answer::Check;
use format::block::{Block, has_checksum};
use format::refusal::{Reason, Refusal};
use md5_parts::state::Md5;

// Checks the data of the block with this ordinal. If there is no such block, refuses with number 25.
pub fn check(file: &[u8], ordinal: u64) -> Result<Check, Refusal>
    ensures { result ≡ checked Md5·md5 file.now ordinal }
{
    let found = layout::block(file, ordinal)?;
    let block = found.ok_or(Refusal::new(Reason::NoSuchBlock, 0))?;
    Ok(check_block(file, block))
}

// Checks the data of a block whose content is inside the file.
fn check_block(file: &[u8], b: Block) -> Check
    requires used_in_bounds { content_at b + b.used ≤ length file.now }
    requires file_len_bound { length file.now ≤ most_bytes }
    ensures { result ≡ check_block Md5·md5 file.now b }
{
    if !has_checksum(b.checksum_high, b.checksum_low) {
        return Check::NotStated;
    }
    let from = b.at.0 as usize + 6 + usize::from(b.header_size);
    let to = from + b.used as usize;
    let digest = digest_of(&file[from..to]);
    if is_checksum(&digest, b) {
        Check::Agrees
    } else {
        Check::Differs
    }
}

// The MD5 of bytes that are no more than a file may have. They are one part.
fn digest_of(s: &[u8]) -> [u8; 16]
    requires { length s.now ≤ most_bytes }
    ensures { result ≡ Md5·md5 s.now }
{
    Md5::new().part(s).state.digest()
}

// Whether a digest is the checksum of a block.
fn is_checksum(digest: &[u8; 16], b: Block) -> bool
    ensures { result ≡ is_checksum digest.now b }
{
    let (halves, _) = digest.as_chunks::<8>();
    u64::from_be_bytes(halves[0]) == b.checksum_high
        && u64::from_be_bytes(halves[1]) == b.checksum_low
}
