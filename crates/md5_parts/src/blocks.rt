// Blocks, read where they are.
ghost use Rattle.std.specs.Prelude.{◌≡◌};
ghost use Rattle.std.specs.List.{fold};
ghost use Rattle.md5_parts.specs.Md5.{compressed};

use crate::rounds::compress;
use crate::words::Words;

// The words `w` after these blocks.
pub(crate) fn blocks(w: Words, blocks: &[[u8; 64]]) -> Words
    ensures { result ≡ fold compressed w blocks.now }
{
    blocks.iter().fold(w, compress)
}
