// What is reported about a block.
ghost use Rattle.std.specs.Prelude.{◌≡◌, ◌%◌};
ghost use Rattle.format.specs.Block.{is_compressed, has_checksum};
ghost use Rattle.format.specs.Outline.{inner_kind, kind_number, kind_with};

use crate::offset::{Offset, OutermostOffset};
use crate::refusal::Refusal;

// A block of one file, without regard to the files around it.
#[derive(Clone, Copy)]
pub struct Block {
    // Its number in its file, counted from 0.
    pub ordinal: u8,
    // Its first byte, in its file.
    pub at: Offset,
    pub header_size: u16,
    // Bit 0 is STREAMED.
    pub flags: u32,
    // The four bytes of the name, the first the most significant; 0 for none. The definitions `is_compressed` and
    // `block_fields` speak of this number, so it is no Option.
    pub compression: u32,
    // The three sizes. In a streamed block, each is the length of its content.
    pub allocated: u64,
    pub used: u64,
    pub data_size: u64,
    // The sixteen bytes of the checksum, in two halves; both are 0 for none, as `has_checksum` says.
    pub checksum_high: u64,
    pub checksum_low: u64,
}

// The inner state: what a block's content is as a file of its own.
#[derive(Clone, Copy)]
pub enum Inner {
    // The content is compressed or does not begin like a file.
    Plain,
    // The content is accepted as a file.
    Opened,
    // The content begins like a file and is refused. The place counts from its first byte.
    Refused(Refusal),
    // The content begins like a file but is deeper than files are read.
    TooDeep,
}

impl Inner {
    // Returns the inner state without its refusal, as a row has it.
    pub fn kind(self) -> InnerKind
        ensures { result ≡ inner_kind self }
    {
        match self {
            Inner::Plain => InnerKind::Plain,
            Inner::Opened => InnerKind::Opened,
            Inner::Refused(_) => InnerKind::Refused,
            Inner::TooDeep => InnerKind::TooDeep,
        }
    }
}

// An inner state without its refusal.
#[derive(Clone, Copy, Debug, PartialEq, Eq)]
pub enum InnerKind {
    Plain,
    Opened,
    Refused,
    TooDeep,
}

impl InnerKind {
    // Returns the number that stands for it in a row and in a record: 0 to 3.
    pub fn number(self) -> u8
        ensures { result ≡ kind_number self }
    {
        self as u8
    }

    // Returns the kind that two bits of a row stand for. Of a larger number, only the lowest two bits count. Every number has
    // a kind, so this is no `TryFrom`, which would add an error that can't come.
    pub fn of_bits(bits: u64) -> InnerKind
        ensures { result ≡ kind_with (bits % 4) }
    {
        match bits % 4 {
            0 => InnerKind::Plain,
            1 => InnerKind::Opened,
            2 => InnerKind::Refused,
            _ => InnerKind::TooDeep,
        }
    }
}

// A block among all blocks of an outermost file, in walking order.
#[derive(Clone, Copy)]
pub struct Record {
    // How many files surround the block's own file.
    pub depth: u8,
    // Its first byte, in the outermost file.
    pub at: OutermostOffset,
    pub block: Block,
    pub inner: Inner,
}

// Whether a block with this compression name is compressed. 0 means that it is not.
pub fn is_compressed(name: u64) -> bool
    ensures { result ≡ is_compressed name }
{
    name != 0
}

// Whether these two halves of a checksum state one. Zeros in both mean that there is none. Both halves are tested,
// without a branch.
pub fn has_checksum(high: u64, low: u64) -> bool
    ensures { result ≡ has_checksum high low }
{
    (high != 0) | (low != 0)
}
