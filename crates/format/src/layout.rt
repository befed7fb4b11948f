// What is reported about one file, without the files inside its blocks.
use crate::line::LineEnd;
use crate::offset::Offset;

// The three numbers of the version in the header.
#[derive(Clone, Copy)]
pub struct Version {
    pub major: u16,
    pub minor: u16,
    pub patch: u16,
}

// The first line. Its end is after the line end. The line end is next to the version, where it takes no extra memory.
#[derive(Clone, Copy)]
pub struct Header {
    pub version: Version,
    pub line_end: LineEnd,
    pub end: Offset,
}

// Where a tree is: from `start` to `end`. The room, which an edit may fill, runs from `start` to `room_end`: the first
// block, or the end of the file.
#[derive(Clone, Copy)]
pub struct Tree {
    pub start: Offset,
    pub end: Offset,
    pub room_end: Offset,
}

// The verdict on the block index.
#[derive(Clone, Copy)]
pub enum Verdict {
    Absent,
    Good,
    // The tail begins like an index but does not have the form of one.
    IgnoredForm,
    // The tail has the form of an index, but its list is not the list of the blocks' offsets.
    IgnoredList,
}

// The parts of an accepted file. Its blocks are only counted here.
#[derive(Clone, Copy)]
pub struct Layout {
    pub header: Header,
    // The comments run from the header's end to here.
    pub comments_end: Offset,
    pub tree: Option<Tree>,
    pub blocks: u8,
    pub verdict: Verdict,
}
