// Refusals: their reasons and places.
ghost use Rattle.std.specs.Prelude.{◌≡◌};
ghost use Rattle.format.specs.Outcome.{refusal};
ghost use Rattle.format.specs.Reason.{reason_number};

use crate::offset::Offset;

// Why something was refused, with the number that C programs and listings get. docs/REFUSALS.md says what each means, and
// the definitions in specs/ say when each is given.
#[derive(Clone, Copy, Debug, PartialEq, Eq)]
pub enum Reason {
    FileTooLong = 1,
    NotAsdf = 2,
    VersionMalformed = 3,
    VersionNotOne = 4,
    CommentNotEnded = 5,
    IndexAmongComments = 6,
    NeitherTreeNorBlock = 7,
    WrongLineBeforeStart = 8,
    SecondStartLine = 9,
    TreeNotEnded = 10,
    HeaderPassesEnd = 11,
    HeaderTooSmall = 12,
    UsedAboveAllocated = 13,
    DataSizeDiffers = 14,
    AllocatedPassesEnd = 15,
    TooManyBlocks = 16,
    StrayTail = 17,
    EditWithoutTree = 18,
    TextNotOneTree = 19,
    TextLongerThanRoom = 20,
    BufferTooShort = 21,
    NoIndexPossible = 22,
    OutlineLength = 23,
    OutlineRow = 24,
    NoSuchBlock = 25,
}

impl Reason {
    // Returns the number of the reason: 1 to 25. A method says what the number is; `as` does the work.
    pub fn number(self) -> u8
        ensures { result ≡ reason_number self }
    {
        self as u8
    }
}

// The reason says why something was refused, and the place says where. In this repository the reason is always a
// `Reason`. A caller that has only the number, as C gets it, can make a refusal with that.
#[derive(Clone, Copy)]
pub struct Refusal<R = Reason> {
    pub reason: R,
    pub place: Offset,
}

impl<R> Refusal<R> {
    // Makes the refusal for this reason, at this place of what was lent.
    pub fn new(reason: R, place: usize) -> Refusal<R>
        ensures { result ≡ refusal reason place }
    {
        Refusal {
            reason,
            place: Offset(place as u64),
        }
    }
}
