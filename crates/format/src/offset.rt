// Offsets inside a file and offsets in the outermost file. Their types keep them apart.
ghost use Rattle.std.specs.Prelude.{◌≡◌};
ghost use Rattle.format.specs.Bytes.{wrapped};

// An offset from the first byte of what was lent: a file at any depth, or a stored outline.
#[derive(Clone, Copy)]
pub struct Offset(pub u64);

// An offset from the first byte of the outermost file. Only this module can make one.
#[derive(Clone, Copy)]
pub struct OutermostOffset(u64);

impl OutermostOffset {
    // Returns where the outermost file starts.
    pub fn start() -> OutermostOffset
        ensures { result.0 ≡ 0 }
    {
        OutermostOffset(0)
    }

    // Returns the offset as a plain number. It is a method and no `From`, so that the place where the types stop keeping
    // offsets apart can be seen.
    pub fn number(self) -> u64
        ensures { result ≡ self.0 }
    {
        self.0
    }
}

impl Offset {
    // Returns the offset of the same byte in the outermost file. This is the only conversion from inside a file to the
    // outermost file. `content` is where the first byte of this file is in the outermost file.
    pub fn outermost(self, content: OutermostOffset) -> OutermostOffset
        ensures { result.0 ≡ wrapped content.0 self.0 }
    {
        OutermostOffset(content.0.wrapping_add(self.0))
    }
}
