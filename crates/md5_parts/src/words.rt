// Words of 32 bits.

// The four words that one block passes on to the next.
#[derive(Clone, Copy, Debug, PartialEq, Eq)]
pub struct Words {
    pub a: u32,
    pub b: u32,
    pub c: u32,
    pub d: u32,
}
