// How a line ends.
#[derive(Clone, Copy)]
pub enum LineEnd {
    // The byte 0A.
    Lf,
    // The bytes 0D 0A.
    Crlf,
}
