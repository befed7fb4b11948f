// The running state of a digest whose bytes come in parts.
ghost use Rattle.std.specs.Prelude.{◌≡◌, ◌+◌, ◌≤◌, length};
ghost use Rattle.format.specs.File.{most_bytes};
ghost use Rattle.md5_parts.specs.State.{starting, held, next, fed, digest as State·digest};

use crate::blocks::blocks;
use crate::padding::{digest_of, finish, joined};
use crate::words::Words;
use format::limits::MOST_BYTES;
use format::refusal::{Reason, Refusal};

// The words after all whole blocks so far, the bytes after these blocks, at the start of `pending`, and how many bytes
// there were in all. The bytes are an array with the count beside it, since there is no heap and a kept state has this
// form; `held` gives them as a slice.
#[derive(Clone, Copy, Debug, PartialEq, Eq)]
pub struct Md5 {
    pub words: Words,
    pub pending: [u8; 64],
    pub count: u64,
}

// The state that comes back, and the answer to the part. The two stand side by side, and not in one `Result`, since the
// state comes back after a refusal too.
#[derive(Clone, Copy)]
pub struct Fed {
    pub state: Md5,
    pub answer: Result<(), Refusal>,
}

impl Md5 {
    // The state before any byte.
    pub fn new() -> Md5
        ensures { result ≡ starting }
    {
        Md5 {
            words: Words {
                a: 0x67452301,
                b: 0xefcdab89,
                c: 0x98badcfe,
                d: 0x10325476,
            },
            pending: [0; 64],
            count: 0,
        }
    }

    // Takes a part. If there would be more bytes than a file may have, the state stays as it is.
    pub fn part(mut self, bytes: &[u8]) -> Fed
        ensures { result ≡ fed self bytes.now }
    {
        if self.count.saturating_add(bytes.len() as u64) > MOST_BYTES as u64 {
            return Fed {
                state: self,
                answer: Err(Refusal::new(Reason::FileTooLong, 0)),
            };
        }
        self.add(bytes);
        Fed {
            state: self,
            answer: Ok(()),
        }
    }

    // The digest of all bytes so far.
    pub fn digest(self) -> [u8; 16]
        ensures { result ≡ State·digest self }
    {
        digest_of(finish(self.words, self.held(), self.count))
    }

    // The bytes after the last whole block.
    fn held(&self) -> &[u8]
        ensures { result.now ≡ held self.now }
    {
        &self.pending[..(self.count % 64) as usize]
    }

    // Adds a part.
    fn add(&mut self, bytes: &[u8])
        requires { self.old.count + length bytes.now ≤ most_bytes }
        ensures { self.new ≡ next self.old bytes.now }
    {
        let room = 64 - self.held().len();
        if bytes.len() < room {
            self.pending = joined(self.held(), bytes);
        } else {
            let (front, rest) = bytes.split_at(room);
            let first = joined(self.held(), front);
            let (whole, left) = rest.as_chunks::<64>();
            let words = blocks(self.words, &[first]);
            self.words = blocks(words, whole);
            self.pending = joined(left, &[]);
        }
        self.count += bytes.len() as u64;
    }
}
