// Compares the numbers of an index with the offsets where the blocks begin.
ghost use Rattle.std.specs.Prelude.{◌≡◌, ℕ, List, [], ◌∷◌, Some};
ghost use Rattle.format.specs.Bytes.{same};
ghost use Rattle.format.specs.Index.{listed};
ghost use Rattle.index.specs.Verdict.{agrees, compared};

use crate::spaces;
use scan::number;
use std::slice::Iter;

// Whether the numbers in a list are these offsets, if it is a list of numbers. All of them are read, even after one that
// does not agree, because the form comes first. It stays a function of its own in the compiled code: inside its caller,
// the walk over the parts had no registers left, and a long list took 1.3 times as long.
#[inline(never)]
pub(crate) fn compare(list: &[u8], offsets: &[u64]) -> Option<bool>
    ensures { result ≡ compared offsets.now (listed (Some list.now)) }
{
    let mut comparison = Comparison::new(offsets);
    for part in list.split(|b| *b == b',') {
        let x = number::numeral(spaces::trim(part), 10)?;
        comparison.add(x);
    }
    Some(comparison.is_good())
}

// How far numbers are compared with offsets.
#[derive(Drop)]
pub struct Comparison<'a> {
    // The offsets that no number is compared with yet.
    left: Iter<'a, u64>,
    // Whether each number so far is its offset.
    agree: bool,
}

impl<'a> Comparison<'a> {
    pub(crate) fn new(offsets: &'a [u64]) -> Comparison<'a>
        ensures { (ns : List ℕ) → agrees result ns ≡ same ns offsets.now }
    {
        Comparison {
            left: offsets.iter(),
            agree: true,
        }
    }

    // Compares one more number with the next offset.
    pub(crate) fn add(&mut self, x: u64)
        ensures { (ns : List ℕ) → agrees self.new ns ≡ agrees self.old (x ∷ ns) }
    {
        self.agree = self.agree && self.left.next().is_some_and(|next| x == *next);
    }

    // Whether each number is its offset, and no offset is left.
    pub(crate) fn is_good(self) -> bool
        ensures { result ≡ agrees self.entry [] }
    {
        self.agree && self.left.len() == 0
    }
}
