// Exports both searches for a mark, so that other programs can compare and time them. The core does not depend on this
// crate, and the core's static library contains nothing of it.
#![tactic(auto)]

ghost use Rattle.mark.specs.Mark.{MarkFound};

// Returns where the first mark at or after an offset begins, or the end if there is none.
#[unsafe(no_mangle)]
pub extern "C" fn bench_find_mark(s: &[u8], at: usize) -> usize
    ensures { MarkFound s.now at result }
{
    mark::find(s, at)
}

// Returns the same, but looks at every byte.
#[unsafe(no_mangle)]
pub extern "C" fn bench_find_mark_plain(s: &[u8], at: usize) -> usize
    ensures { MarkFound s.now at result }
{
    mark::find_plain(s, at)
}
