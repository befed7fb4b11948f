// The spaces around a number. Only the byte 20 is a space here: the library's `trim_ascii` takes more.
ghost use Rattle.std.specs.Prelude.{◌≡◌};
ghost use Rattle.format.specs.Index.{trim_start as Index·trim_start, trim_end as Index·trim_end, trim as Index·trim};

// Returns `t` without the spaces at its start and at its end.
pub(crate) fn trim(t: &[u8]) -> &[u8]
    ensures { result.now ≡ Index·trim t.now }
{
    trim_end(trim_start(t))
}

fn trim_start(t: &[u8]) -> &[u8]
    ensures { result.now ≡ Index·trim_start t.now }
{
    let mut left = t;
    while let Some(rest) = left.strip_prefix(b" ") {
        left = rest;
    }
    left
}

pub(crate) fn trim_end(t: &[u8]) -> &[u8]
    ensures { result.now ≡ Index·trim_end t.now }
{
    let mut left = t;
    while let Some(rest) = left.strip_suffix(b" ") {
        left = rest;
    }
    left
}
