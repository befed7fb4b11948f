// An accepted file whose blocks can be found without reading it again.
ghost use Rattle.std.specs.Prelude.{◌≡◌};
ghost use Rattle.format.specs.Outcome.{accepted};
ghost use Rattle.file.specs.Open.{file_offsets};

// The bytes of an accepted file, and where each of its blocks begins.
#[derive(Clone, Copy)]
pub struct OpenFile<'a> {
    pub bytes: &'a [u8],
    pub offsets: &'a [u64],
    pub ghost kept: { file_offsets bytes.now ≡ accepted offsets.now },
}
