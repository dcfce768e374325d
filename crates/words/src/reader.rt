// The word reader. How it reads stands in `reading`, since the contracts there cite definitions over this struct.
ghost use Rattle.std.specs.Prelude.{◌≡◌, ◌≤◌, length};

mod reading;

// Whether the reader is between words, or inside one that began at a place.
// No Option: docs/DECISIONS.md wants reading as one match on the reader's own condition and the byte's class, in these words, which specs/ speaks too.
#[derive(Clone, Copy, Drop)]
pub enum Condition {
    Between,
    Inside(usize),
}

// Goes over the source from word to word. Between two calls it is between words.
#[derive(Drop)]
pub struct Reader<'a> {
    source: &'a [u8],
    at: usize,
    ghost within: { at ≤ length source.now },
}

impl<'a> Reader<'a> {
    // The source that is read.
    pub fn source(&self) -> &'a [u8]
        ensures { result ≡ self.now.source }
    {
        self.source
    }
}
