// A word: a stretch of the source, with the place of its first byte.
#[derive(Clone, Copy, Drop)]
pub struct Word<'a> {
    pub text: &'a [u8],
    pub place: usize,
}
