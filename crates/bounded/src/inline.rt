// A short list that lies in the value that owns it.
ghost use Rattle.std.specs.Prelude.{◌≡◌, ◌≤◌, ⊤};

use std::alloc::AllocError;

pub mod operations;

// At most `N` items. The array behind them is whole from the start, so that a copy of the value is a copy of the list: the kit's `ArrayVec` is
// not `Copy`, as alphabets, words, blocks and symbols of a case are.
#[derive(Drop)]
pub struct InlineList<T, const N: usize> {
    items: [T; N],
    // how many of them there are, from the front
    count: usize,
    ghost within: { count ≤ N },
}

// By hand, as no derive goes over a ghost field of a generic struct.
impl<T: Copy, const N: usize> Clone for InlineList<T, N> {
    ghost is_clone = { λ a b. b ≡ a };

    ghost is_infallible = { λ _. ⊤ };

    fn clone(&self) -> Result<InlineList<T, N>, AllocError> {
        Ok(*self)
    }
}

impl<T: Copy, const N: usize> Copy for InlineList<T, N> {}
