//! A list in memory of a fixed size.
pub mod calls;

ghost use Rattle.std.specs.Prelude.{◌≡◌, ◌≤◌, ⊤};

use std::alloc::AllocError;

/// Up to `N` items, in order. What stands past the last of them is free: no call answers it. It is a buffer with a length
/// beside, for libraries that do not allocate.
#[derive(Copy)]
pub struct FixedList<T: Copy, const N: usize> {
    items: [T; N],
    count: usize,
    ghost few: { count ≤ N },
}

// A copy of the whole memory; none is derived where a struct has a ghost field and a type parameter.
impl<T: Copy, const N: usize> Clone for FixedList<T, N> {
    ghost is_clone = { λ x y. y ≡ x };

    ghost is_infallible = { λ _. ⊤ };

    fn clone(&self) -> Result<Self, AllocError> {
        Ok(*self)
    }
}
