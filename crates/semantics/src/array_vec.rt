// A list of at most N items, kept in an array: no call allocates, so it is no `Vec`.
ghost use Rattle.std.specs.Prelude.{◌≡◌, ◌≤◌, length, ⊤};

use std::alloc::AllocError;

pub mod methods;

pub struct ArrayVec<T, const N: usize> {
    items: [T; N],
    count: usize,
    ghost few: { count ≤ N },
    ghost long: { length items ≡ N },
}

// By hand: `Clone` cannot be derived for a generic struct with a ghost field.
impl<T: Copy, const N: usize> Clone for ArrayVec<T, N> {
    ghost is_clone = { λ x y. y ≡ x };

    ghost is_infallible = { λ _. ⊤ };

    fn clone(&self) -> Result<Self, AllocError> {
        Ok(*self)
    }
}

impl<T: Copy, const N: usize> Copy for ArrayVec<T, N> {}
