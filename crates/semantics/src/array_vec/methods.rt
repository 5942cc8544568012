// What is done with a bounded list.
ghost use Rattle.std.specs.Prelude.{◌≡◌, min, [], length, replicate, slice_index_or, slice_set};
ghost use Rattle.semantics.specs.Items.{items_of, pushed, room};

use crate::array_vec::ArrayVec;

impl<T: Copy, const N: usize> ArrayVec<T, N> {
    // The empty list. The filler stands where no item does, and means nothing.
    pub fn new(filler: T) -> Self
        ensures { items_of result ≡ [] }
    {
        ArrayVec {
            items: [filler; N],
            count: 0,
        }
    }

    // The item n times, at most N.
    #[tactic(auto, using(crate::proofs::Items::used_part))]
    pub fn repeat(item: T, n: usize) -> Self
        ensures { items_of result ≡ replicate (min n N) item }
    {
        ArrayVec {
            items: [item; N],
            count: n.min(N),
        }
    }

    pub fn as_slice(&self) -> &[T]
        ensures { result.now ≡ items_of self.now }
    {
        let all = &self.items[..];
        &all[0..self.count]
    }

    pub fn len(&self) -> usize
        ensures { result ≡ length (items_of self.now) }
    {
        self.as_slice().len()
    }

    // One item more; where the list is full nothing changes, and the item is handed back.
    pub fn push(&mut self, item: T) -> Result<(), T>
        ensures value { result ≡ room N (items_of self.old) item }
        ensures after { items_of self.new ≡ pushed N (items_of self.old) item }
    {
        let at = self.count;
        if at >= N {
            return Err(item);
        }
        self.items[at] = item;
        self.count = at + 1;
        Ok(())
    }

    // The item of that number, or another where there is none.
    pub fn get_or(&self, at: usize, other: T) -> T
        ensures { result ≡ slice_index_or (items_of self.now) at other }
    {
        self.as_slice().get(at).copied().unwrap_or(other)
    }

    // Another item in the place of that number, if there is one. A `get_mut` of the used part would say no more.
    #[tactic(auto, using(crate::proofs::Items::used_part))]
    pub fn set(&mut self, at: usize, value: T)
        ensures { items_of self.new ≡ slice_set (items_of self.old) at value }
    {
        if at < self.count {
            self.items[at] = value;
        }
    }
}
