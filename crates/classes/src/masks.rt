// The table that keeps 64 bits a class.
ghost use Rattle.std.specs.Prelude.{◌≡◌, ℕ, slice_index};
ghost use Rattle.semantics.specs.Items.{items_of};
ghost use Rattle.semantics.specs.Tree.{Shape, fits};
ghost use Rattle.classes.specs.Masked.{Steps, bit, digit, highest, parents_in};
ghost use Rattle.semantics.proofs.TreeOrder.{tree_from};

use crate::table::{ClassTable, MAX_CLASSES, MAX_DEPTH, checked_parent};
use semantics::array_vec::ArrayVec;
use semantics::refusal::{Capacity, Refusal};

#[derive(Clone, Copy)]
pub struct Masks {
    // Bit b of entry a is set if class a fits class b.
    masks: ArrayVec<u64, MAX_CLASSES>,
    ghost tree: { Shape (parents_in (items_of masks)) },
    ghost first: { slice_index (items_of masks) 0 ≡ 1 },
    ghost steps: { Steps (items_of masks) },
}

// The place of the highest bit, or 0 where none is set.
fn highest_bit(bits: u64) -> u8
    ensures { result ≡ highest bits }
{
    bits.checked_ilog2().unwrap_or(0) as u8
}

impl Masks {
    // The classes that a class fits: bit b is 1 exactly if it fits class b.
    pub fn mask(&self, class: u8) -> u64
        ensures bits { (b : ℕ) → bit result b ≡ digit (fits (parents_in (items_of self.now.masks)) class b) }
        ensures value { result ≡ slice_index (items_of self.now.masks) class }
    {
        self.masks.get_or(class as usize, 0)
    }
}

impl ClassTable for Masks {
    ghost listed = { λ t. parents_in (items_of t.masks) };

    ghost tree = { λ t. tree_from t.tree };

    fn blank() -> Masks {
        let mut masks = ArrayVec::repeat(0b001, 1);
        let _ = masks.push(0b011);
        let _ = masks.push(0b101);
        Masks { masks }
    }

    fn count(&self) -> u8 {
        self.masks.len() as u8
    }

    fn fits(&self, a: u8, b: u8) -> bool {
        if b >= self.count() {
            return false;
        }
        (self.mask(a) >> b) & 1 == 1
    }

    fn join(&self, a: u8, b: u8) -> u8 {
        highest_bit(self.mask(a) & self.mask(b))
    }

    fn add(&mut self, parent: u32) -> Result<u8, Refusal> {
        let count = self.count();
        let above = checked_parent(parent, count)?;
        // One bit for each parent of the new class.
        let parents = self.mask(above);
        if parents.count_ones() > MAX_DEPTH {
            return Err(Refusal::Full {
                what: Capacity::Depth,
            });
        }
        let mut masks = self.masks;
        let _ = masks.push(parents | (1u64 << count));
        *self = Masks { masks };
        Ok(count)
    }
}
