// What a table of classes is. Its meaning is the list of parents.
ghost use Rattle.std.specs.Prelude.{◌≡◌, ℕ, ◌<◌, List, length, IfOk};
ghost use Rattle.semantics.specs.Tree.{Tree, blank, fits, join, under, adding, after};

use semantics::refusal::{Capacity, Refusal};

pub const MAX_CLASSES: usize = 64;

// CardObject, Bool and Int.
pub const BLANK_CLASSES: u8 = 3;

// How many parents up class 0 may be.
pub const MAX_DEPTH: u32 = 7;

pub trait ClassTable: Sized {
    // The parents of the classes, in the order of their numbers.
    ghost listed: { Self → List ℕ };

    // The classes of a blank card.
    fn blank() -> Self
        ensures { listed result ≡ blank };

    fn count(&self) -> u8
        ensures { result ≡ length (listed self.now) };

    fn fits(&self, a: u8, b: u8) -> bool
        ensures { result ≡ fits (listed self.now) a b };

    fn join(&self, a: u8, b: u8) -> u8
        ensures { result ≡ join (listed self.now) a b };

    // A new class under `parent`, and its number.
    fn add(&mut self, parent: u32) -> Result<u8, Refusal>
        ensures answer { result ≡ adding (listed self.old) parent }
        ensures list { listed self.new ≡ after result (listed self.old) parent };

    ghost tree: { (t : Self) → Tree (listed t) };
}

// The parent of a new class, where `count` classes are there: one of them, and room for one more.
pub fn checked_parent(parent: u32, count: u8) -> Result<u8, Refusal>
    ensures value { result ≡ under count parent }
    ensures made { IfOk result (λ p. (p ≡ parent) × (parent < count) × (count < 64)) }
{
    if parent >= u32::from(count) {
        return Err(Refusal::ClassAbsent { place: 0 });
    }
    if count as usize >= MAX_CLASSES {
        return Err(Refusal::Full {
            what: Capacity::Classes,
        });
    }
    Ok(parent as u8)
}
