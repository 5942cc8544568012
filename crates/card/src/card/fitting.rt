// How the classes of a card lie to each other, for numbers of any size.
ghost use Rattle.std.specs.Prelude.{◌≡◌};
ghost use Rattle.semantics.specs.Tree.{fits, join};
ghost use Rattle.card.specs.CardMeaning.{card_of};

use crate::card::Card;
use classes::table::ClassTable;

impl<T: ClassTable> Card<T> {
    pub fn fits(&self, a: u32, b: u32) -> bool
        ensures { result ≡ fits (card_of T.listed self.now).store.classes a b }
    {
        let (Ok(a), Ok(b)) = (u8::try_from(a), u8::try_from(b)) else {
            return false;
        };
        self.table.fits(a, b)
    }

    // The front is that of `fits`: a helper would hand back a pair that each would match again.
    pub fn join(&self, a: u32, b: u32) -> u32
        ensures { result ≡ join (card_of T.listed self.now).store.classes a b }
    {
        let (Ok(a), Ok(b)) = (u8::try_from(a), u8::try_from(b)) else {
            return 0;
        };
        u32::from(self.table.join(a, b))
    }
}
