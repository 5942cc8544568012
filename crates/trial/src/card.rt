// The trial card: class 3 under class 0, and three native rows on Int.
ghost use Rattle.std.specs.Prelude.{◌≡◌, map};
ghost use Rattle.semantics.specs.Entries.{entry_of};
ghost use Rattle.semantics.specs.Items.{items_of};
ghost use Rattle.semantics.specs.Worked.{trial_classes, trial_rows};

use classes::table::ClassTable;
use semantics::array_vec::ArrayVec;
use semantics::entry::Entry;
use semantics::value::{BOOL, INT};

#[tactic(auto, unfolding(semantics::specs::Tree::depth, semantics::specs::Tree::line, semantics::specs::Tree::line_in))]
pub fn trial_classes<T: ClassTable>() -> T
    ensures { T.listed result ≡ trial_classes }
{
    let mut table = T::blank();
    let _ = table.add(0);
    table
}

// Names 0 likeIt, 2 subtract and 5 LtOrEq.
pub fn trial_entries() -> [Entry; 3]
    ensures { map entry_of result ≡ trial_rows }
{
    let none = ArrayVec::repeat(INT, 0);
    let one = ArrayVec::repeat(INT, 1);
    [
        Entry {
            class: INT,
            name: 0,
            arguments: none,
            result: INT,
        },
        Entry {
            class: INT,
            name: 2,
            arguments: one,
            result: INT,
        },
        Entry {
            class: INT,
            name: 5,
            arguments: one,
            result: BOOL,
        },
    ]
}
