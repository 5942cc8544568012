// What two classes have in common, in any table.
ghost use Rattle.std.specs.Prelude.{◌≤◌, ◌⊎◌, length, MatchOption};
ghost use Rattle.semantics.specs.Tree.{Deepest};

use crate::table::ClassTable;

// The deepest class that both fit; none where one of them is absent.
pub fn deepest_common<T: ClassTable>(table: &T, a: u8, b: u8) -> Option<u8>
    ensures { MatchOption result ((length (T.listed table.now) ≤ a) ⊎ (length (T.listed table.now) ≤ b)) (λ j. Deepest (T.listed table.now) a b j) }
{
    let count = table.count();
    if a >= count || b >= count {
        return None;
    }
    Some(table.join(a, b))
}
