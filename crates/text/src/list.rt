// Lists in a value. A malformed part comes before a number out of range, and of such numbers the first is told.
ghost use Rattle.std.specs.Prelude.{◌≡◌, ◌+◌, ◌<◌, ◌≤◌, [], length, IfOk, Ok};
ghost use Rattle.semantics.specs.Items.{items_of};
ghost use Rattle.semantics.specs.Values.{worse, both, appended, mapped, list_on};
ghost use Rattle.text.specs.Parts.{parts_left};

use crate::item::Item;
use crate::part::Parts;
use semantics::array_vec::ArrayVec;
use semantics::refusal::Fault;

// The fault that is told of two.
fn worst(first: Fault, second: Fault) -> Fault
    ensures { result ≡ worse first second }
{
    match (first, second) {
        (Fault::OutOfRange { at }, Fault::OutOfRange { .. }) => Fault::OutOfRange { at },
        _ => Fault::Malformed,
    }
}

pub fn both<X: Drop, Y: Drop>(x: Result<X, Fault>, y: Result<Y, Fault>) -> Result<(X, Y), Fault>
    ensures { result ≡ both x y }
{
    match (x, y) {
        (Ok(x), Ok(y)) => Ok((x, y)),
        (Ok(_), Err(fault)) | (Err(fault), Ok(_)) => Err(fault),
        (Err(first), Err(second)) => Err(worst(first, second)),
    }
}

// A list and one item more, for which there is room.
fn append<T: Copy, const N: usize>(
    list: Result<ArrayVec<T, N>, Fault>,
    item: Result<T, Fault>,
) -> Result<ArrayVec<T, N>, Fault>
    requires { IfOk list (λ v. length (items_of v) < N) }
    ensures { mapped items_of result ≡ appended (mapped items_of list) item }
{
    let (mut items, item) = both(list, item)?;
    let _ = items.push(item);
    Ok(items)
}

// The items that the parts say, which are at most N.
pub fn list<T: Item, const N: usize>(parts: Parts<'_>, filler: T) -> Result<ArrayVec<T, N>, Fault>
    requires { length (parts_left parts) ≤ N }
    ensures { mapped items_of result ≡ list_on T.says (Ok []) (parts_left parts.entry) }
{
    let mut list = Ok(ArrayVec::new(filler));
    for part in parts {
        list = append(list, T::read(part));
    }
    list
}
