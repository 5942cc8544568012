ghost use Rattle.std.specs.Prelude.{◌≡◌, true};

use classes::climbing::Climbing;
use classes::masks::Masks;
use classes::table::ClassTable;
use semantics::refusal::{Capacity, Refusal};
use std::process::Abort;

// Past every class that there can be, so that absent numbers are compared too.
const NUMBERS: u8 = 80;

// Whether both tables tell the same of a and every number. Tables that list the same parents do.
fn agree_on<T: ClassTable, U: ClassTable>(one: &T, other: &U, a: u8) -> bool
    ensures { T.ClassTable.listed one.now ≡ U.ClassTable.listed other.now → result ≡ true }
{
    (0..NUMBERS).all(|b| one.fits(a, b) == other.fits(a, b) && one.join(a, b) == other.join(a, b))
}

fn agree<T: ClassTable, U: ClassTable>(one: &T, other: &U) -> bool
    ensures { T.ClassTable.listed one.now ≡ U.ClassTable.listed other.now → result ≡ true }
{
    (0..NUMBERS).all(|a| agree_on(one, other, a)) && one.count() == other.count()
}

// Parents that are present, absent, too deep, and asked for when the table is full.
#[test]
fn tables_agree(rt: HostRuntime) {
    let mut climbing = Climbing::blank();
    let mut masks = Masks::blank();
    assert!(rt; agree(&climbing, &masks));
    for step in 0u32..128 {
        let parent = step % 70;
        assert_eq!(rt; climbing.add(parent), masks.add(parent));
        assert!(rt; agree(&climbing, &masks));
    }
    assert_eq!(rt; climbing.count(), 64);
}

// A line of seven parents, then classes under 0 until there are 64.
fn refuses_in_order<T: ClassTable + Drop>(rt: &impl Abort, mut table: T) {
    assert_eq!(rt; table.add(u32::MAX), Err(Refusal::ClassAbsent { place: 0 }));
    for parent in 2u32..8 {
        assert!(rt; table.add(parent).is_ok());
    }
    assert_eq!(rt;
        table.add(8),
        Err(Refusal::Full {
            what: Capacity::Depth,
        })
    );
    for _ in 0..55 {
        assert!(rt; table.add(0).is_ok());
    }
    assert_eq!(rt; table.add(64), Err(Refusal::ClassAbsent { place: 0 }));
    assert_eq!(rt;
        table.add(8),
        Err(Refusal::Full {
            what: Capacity::Classes,
        })
    );
}

#[test]
fn refused_in_order(rt: HostRuntime) {
    refuses_in_order(&rt, Climbing::blank());
    refuses_in_order(&rt, Masks::blank());
}
