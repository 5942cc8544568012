// The table that climbs from parent to parent.
ghost use Rattle.std.specs.Prelude.{◌≡◌, ◌<◌, ◌≤◌, length, take};
ghost use Rattle.semantics.specs.Tree.{Shape, depth};
ghost use Rattle.semantics.proofs.TreeOrder.{tree_from};

use crate::table::{BLANK_CLASSES, ClassTable, MAX_CLASSES, MAX_DEPTH, checked_parent};
use semantics::refusal::{Capacity, Refusal};

// An array and a byte for the count, not an `ArrayVec`: 65 bytes in place of 72, and a step up, whose place is proved, makes no test.
#[derive(Clone, Copy)]
pub struct Climbing {
    // Each parent is a class number, as callers hold classes by their numbers.
    parents: [u8; MAX_CLASSES],
    count: u8,
    ghost few: { count ≤ 64 },
    ghost long: { length parents ≡ 64 },
    ghost tree: { Shape (take count parents) },
}

impl Climbing {
    // How many parents up class 0 is. Not a `for`: the walk goes from parent to parent. A count of `successors` would say the same in a closure.
    fn depth(&self, class: u8) -> u32
        requires { class < self.now.count }
        ensures { result ≡ depth (take self.now.count self.now.parents) class }
    {
        let mut at = class;
        let mut steps = 0;
        while at > 0 {
            at = self.parents[at as usize];
            steps += 1;
        }
        steps
    }
}

impl ClassTable for Climbing {
    ghost listed = { λ t. take t.count t.parents };

    ghost tree = { λ t. tree_from t.tree };

    fn blank() -> Climbing {
        Climbing {
            parents: [0; MAX_CLASSES],
            count: BLANK_CLASSES,
        }
    }

    fn count(&self) -> u8 {
        self.count
    }

    fn fits(&self, a: u8, b: u8) -> bool {
        let count = self.count;
        if a >= count || b >= count {
            return false;
        }
        let mut at = a;
        while at > b {
            at = self.parents[at as usize];
        }
        at == b
    }

    fn join(&self, a: u8, b: u8) -> u8 {
        let count = self.count;
        if a >= count || b >= count {
            return 0;
        }
        let mut x = a;
        let mut y = b;
        while x != y {
            if x > y {
                x = self.parents[x as usize];
            } else {
                y = self.parents[y as usize];
            }
        }
        x
    }

    fn add(&mut self, parent: u32) -> Result<u8, Refusal> {
        let above = checked_parent(parent, self.count)?;
        if self.depth(above) + 1 > MAX_DEPTH {
            return Err(Refusal::Full {
                what: Capacity::Depth,
            });
        }
        let count = self.count;
        let mut parents = self.parents;
        parents[count as usize] = above;
        *self = Climbing {
            parents,
            count: count + 1,
        };
        Ok(count)
    }
}
