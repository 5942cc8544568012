// The method row that a name on a class means.
ghost use Rattle.std.specs.Prelude.{◌≡◌, ◌<◌, map, length, IfSome};
ghost use Rattle.semantics.specs.Entries.{entry_of, lookup};
ghost use Rattle.verifier.specs.Answers.{number_of};
ghost use Rattle.verifier.specs.Candidates.{nearer, considered};

use crate::env::Env;
use classes::table::ClassTable;
use semantics::entry::Entry;

// The nearest row so far.
#[derive(Clone, Copy)]
struct Candidate {
    number: usize,
    class: u8,
}

// The one of two whose class is lower on the way up; the earlier where they have one class.
fn nearer<T: ClassTable>(table: &T, best: Option<Candidate>, next: Candidate) -> Candidate
    ensures { result ≡ nearer (T.listed table.now) best next }
{
    match best {
        Some(best) if !table.fits(next.class, best.class) || next.class == best.class => best,
        _ => next,
    }
}

// The nearest row after one more, if any has the name and is on a class that `class` fits.
fn considered<T: ClassTable>(
    table: &T,
    class: u8,
    name: u8,
    best: Option<Candidate>,
    number: usize,
    entry: &Entry,
) -> Option<Candidate>
    ensures { result ≡ considered (T.listed table.now) class name best number (entry_of entry.now) }
{
    if entry.name != name || !table.fits(class, entry.class) {
        return best;
    }
    let next = Candidate {
        number,
        class: entry.class,
    };
    Some(nearer(table, best, next))
}

impl<T: ClassTable> Env<'_, T> {
    // The number of the row of that name on the class or on the nearest class above it.
    pub fn lookup(&self, class: u8, name: u8) -> Option<usize>
        ensures value { result ≡ number_of (lookup (T.listed self.now.table.now) (map entry_of self.now.entries.now) class name) }
        ensures within { IfSome result (λ k. k < length self.now.entries.now) }
    {
        let mut best = None;
        for (number, entry) in self.entries.iter().enumerate() {
            best = considered(self.table, class, name, best, number, entry);
        }
        best.map(|nearest| nearest.number)
    }
}
