// Filling: sweeps until one alters no row.
ghost use Rattle.std.specs.Prelude.{◌≡◌, ◌≤◌, map, length, IfOk, Ok};
ghost use Rattle.semantics.specs.Entries.{entry_of};
ghost use Rattle.semantics.specs.Fill.{finished};
ghost use Rattle.semantics.specs.FillCall.{filled_with, filled_among, among_rows, filled_from, filled_into};
ghost use Rattle.semantics.specs.Methods.{method_of};
ghost use Rattle.semantics.specs.Reading.{so};
ghost use Rattle.verifier.specs.Answers.{answered};
ghost use Rattle.filler.specs.Fills.{filled_method, entries_of, filled_answer, FillsLawfully};
ghost use Rattle.filler.specs.Sweeps.{sweep_meaning};

use crate::labels::method_with;
use crate::sweep::{Sweep, sweep_points};
use classes::table::ClassTable;
use semantics::array_vec::ArrayVec;
use semantics::entry::Entry;
use semantics::method::Method;
use semantics::refusal::{Capacity, Refusal};
use text::form::form;
use text::read::read;
use verifier::env::Env;
use verifier::rules::{MAX_ROWS, entry_in};
use writer::write;

// Each of 16 labels is altered at most once by its first row and 7 times in each of 8 cells; the last sweep alters none.
const MAX_SWEEPS: usize = 913;

// The method with the rows of the last sweep, unless that passed over a point.
fn finished(method: &Method, last: &Sweep, sweeps: usize) -> Result<(Method, usize), Refusal>
    ensures { answered filled_method result ≡ so (finished sweeps (sweep_meaning last.now)) (λ f. Ok (filled_with (method_of method.now) f)) }
{
    match last.missed {
        Some(point) => Err(Refusal::Unreached { point }),
        None => Ok((method_with(method, &last.table), sweeps)),
    }
}

// The method with the least rows that its labels can have, and the number of sweeps that found them.
pub fn fill_rows<T: ClassTable>(
    env: &Env<'_, T>,
    method: &Method,
) -> Result<(Method, usize), Refusal>
    ensures { answered filled_method result ≡ filled_among (T.listed env.now.table.now) (map entry_of env.now.entries.now) (method_of method.now) }
{
    let mut rows = ArrayVec::repeat(None, method.labels.len());
    for sweeps in 0..MAX_SWEEPS {
        let swept = sweep_points(env, method, rows)?;
        if !swept.altered {
            return finished(method, &swept, sweeps + 1);
        }
        rows = swept.table;
    }
    Err(Refusal::Unreached { point: 0 })
}

// The rows of a card with a new one behind them; a full card can still be looked up with one more.
pub fn with_entry(entries: &[Entry], entry: Entry) -> Result<ArrayVec<Entry, 65>, Refusal>
    ensures { answered entries_of result ≡ among_rows (map entry_of entries.now) (entry_of entry) }
{
    if entries.len() > MAX_ROWS {
        return Err(Refusal::Full {
            what: Capacity::Rows,
        });
    }
    let mut known = ArrayVec::new(entry);
    for old in entries {
        let _ = known.push(*old);
    }
    let _ = known.push(entry);
    Ok(known)
}

// The method that a text says, filled among the rows of a card and its own.
fn fill_text<T: ClassTable>(env: &Env<'_, T>, text: &[u8]) -> Result<(Method, usize), Refusal>
    ensures { answered filled_method result ≡ filled_from (T.listed env.now.table.now) (map entry_of env.now.entries.now) text.now }
{
    let method = read(text)?;
    form(&method)?;
    let entry = entry_in(&method);
    env.entry_rules(&entry)?;
    let known = with_entry(env.entries, entry)?;
    let among = Env {
        table: env.table,
        entries: known.as_slice(),
    };
    fill_rows(&among, &method)
}

// Writes the text of the filled method into the buffer, and answers its length and the number of sweeps.
// That the length lies within the buffer is a clause here, in the writer and in card: a type for it would be unwrapped by each caller.
pub fn fill<T: ClassTable>(
    env: &Env<'_, T>,
    text: &[u8],
    buffer: &mut [u8],
) -> Result<(usize, usize), Refusal>
    ensures answer { result ≡ filled_answer (T.listed env.now.table.now) (map entry_of env.now.entries.now) text.now buffer.old }
    ensures after { buffer.new ≡ filled_into (T.listed env.now.table.now) (map entry_of env.now.entries.now) text.now buffer.old }
    ensures bound { IfOk result (λ x. x.0 ≤ length buffer.old) }
    // the filled table passes and is the least that does; a refusal excludes every table; it ends within 913 sweeps
    ensures laws { FillsLawfully (T.listed env.now.table.now) (map entry_of env.now.entries.now) text.now }
{
    let (method, sweeps) = fill_text(env, text)?;
    let len = write(&method, buffer)?;
    Ok((len, sweeps))
}
