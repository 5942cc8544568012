// A test, and the error of one that does not hold.
ghost use Rattle.std.specs.Prelude.{◌≡◌, cond, Ok, Err};

pub fn demand<E: Drop>(holds: bool, error: E) -> Result<(), E>
    ensures { result ≡ cond holds (Ok tt) (Err error) }
{
    if holds { Ok(()) } else { Err(error) }
}
