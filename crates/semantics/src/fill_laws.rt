// The law of filling.
ghost use Rattle.semantics.specs.FillLaws.{FillingHolds};

// Filling gives the least table that passes or refuses with cause, and ends.
pub fn filling_holds()
    ensures { FillingHolds }
{}
