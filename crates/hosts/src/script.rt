// The script host: a list of names and values, answered one after the other.
use semantics::value::Value;

pub mod played;

#[derive(Clone, Copy)]
pub struct Cue {
    pub name: u8,
    pub value: Value,
}

// The cues that are still to be played.
#[derive(Clone, Copy)]
pub struct Script<'a> {
    left: &'a [Cue],
}
