// The input, line by line.
ghost use Rattle.std.specs.Prelude.{◌+◌, ◌^◌, ◌<◌, length};

pub mod taking;

// The bytes that are still to come, and how many lines came before.
#[derive(Clone, Copy)]
pub struct Lines<'a> {
    left: &'a [u8],
    taken: usize,
    ghost counted: { taken + length left.now < 2 ^ 64 },
}
