// Parts of a text.
ghost use Rattle.std.specs.Prelude.{◌+◌, ◌^◌, ◌<◌, length};

pub mod cuts;

// Some bytes, and the byte of the text at which they begin.
#[derive(Clone, Copy)]
pub struct Part<'a> {
    pub at: usize,
    pub bytes: &'a [u8],
    ghost placed: { at + length bytes.now < 2 ^ 64 },
}

// The parts between separators that are still to be handed out.
#[derive(Clone, Copy)]
pub struct Parts<'a> {
    left: Option<Part<'a>>,
    separator: u8,
}
