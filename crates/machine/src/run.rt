// A run, and the frames of one that is in hand.
ghost use Rattle.std.specs.Prelude.{◌≡◌, ◌<◌, ◌≤◌, length};
ghost use Rattle.machine.specs.Frames.{Waiting};

use crate::frame::Frame;

pub mod calls;
pub mod stack;
pub mod steps;
pub mod stop;

pub const MAX_FRAMES: usize = 8;

// An enum of its own, since the `None` of an `Option` would not say that the run is idle.
#[derive(Clone, Copy)]
pub enum Run {
    Idle,
    InHand(Frames),
}

// Eight frame records, of which the first `depth` are open and the last of those is on top.
// Fixed memory is the project's rule. No `ArrayVec`: that lends its items to be read alone, and the top frame is changed in place.
#[derive(Clone, Copy)]
pub struct Frames {
    frames: [Frame; MAX_FRAMES],
    depth: usize,
    ghost some: { 0 < depth },
    ghost few: { depth ≤ 8 },
    ghost long: { length frames ≡ 8 },
    ghost waiting: { Waiting frames depth },
}
