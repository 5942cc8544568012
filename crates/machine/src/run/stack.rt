// What is done with the frames of a run.
ghost use Rattle.std.specs.Prelude.{◌≡◌, ◌+◌, ◌<◌, [], ◌∷◌, length, if◌then◌else◌, nat_lt};
ghost use Rattle.semantics.specs.declared.ending.Ending.TheVariants.{FramesFull};
ghost use Rattle.semantics.specs.Items.{items_of};
ghost use Rattle.semantics.specs.Runs.{onward, ended, moved_to, put_in, opened, or_break, received, closed, max_frames};
ghost use Rattle.semantics.specs.Stores.{code_of};
ghost use Rattle.machine.specs.Frames.{frame_of, store_of};
ghost use Rattle.machine.specs.Turns.{top_of, rest_of, stop_at, or_stop, turned};

use crate::frame::{Call, Frame};
use crate::run::stop::Stop;
use crate::run::{Frames, MAX_FRAMES};
use crate::store::Store;
use classes::table::ClassTable;
use semantics::body::Code;
use semantics::ending::{Break, Ending};
use semantics::misfit::Misfit;
use semantics::operation::Destination;
use semantics::value::Value;
use verifier::tests::may_hold;

// Most of what can stop a step is inlined, here and in `steps`: a stop would else be handed up through memory, call by call.
impl Frames {
    // The only frame of a run.
    pub(crate) fn of(frame: Frame) -> Frames
        ensures top { top_of result ≡ frame_of frame }
        ensures rest { rest_of result ≡ [] }
    {
        Frames {
            frames: [frame; MAX_FRAMES],
            depth: 1,
        }
    }

    pub(crate) fn top(&self) -> &Frame
        ensures { frame_of result.now ≡ top_of self.now }
    {
        &self.frames[self.depth - 1]
    }

    // An ending at the operation of the frame on top.
    #[inline(always)]
    pub(crate) fn stop(&self, ending: Ending) -> Stop
        ensures { result ≡ stop_at ending (top_of self.now) }
    {
        let frame = self.top();
        Stop {
            ending,
            row: frame.row,
            point: frame.point,
        }
    }

    // A test at the operation of the frame on top, which breaks the run off there.
    #[inline(always)]
    pub(crate) fn or_stop<X>(&self, test: Result<X, Misfit>) -> Result<X, Stop>
        ensures { result ≡ or_stop (top_of self.now) test }
    {
        test.map_err(|misfit| self.stop(Ending::BrokenOff(Break::Misfit(misfit))))
    }

    // The frame on top goes to a point.
    fn move_to(&mut self, point: usize)
        ensures top { top_of self.new ≡ moved_to (top_of self.old) point }
        ensures rest { rest_of self.new ≡ rest_of self.old }
    {
        let top = self.depth - 1;
        let frames = &mut self.frames;
        frames[top].move_to(point);
    }

    // The frame on top goes past its invocation, with the result in its place.
    // That it stands at one is a clause, here and below: a type for it would hold a `&mut Frames`, with a clause on that in each method.
    fn put(&mut self, into: Destination, value: Value)
        requires { (top_of self.old).point < 64 }
        ensures top { top_of self.new ≡ put_in (top_of self.old) into value }
        ensures rest { rest_of self.new ≡ rest_of self.old }
    {
        let top = self.depth - 1;
        let frames = &mut self.frames;
        frames[top].put(into, value);
    }

    // The frame on top goes to the point that its tests allow.
    #[inline(always)]
    pub(crate) fn moved(&mut self, to: Result<usize, Misfit>) -> Result<(), Stop>
        ensures { turned result self.new (tt {0}) ≡ or_break (top_of self.old) tt to (λ p. onward (moved_to (top_of self.old) p) (rest_of self.old) tt) }
    {
        let point = self.or_stop(to)?;
        self.move_to(point);
        Ok(())
    }

    // A value for the invocation at which the frame on top stands.
    #[inline(always)]
    pub(crate) fn received<T: ClassTable>(
        &mut self,
        store: &Store<'_, T>,
        into: Destination,
        value: Value,
    ) -> Result<(), Stop>
        requires { (top_of self.old).point < 64 }
        ensures { turned result self.new (tt {0}) ≡ received (store_of T.listed store.now) (top_of self.old) (rest_of self.old) tt into value }
    {
        let entry = store.entry_at(self.top().row);
        let held = may_hold(
            store.env.table,
            entry.class,
            &entry.arguments,
            into,
            value.class,
        );
        self.or_stop(held)?;
        self.put(into, value);
        Ok(())
    }

    // The frame on top is closed with a value: the run has returned it, or the frame below takes it.
    #[inline(always)]
    pub(crate) fn closed<T: ClassTable>(
        &mut self,
        store: &Store<'_, T>,
        value: Value,
    ) -> Result<(), Stop>
        ensures { turned result self.new (tt {0}) ≡ closed (store_of T.listed store.now) (top_of self.old) (rest_of self.old) tt value }
    {
        if self.depth == 1 {
            return Err(self.stop(Ending::Returned(value)));
        }
        self.depth -= 1;
        let frame = self.top();
        let into = store.destination_at(frame.row, frame.point);
        self.received(store, into, value)
    }

    // A frame more, where there is room for one.
    pub(crate) fn open(&mut self, row: usize, code: &Code, call: &Call) -> Result<(), Stop>
        requires { (top_of self.old).point < 64 }
        ensures { turned result self.new (tt {0}) ≡ (if nat_lt (length (rest_of self.old) + 1) max_frames then onward (opened row (code_of code.now) call.now.receiver (items_of call.now.arguments)) (top_of self.old ∷ rest_of self.old) tt else ended FramesFull (top_of self.old).row (top_of self.old).point tt) }
    {
        if self.depth >= MAX_FRAMES {
            return Err(self.stop(Ending::FramesFull));
        }
        self.frames[self.depth] = Frame::opened(row, code, call);
        self.depth += 1;
        Ok(())
    }
}
