// The calls on a run: to begin one, and to go on with it.
ghost use Rattle.std.specs.Prelude.{◌≡◌, Ok};
ghost use Rattle.semantics.specs.Cards.{first_frame, go_run, host_after, start_refusal};
ghost use Rattle.semantics.specs.Items.{items_of};
ghost use Rattle.semantics.specs.Reading.{so};
ghost use Rattle.semantics.specs.Runs.{idle};
ghost use Rattle.verifier.specs.Answers.{answered};
ghost use Rattle.machine.specs.Frames.{frame_of, store_of};
ghost use Rattle.machine.specs.Turns.{run_of, is_in_hand, begun, run_after};

use crate::frame::{Call, Frame};
use crate::run::stop::Stop;
use crate::run::{Frames, Run};
use crate::store::Store;
use classes::table::ClassTable;
use hosts::host::Host;
use semantics::array_vec::ArrayVec;
use semantics::ending::{End, Ending};
use semantics::misfit::Misfit;
use semantics::refusal::Refusal;
use semantics::value::Value;
use verifier::tests::taking;

// A misfit of a start, as it is told. Not a `From`: one would hold for the check too, which tells other refusals.
fn start_refusal(misfit: Misfit) -> Refusal
    ensures { result ≡ start_refusal misfit }
{
    match misfit {
        Misfit::Argument { operand } => Refusal::StartArgument { operand },
        _ => Refusal::StartNoRow,
    }
}

// The first frame of the row that a name means on the receiver, where the row has code and takes the arguments.
fn first_frame<T: ClassTable>(store: &Store<'_, T>, name: u8, call: &Call) -> Result<Frame, Refusal>
    ensures { answered frame_of result ≡ first_frame (store_of T.listed store.now) call.now.receiver name (items_of call.now.arguments) }
{
    let env = &store.env;
    let row = env
        .lookup(call.receiver.class, name)
        .ok_or(Refusal::StartNoRow)?;
    let code = store.code_at(row).ok_or(Refusal::NativeRow)?;
    let kinds = call.kinds();
    taking(env.table, &env.entries[row], kinds.as_slice()).map_err(start_refusal)?;
    Ok(Frame::opened(row, code, call))
}

impl Run {
    pub fn idle() -> Run
        ensures { run_of result ≡ idle }
    {
        Run::Idle
    }

    pub fn in_hand(&self) -> bool
        ensures { result ≡ is_in_hand (run_of self.now) }
    {
        matches!(self, Run::InHand(_))
    }

    // Not inlined: the whole of an enum is written where a case of it is, and in `go` that would stand before the first step.
    #[inline(never)]
    fn clear(&mut self)
        ensures { run_of self.new ≡ idle }
    {
        *self = Run::Idle;
    }

    // The first frame of the row that a name means on the receiver, in the place of any run before.
    // Receiver, name and arguments come apart: the name is looked up, and the others go into the frame as one `Call`.
    pub fn begin<T: ClassTable>(
        &mut self,
        store: &Store<'_, T>,
        receiver: Value,
        name: u8,
        arguments: &ArrayVec<Value, 7>,
    ) -> Result<(), Refusal>
        ensures answer { result ≡ so (first_frame (store_of T.listed store.now) receiver name (items_of arguments.now)) (λ _. Ok tt) }
        ensures run { run_of self.new ≡ begun (run_of self.old) (first_frame (store_of T.listed store.now) receiver name (items_of arguments.now)) }
    {
        let call = Call {
            receiver,
            arguments: *arguments,
        };
        let frame = first_frame(store, name, &call)?;
        *self = Run::InHand(Frames::of(frame));
        Ok(())
    }

    // At most `steps` steps. Only steps taken leaves the run in hand.
    pub fn go<T: ClassTable, H: Host>(
        &mut self,
        store: &Store<'_, T>,
        host: &mut H,
        steps: usize,
    ) -> Result<End, Refusal>
        ensures answer { result ≡ so (go_run (store_of T.listed store.now) H.reply steps (H.condition host.old) (run_of self.old)) (λ g. Ok g.end) }
        ensures run { run_of self.new ≡ run_after (run_of self.old) (go_run (store_of T.listed store.now) H.reply steps (H.condition host.old) (run_of self.old)) }
        ensures host { H.condition host.new ≡ host_after (H.condition host.old) (go_run (store_of T.listed store.now) H.reply steps (H.condition host.old) (run_of self.old)) }
    {
        // The project's rule: the run and the outcome of its last step are matched together. A `for` over the steps would match them again behind it.
        let mut taken = 0;
        let mut outcome: Result<(), Stop> = Ok(());
        loop {
            match (&mut *self, outcome) {
                (Run::Idle, _) => return Err(Refusal::NoRunInHand),
                (Run::InHand(_), Err(stop)) => {
                    self.clear();
                    return Ok(stop.end(taken));
                }
                (Run::InHand(frames), Ok(())) => {
                    if taken == steps {
                        return Ok(frames.stop(Ending::StepsTaken).end(taken));
                    }
                    outcome = frames.step(store, host);
                    taken += 1;
                }
            }
        }
    }
}
