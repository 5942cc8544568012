// One step of a run, operation by operation.
ghost use Rattle.std.specs.Prelude.{◌≡◌, ◌<◌};
ghost use Rattle.semantics.specs.Entries.{entry_of, found};
ghost use Rattle.semantics.specs.Items.{items_of};
ghost use Rattle.semantics.specs.Methods.{invoke};
ghost use Rattle.semantics.specs.Runs.{question, called, operate, step_of};
ghost use Rattle.semantics.specs.Stores.{entry_at, body_at, code_at, op_at, code_of};
ghost use Rattle.machine.specs.Frames.{store_of};
ghost use Rattle.machine.specs.Turns.{top_of, rest_of, turned, given, given_back};

use crate::frame::Call;
use crate::operations::Jump;
use crate::run::Frames;
use crate::run::stop::Stop;
use crate::store::Store;
use classes::table::ClassTable;
use hosts::host::Host;
use semantics::array_vec::ArrayVec;
use semantics::body::Code;
use semantics::ending::{Break, Ending};
use semantics::entry::Entry;
use semantics::operation::{Destination, Operand, Operation};
use semantics::value::{Question, Value};

impl Frames {
    // A return: its test, and the frame is closed.
    #[inline(always)]
    fn give_back<T: ClassTable>(
        &mut self,
        store: &Store<'_, T>,
        operand: Operand,
    ) -> Result<(), Stop>
        ensures { turned result self.new (tt {0}) ≡ given_back (store_of T.listed store.now) (top_of self.old) (rest_of self.old) tt operand }
    {
        let frame = self.top();
        let result = store.entry_at(frame.row).result;
        let returned = frame.returned(store.env.table, result, operand);
        let value = self.or_stop(returned)?;
        self.closed(store, value)
    }

    // A native row puts its question: a value in the wanted class is its answer.
    #[inline(always)]
    fn ask<T: ClassTable, H: Host>(
        &self,
        table: &T,
        host: &mut H,
        entry: &Entry,
        call: &Call,
    ) -> Result<Value, Stop>
        ensures value { result ≡ given (T.listed table.now) (top_of self.now) entry.now.result (H.reply (H.condition host.old) (question (entry_of entry.now) call.now.receiver (items_of call.now.arguments))).0 }
        ensures host { H.condition host.new ≡ (H.reply (H.condition host.old) (question (entry_of entry.now) call.now.receiver (items_of call.now.arguments))).1 }
    {
        let question = Question {
            name: entry.name,
            class: entry.class,
            wanted: entry.result,
            receiver: call.receiver,
            arguments: call.arguments,
        };
        let answer = host.ask(&question);
        let value = answer.map_err(|cause| self.stop(Ending::NoAnswer(cause)))?;
        if !table.fits(value.class, entry.result) {
            return Err(self.stop(Ending::BrokenOff(Break::AnswerClass)));
        }
        Ok(value)
    }

    // The called row: a native one puts its question, a coded one opens a frame.
    // Store and host come apart, here and below: a struct would hold a `&mut H`, with a clause on that in each method.
    #[inline(always)]
    fn call<T: ClassTable, H: Host>(
        &mut self,
        store: &Store<'_, T>,
        host: &mut H,
        row: usize,
        into: Destination,
        call: &Call,
    ) -> Result<(), Stop>
        requires { (top_of self.old).point < 64 }
        ensures { turned result self.new (H.condition host.new) ≡ called (store_of T.listed store.now) H.reply (top_of self.old) (rest_of self.old) (H.condition host.old) into call.now.receiver (items_of call.now.arguments) (found row (entry_at (store_of T.listed store.now) row)) (body_at (store_of T.listed store.now) row) }
    {
        if let Some(code) = store.code_at(row) {
            return self.open(row, code, call);
        }
        let entry = store.entry_at(row);
        let value = self.ask(store.env.table, host, &entry, call)?;
        self.received(store, into, value)
    }

    // An invocation: the tests of its operands, and the call.
    #[inline(always)]
    fn invoke<T: ClassTable, H: Host>(
        &mut self,
        store: &Store<'_, T>,
        host: &mut H,
        into: Destination,
        receiver: Operand,
        name: u8,
        arguments: &ArrayVec<Operand, 7>,
    ) -> Result<(), Stop>
        requires { (top_of self.old).point < 64 }
        ensures { turned result self.new (H.condition host.new) ≡ operate (store_of T.listed store.now) H.reply (top_of self.old) (rest_of self.old) (H.condition host.old) (invoke into receiver name (items_of arguments.now)) }
    {
        let call = self.top().call(receiver, arguments);
        let kinds = call.kinds();
        let called = store
            .env
            .callee(call.receiver.class, name, kinds.as_slice());
        let row = self.or_stop(called)?;
        self.call(store, host, row, into, &call)
    }

    // The operation at the point of the frame on top, which runs this code; behind the code that is a return of local 0.
    #[inline(always)]
    fn operate<T: ClassTable, H: Host>(
        &mut self,
        store: &Store<'_, T>,
        host: &mut H,
        code: &Code,
    ) -> Result<(), Stop>
        requires { code_at (store_of T.listed store.now) (top_of self.old).row ≡ code_of code.now }
        ensures { turned result self.new (H.condition host.new) ≡ operate (store_of T.listed store.now) H.reply (top_of self.old) (rest_of self.old) (H.condition host.old) (op_at (code_of code.now) (top_of self.old).point) }
    {
        let frame = self.top();
        let Some(operation) = code.points.as_slice().get(frame.point) else {
            return self.give_back(store, Operand::Local(0));
        };
        let jump = Jump {
            frame,
            labels: code.labels.as_slice(),
            operation,
        };
        match operation {
            Operation::Return(operand) => self.give_back(store, *operand),
            Operation::Jump(label) => {
                let to = jump.to(store.env.table, Some(*label));
                self.moved(to)
            }
            Operation::JumpIf(condition, label) => {
                let to = jump.if_true(store.env.table, *condition, *label);
                self.moved(to)
            }
            Operation::JumpList(selector, list) => {
                let to = jump.by_list(store.env.table, *selector, list);
                self.moved(to)
            }
            Operation::Invoke {
                into,
                receiver,
                name,
                arguments,
            } => self.invoke(store, host, *into, *receiver, *name, arguments),
        }
    }

    // One step: the label of the point first, then its operation.
    #[inline(always)]
    pub(crate) fn step<T: ClassTable, H: Host>(
        &mut self,
        store: &Store<'_, T>,
        host: &mut H,
    ) -> Result<(), Stop>
        ensures { turned result self.new (H.condition host.new) ≡ step_of (store_of T.listed store.now) H.reply (top_of self.old) (rest_of self.old) (H.condition host.old) }
    {
        let frame = self.top();
        let Some(code) = store.code_at(frame.row) else {
            return self.give_back(store, Operand::Local(0));
        };
        let fitting = frame.fits_label(store.env.table, code.labels.as_slice());
        self.or_stop(fitting)?;
        self.operate(store, host, code)
    }
}
