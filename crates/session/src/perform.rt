// Lists of calls on one card and one host.
ghost use Rattle.std.specs.Prelude.{◌≡◌, length};
ghost use Rattle.semantics.specs.Calls.{act, after_all, state, moments};
ghost use Rattle.semantics.specs.Promise.{PromisedFrom};
ghost use Rattle.card.specs.CardMeaning.{card_of};
ghost use Rattle.session.specs.CallMeaning.{call_of, buffer_after, taken_calls, responded_in, buffer_after_all};

use crate::call::Call;
use card::card::Card;
use classes::table::ClassTable;
use hosts::host::Host;
use semantics::call::Response;

// One call. Only a fill alters the lent buffer.
pub fn perform<T: ClassTable, H: Host>(
    card: &mut Card<T>,
    host: &mut H,
    call: &Call,
    buffer: &mut [u8],
) -> Response
    ensures response { result ≡ (act H.reply (card_of T.listed card.old) (H.condition host.old) (call_of (length buffer.old) call.now)).response }
    ensures card { card_of T.listed card.new ≡ (act H.reply (card_of T.listed card.old) (H.condition host.old) (call_of (length buffer.old) call.now)).card }
    ensures host { H.condition host.new ≡ (act H.reply (card_of T.listed card.old) (H.condition host.old) (call_of (length buffer.old) call.now)).host }
    ensures buffer { buffer.new ≡ buffer_after (card_of T.listed card.old) (call_of (length buffer.old) call.now) buffer.old }
{
    let answer = match call {
        Call::Class { parent } => card.class(*parent).map(|number| Response::Class { number }),
        Call::Native {
            class,
            name,
            arguments,
            result,
        } => card
            .native(*class, *name, arguments, *result)
            .map(|number| Response::Row { number }),
        Call::Load { text } => card.load(text).map(|number| Response::Row { number }),
        Call::Start {
            receiver,
            name,
            arguments,
        } => card
            .start(*receiver, *name, arguments)
            .map(|()| Response::Started),
        Call::Go { steps } => card.go(host, *steps).map(Response::Ended),
        Call::Fill { text } => card
            .fill(text, buffer)
            .map(|(length, sweeps)| Response::Filled { length, sweeps }),
    };
    answer.unwrap_or_else(Response::Refused)
}

// The calls in their order, as many as there are places for responses.
pub fn perform_all<T: ClassTable, H: Host>(
    card: &mut Card<T>,
    host: &mut H,
    calls: &[Call],
    buffer: &mut [u8],
    responses: &mut [Response],
)
    ensures after { state (card_of T.listed card.new) (H.condition host.new) ≡ after_all H.reply (card_of T.listed card.old) (H.condition host.old) (taken_calls (length buffer.old) (length responses.old) calls.now) }
    ensures responses { responses.new ≡ responded_in responses.old (moments H.reply (card_of T.listed card.old) (H.condition host.old) (taken_calls (length buffer.old) (length responses.old) calls.now)) }
    ensures buffer { buffer.new ≡ buffer_after_all (moments H.reply (card_of T.listed card.old) (H.condition host.old) (taken_calls (length buffer.old) (length responses.old) calls.now)) buffer.old }
    // what is promised of every list of calls on a card that began blank, over every host
    ensures promise { PromisedFrom H.reply (card_of T.listed card.old) (H.condition host.old) (taken_calls (length buffer.old) (length responses.old) calls.now) }
{
    // Not a `zip`: after one over `iter_mut` a proof knows nothing of the responses.
    for (i, response) in responses.iter_mut().enumerate() {
        let Some(call) = calls.get(i) else {
            break;
        };
        *response = perform(card, host, call, buffer);
    }
}
