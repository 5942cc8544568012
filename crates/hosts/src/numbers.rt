// The number host: arithmetic on Ints. It has one condition only.
ghost use Rattle.std.specs.Prelude.{◌≡◌, MatchOption, Err, ◌+ℤ◌, ◌-ℤ◌, ◌*ℤ◌};
ghost use Rattle.semantics.specs.declared.value.Cause.TheVariants.{Range};
ghost use Rattle.semantics.specs.Hosts.{question_of, an_int, a_bool, shape, shaped, argument_of, ranged, divided, eq_z, number_answer, number_reply};

use crate::host::Host;
use semantics::value::{Answer, Cause, Question, Value};
pub use semantics::value::{BOOL, INT};

// The names that it answers. Constants, and no enum: each is the card's number, and is met once.
const LIKE_IT: u8 = 0;

const ADD: u8 = 1;

const SUBTRACT: u8 = 2;

const MULTIPLY: u8 = 3;

const DIVIDE: u8 = 4;

const LT_OR_EQ: u8 = 5;

const EQUAL: u8 = 6;

#[derive(Clone, Copy)]
pub struct Numbers;

pub(crate) fn an_int(number: i32) -> Answer
    ensures { result ≡ an_int number }
{
    Ok(Value { class: INT, number })
}

fn a_bool(truth: bool) -> Answer
    ensures { result ≡ a_bool truth }
{
    Ok(Value {
        class: BOOL,
        number: i32::from(truth),
    })
}

// The Int of a number, unless it is out of range.
fn ranged(number: Option<i32>) -> Answer
    ensures { MatchOption number (result ≡ Err Range) (λ n. result ≡ an_int n) }
{
    an_int(number.ok_or(Cause::Range)?)
}

fn sum(x: i32, y: i32) -> Answer
    ensures { result ≡ ranged (x +ℤ y) }
{
    ranged(x.checked_add(y))
}

fn difference(x: i32, y: i32) -> Answer
    ensures { result ≡ ranged (x -ℤ y) }
{
    ranged(x.checked_sub(y))
}

fn product(x: i32, y: i32) -> Answer
    ensures { result ≡ ranged (x *ℤ y) }
{
    ranged(x.checked_mul(y))
}

// Toward zero.
fn quotient(x: i32, y: i32) -> Answer
    ensures { result ≡ divided x y }
{
    ranged(x.checked_div(y))
}

fn equal(x: i32, y: i32) -> Answer
    ensures { result ≡ a_bool (eq_z x y) }
{
    a_bool(x == y)
}

// That the question has as many arguments, and wants that class or class 0.
pub(crate) fn shape(question: &Question, count: usize, class: u8) -> Result<(), Cause>
    ensures { result ≡ shape (question_of question.now) count class }
{
    if question.arguments.len() != count {
        return Err(Cause::ArgumentCount);
    }
    if question.wanted != 0 && question.wanted != class {
        return Err(Cause::WantedClass);
    }
    Ok(())
}

// The answer, which is of that class, unless the count of arguments or the wanted class is at fault.
fn shaped(question: &Question, count: usize, class: u8, answer: Answer) -> Answer
    ensures { result ≡ shaped (question_of question.now) count class answer }
{
    shape(question, count, class).and(answer)
}

// The number of the only argument.
fn argument(question: &Question) -> i32
    ensures { result ≡ argument_of (question_of question.now) }
{
    question
        .arguments
        .as_slice()
        .first()
        .map_or(0, |value| value.number)
}

fn answer(question: &Question) -> Answer
    ensures { result ≡ number_answer (question_of question.now) }
{
    let x = question.receiver.number;
    let y = argument(question);
    match question.name {
        LIKE_IT => shaped(question, 0, INT, an_int(x)),
        ADD => shaped(question, 1, INT, sum(x, y)),
        SUBTRACT => shaped(question, 1, INT, difference(x, y)),
        MULTIPLY => shaped(question, 1, INT, product(x, y)),
        DIVIDE => shaped(question, 1, INT, quotient(x, y)),
        LT_OR_EQ => shaped(question, 1, BOOL, a_bool(x <= y)),
        EQUAL => shaped(question, 1, BOOL, equal(x, y)),
        _ => Err(Cause::NameUnknown),
    }
}

impl Host for Numbers {
    ghost Condition = { Unit {0} };

    ghost condition = { λ _. tt };

    ghost reply = { number_reply };

    fn ask(&mut self, question: &Question) -> Answer {
        answer(question)
    }
}
