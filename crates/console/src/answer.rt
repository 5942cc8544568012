// Answers as they are printed.
ghost use Rattle.std.specs.Prelude.{◌≡◌, Some};
ghost use Rattle.console.specs.Answers.{layer_word, ending_text, answer_text};

use semantics::call::Response;
use semantics::ending::Ending;
use semantics::refusal::Layer;
use std::fmt;

// The answer of a call.
#[derive(Clone, Copy)]
pub struct Answer(pub Response);

#[derive(Clone, Copy)]
struct Ended(Ending);

// Not a `Display`: the word belongs to this program's answers, and a type round `Layer` would say no more.
fn layer_word(layer: Layer) -> &'static str
    ensures { result.now ≡ layer_word layer }
{
    match layer {
        Layer::Text => "text",
        Layer::Form => "form",
        Layer::Card => "card",
        Layer::Check => "check",
        Layer::Run => "run",
    }
}

impl fmt::Display for Ended {
    ghost output = { λ e. Some (ending_text e.0) };

    fn fmt<W: fmt::Write>(&self, f: &mut fmt::Formatter<W>) -> fmt::Result {
        match self.0 {
            Ending::Returned(value) => {
                let class = value.class;
                let number = value.number;
                write!(f, "returned={class}:{number}")
            }
            Ending::NoAnswer(cause) => {
                let cause = cause.number();
                write!(f, "no-answer={cause}")
            }
            Ending::FramesFull => write!(f, "frames-full"),
            Ending::BrokenOff(broken) => {
                let told = broken.told();
                let number = told.number;
                let operand = told.operand;
                write!(f, "broken-off={number}:{operand}")
            }
            Ending::StepsTaken => write!(f, "steps-taken"),
        }
    }
}

impl fmt::Display for Answer {
    ghost output = { λ a. Some (answer_text a.0) };

    fn fmt<W: fmt::Write>(&self, f: &mut fmt::Formatter<W>) -> fmt::Result {
        match self.0 {
            Response::Class { number } => write!(f, "class={number}"),
            Response::Row { number } => write!(f, "row={number}"),
            Response::Started => write!(f, "started"),
            Response::Ended(end) => {
                let ending = Ended(end.ending);
                let steps = end.steps;
                let row = end.row;
                let point = end.point;
                write!(f, "{ending} steps={steps} row={row} point={point}")
            }
            Response::Filled { length, sweeps } => write!(f, "length={length} sweeps={sweeps}"),
            Response::Refused(refusal) => {
                let layer = layer_word(refusal.told().layer);
                write!(f, "{refusal} layer={layer}")
            }
        }
    }
}
