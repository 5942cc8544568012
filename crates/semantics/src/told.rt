// The numbers that causes and breaks tell.
ghost use Rattle.std.specs.Prelude.{◌≡◌};
ghost use Rattle.semantics.specs.Endings.{breaking, break_told};
ghost use Rattle.semantics.specs.Hosts.{cause_number};

use crate::ending::{Break, BreakTold};
use crate::misfit::Misfit;
use crate::value::Cause;

const fn breaking(number: u8, operand: usize) -> BreakTold
    ensures { result ≡ breaking number operand }
{
    BreakTold { number, operand }
}

impl Break {
    pub fn told(&self) -> BreakTold
        ensures { result ≡ break_told self.now }
    {
        match *self {
            Break::Misfit(Misfit::NoRow) => breaking(12, 1),
            Break::Misfit(Misfit::Argument { operand }) => breaking(13, operand),
            Break::Misfit(Misfit::ResultClass) => breaking(14, 0),
            Break::Misfit(Misfit::Condition) => breaking(15, 0),
            Break::Misfit(Misfit::Row { operand }) => breaking(16, operand),
            Break::AnswerClass => breaking(21, 0),
        }
    }
}

impl Cause {
    pub fn number(&self) -> u8
        ensures { result ≡ cause_number self.now }
    {
        *self as u8
    }
}
