// A host made of two: names below 128 go to the first, the rest to the second.
ghost use Rattle.semantics.specs.Hosts.{switch_reply};

use crate::host::Host;
use semantics::value::{Answer, Question};

pub const FIRST_OF_SECOND: u8 = 128;

#[derive(Drop)]
pub struct Switch<F: Host, S: Host> {
    pub first: F,
    pub second: S,
}

impl<F: Host, S: Host> Host for Switch<F, S> {
    ghost Condition = { F.Host.Condition × S.Host.Condition };

    ghost condition = { λ s. (F.Host.condition s.first, S.Host.condition s.second) };

    ghost reply = { switch_reply F.Host.reply S.Host.reply };

    fn ask(&mut self, question: &Question) -> Answer {
        if question.name < FIRST_OF_SECOND {
            self.first.ask(question)
        } else {
            self.second.ask(question)
        }
    }
}
