// What a host is. Its meaning is its condition, the answer that each condition gives to each question, and the condition left behind.
ghost use Rattle.std.specs.Prelude.{◌≡◌};
ghost use Rattle.semantics.specs.Hosts.{Reply, question_of};

use semantics::value::{Answer, Question};

pub trait Host {
    ghost Condition: { Type 0 };

    ghost condition: { Self → Condition };

    ghost reply: { Reply Condition };

    fn ask(&mut self, question: &Question) -> Answer
        ensures answer { result ≡ (reply (condition self.old) (question_of question.now)).0 }
        ensures left { condition self.new ≡ (reply (condition self.old) (question_of question.now)).1 };
}
