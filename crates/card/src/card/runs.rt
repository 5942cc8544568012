// The calls that begin a run and go on with it.
ghost use Rattle.std.specs.Prelude.{◌≡◌, Ok};
ghost use Rattle.semantics.specs.Cards.{not_in_hand, start_answer, start_after, gone_by, go_after, host_after};
ghost use Rattle.semantics.specs.Reading.{so};
ghost use Rattle.card.specs.CardMeaning.{card_of};

use crate::card::Card;
use crate::values::Opening;
use classes::table::ClassTable;
use hosts::host::Host;
use semantics::call::Offered;
use semantics::ending::End;
use semantics::refusal::Refusal;

const MAX_STEPS: u32 = 65535;

impl<T: ClassTable> Card<T> {
    // Whether no run is in hand.
    fn free(&self) -> Result<(), Refusal>
        ensures { result ≡ not_in_hand (card_of T.listed self.now).run }
    {
        if self.run.in_hand() {
            return Err(Refusal::RunInHand);
        }
        Ok(())
    }

    // A run of the method that a name means on the receiver.
    pub fn start(
        &mut self,
        receiver: Offered,
        name: u32,
        arguments: &[Offered],
    ) -> Result<(), Refusal>
        ensures answer { result ≡ start_answer (card_of T.listed self.old) receiver name arguments.now }
        ensures after { card_of T.listed self.new ≡ start_after (card_of T.listed self.old) receiver name arguments.now }
    {
        self.free()?;
        let opening = Opening::of(receiver, name, arguments)?;
        opening.present(&self.table)?;
        let store = self.rows.store(&self.table);
        self.run
            .begin(&store, opening.receiver, opening.name, &opening.arguments)
    }

    // At most `steps` steps of the run in hand.
    pub fn go<H: Host>(&mut self, host: &mut H, steps: u32) -> Result<End, Refusal>
        ensures answer { result ≡ so (gone_by (card_of T.listed self.old) H.reply steps (H.condition host.old)) (λ g. Ok g.end) }
        ensures after { card_of T.listed self.new ≡ go_after (card_of T.listed self.old) H.reply steps (H.condition host.old) }
        ensures host { H.condition host.new ≡ host_after (H.condition host.old) (gone_by (card_of T.listed self.old) H.reply steps (H.condition host.old)) }
    {
        if steps > MAX_STEPS {
            return Err(Refusal::ArgumentOutOfRange);
        }
        let store = self.rows.store(&self.table);
        self.run.go(&store, host, steps as usize)
    }
}
