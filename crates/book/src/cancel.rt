// A cancel: a resting entry goes.
ghost use Rattle.std.specs.Prelude.{◌≡◌};
ghost use Rattle.rules.specs.Calls.{cancel_of};
ghost use Rattle.rules.specs.Sound.{Sound};
ghost use Rattle.book.specs.Answers.{Settles};

use crate::state::State;
use rules::Refusal;

impl State<'_> {
    // Takes a firm's resting entry off the book, and answers its size.
    #[tactic(auto, using(crate::proofs::Cancelled::without_found), unfolding(rules::specs::Calls::cancel_of))]
    pub(crate) fn cancel(&mut self, id: u64, firm: u16) -> Result<u32, Refusal>
        requires { Sound self.old }
        ensures { Settles (cancel_of (record { id = id; firm = firm }) self.old) self.old result self.new (λ d a. a ≡ d.answer) }
    {
        if firm == 0 {
            return Err(Refusal::FirmZero);
        }
        let own = self.own_entry(id, firm)?;
        self.remove(own.side, own.at);
        Ok(own.entry.size)
    }
}
