// A size change: a smaller or an equal size keeps the entry's place, a larger one has a new working time.
ghost use Rattle.std.specs.Prelude.{◌≡◌};
ghost use Rattle.rules.specs.Calls.{resize_of};
ghost use Rattle.rules.specs.Sound.{Sound};
ghost use Rattle.book.specs.Answers.{Settles};

use crate::state::State;
use rules::{Entry, Refusal, valid_size};

impl State<'_> {
    // Sets the size of a firm's resting entry, and answers it.
    #[tactic(auto, unfolding(rules::specs::Calls::resize_of))]
    pub(crate) fn resize(&mut self, id: u64, firm: u16, size: u32) -> Result<u32, Refusal>
        requires { Sound self.old }
        ensures { Settles (resize_of (record { id = id; firm = firm; size = size }) self.old) self.old result self.new (λ d a. a ≡ d.answer) }
    {
        if firm == 0 {
            return Err(Refusal::FirmZero);
        }
        if !valid_size(size) {
            return Err(Refusal::BadSize);
        }
        let own = self.own_entry(id, firm)?;
        let e = own.entry;
        if size <= e.size {
            self.replace(own.side, own.at, Entry { size, ..e });
            return Ok(size);
        }
        if self.last_time_reached() {
            return Err(Refusal::LastTimeReached);
        }
        let time = self.last_time + 1;
        self.remove(own.side, own.at);
        self.insert(own.side, Entry { size, time, ..e });
        Ok(size)
    }
}
