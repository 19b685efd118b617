// A return: its checks, its row goes, and what was not executed away trades again.
ghost use Rattle.std.specs.Prelude.{◌≡◌};
ghost use Rattle.rules.specs.Calls.{return_of};
ghost use Rattle.rules.specs.Sound.{Sound};
ghost use Rattle.book.specs.Answers.{Settles};
ghost use Rattle.book.specs.Entries.{Tapes};
ghost use Rattle.book.specs.Returns.{returning, Comes};

use crate::find::find;
use crate::state::State;
use crate::ticket::Ticket;
use matching::Lent;
use rules::{Refusal, Routed};
use sharing::Rule;

impl State<'_> {
    // The place of the row that comes back, or the first check that refuses the return.
    #[tactic(auto, using(crate::proofs::Finding::found_at), unfolding(rules::specs::Calls::return_of))]
    fn check_return(
        &self,
        ticket: &Ticket,
        executed: u32,
        lent: &Lent<'_>,
    ) -> Result<usize, Refusal>
        ensures { Comes (returning ticket.now executed lent.now) self.now result }
    {
        self.check_lent(lent)?;
        let at = find(&self.out, ticket.id).ok_or(Refusal::NotOutHere)?;
        if ticket.series != self.series {
            return Err(Refusal::NotOutHere);
        }
        if executed > self.out[at].size {
            return Err(Refusal::MoreThanRouted);
        }
        Ok(at)
    }

    // A return is refused by the first check that fits, and else carried out.
    pub(crate) fn give_back<R: Rule>(
        &mut self,
        rule: &R,
        ticket: &Ticket,
        executed: u32,
        lent: &mut Lent<'_>,
    ) -> Result<(), Refusal>
        requires { Sound self.old }
        ensures outcome { Settles (return_of (R.meaning rule.now) (returning ticket.now executed lent.old) self.old) self.old result self.new (λ d a. Unit {0}) }
        ensures tapes { Tapes (return_of (R.meaning rule.now) (returning ticket.now executed lent.old) self.old) lent.old lent.new }
    {
        let at = self.check_return(ticket, executed, lent)?;
        // Stays in two steps: which order trades and which row goes can be got wrong apart.
        let row = self.out[at];
        self.out.remove(at);
        let back = Routed {
            size: row.size - executed,
            ..row
        };
        // It has no leave to route, so it does not go out again.
        let _out = self.trade(rule, &back, false, lent);
        Ok(())
    }
}
