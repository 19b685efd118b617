// What the host lends for a call, and how lines are written to its tape.
ghost use Rattle.std.specs.Prelude.{◌≡◌, ◌<◌, [], ◌∷◌, length};
ghost use Rattle.matching.specs.Tapes.{Writes};

use rules::Line;
use sharing::Claim;

// A claim sheet, and a tape of which the first lines are written.
// Stays a slice with a count beside it: the core allocates nothing, the tape is the host's own, and the count is what a call answers.
// Stays without the rule that goes with it in the calls: customers' steps share by time, whatever that rule.
#[derive(Drop)]
pub struct Lent<'a> {
    pub sheet: &'a mut [Claim],
    pub tape: &'a mut [Line],
    pub lines: usize,
}

impl<'a> Lent<'a> {
    // A tape of which no line is written yet.
    pub fn new(sheet: &'a mut [Claim], tape: &'a mut [Line]) -> Self
        ensures { result ≡ record { sheet = sheet.entry; tape = tape.entry; lines = 0 } }
    {
        Lent {
            sheet,
            tape,
            lines: 0,
        }
    }

    // The next line of the tape.
    #[tactic(auto, using(crate::proofs::Written::written_one))]
    pub fn write(&mut self, line: Line)
        requires room { self.old.lines < length self.old.tape.now }
        ensures writes { Writes (line ∷ []) self.old self.new }
        ensures claims { self.new.sheet.now ≡ self.old.sheet.now }
    {
        self.tape[self.lines] = line;
        self.lines += 1;
    }
}
