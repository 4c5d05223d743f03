ghost use Rattle.std.specs.Prelude.{◌≡◌, ◌+◌, ◌-◌, ◌^◌, min, IsOk, IsErr};

use std::{fmt, io};

// How many calls were accepted, and how many refused. A count that is full stays so.
#[derive(Clone, Copy, Default)]
pub struct Tally {
    accepted: u64,
    refused: u64,
}

impl Tally {
    // Counts what a call answered, and prints it.
    pub(crate) fn count<A: fmt::Display + Drop, R: fmt::Display + Drop>(
        &mut self,
        rt: &impl Print,
        call: &str,
        answer: Result<A, R>,
    ) -> io::Result<()>
        ensures accepted { IsOk answer → (self.new.accepted ≡ min (self.old.accepted + 1) (2 ^ 64 - 1)) × (self.new.refused ≡ self.old.refused) }
        ensures refused { IsErr answer → (self.new.accepted ≡ self.old.accepted) × (self.new.refused ≡ min (self.old.refused + 1) (2 ^ 64 - 1)) }
    {
        match answer {
            Ok(answer) => {
                self.accepted = self.accepted.saturating_add(1);
                println!(rt; "{call}: {answer}")
            }
            Err(refusal) => {
                self.refused = self.refused.saturating_add(1);
                println!(rt; "{call}: {refusal}")
            }
        }
    }
}

impl fmt::Display for Tally {
    fn fmt<W: fmt::Write>(&self, f: &mut fmt::Formatter<W>) -> fmt::Result {
        write!(f, "{} accepted, {} refused", self.accepted, self.refused)
    }
}
