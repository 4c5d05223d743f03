ghost use Rattle.std.specs.Prelude.{◌≡◌, Ok, Err, MatchResult};
ghost use Rattle.deltas.specs.Check.{checked, own, parts_of, stepped};
ghost use Rattle.deltas.specs.LawfulDeltas.{lawful_parts};

use crate::delta::{Delta, Head};
use crate::fault::DeltaFault;
use crate::instruction::{Instruction, Op};
use crate::lawful::LawfulDelta;

// How many units are inserted after the instruction at an index, or what is wrong with it, where so many
// were inserted before it.
pub fn after_instruction(
    source: u16,
    inserted: usize,
    index: usize,
    instruction: Instruction,
) -> Result<usize, DeltaFault>
    ensures { result ≡ stepped source inserted index instruction }
{
    let from = instruction.from as usize;
    let length = instruction.length as usize;
    if length == 0 {
        return Err(DeltaFault::EmptyInstruction(index));
    }
    match instruction.op {
        Op::Copy => {
            if from + length <= source as usize {
                Ok(inserted)
            } else {
                Err(DeltaFault::CopyPastSource(index))
            }
        }
        Op::Insert => {
            if from == inserted {
                Ok(inserted + length)
            } else {
                Err(DeltaFault::InsertMisplaced(index))
            }
        }
    }
}

impl<'i, 'u, U> Delta<'i, 'u, U> {
    // Whether the delta is lawful: its head, or its first fault.
    pub fn check(&self) -> Result<Head, DeltaFault>
        ensures { result ≡ checked (parts_of self.now) }
    {
        let head = self.head;
        let count = head.instructions;
        if count > self.instructions.len()
            || count > 65535
            || head.inserted > self.units.len()
            || head.inserted > 65535
        {
            return Err(DeltaFault::Counts);
        }
        let mut total = 0;
        let mut inserted = 0;
        for (index, instruction) in self.instructions[0..count].iter().enumerate() {
            inserted = after_instruction(head.source, inserted, index, *instruction)?;
            total += instruction.length as usize;
        }
        if total != head.target as usize {
            return Err(DeltaFault::TargetLength(count));
        }
        if inserted != head.inserted {
            return Err(DeltaFault::InsertedCount(count));
        }
        Ok(head)
    }

    // The delta over its own entries alone, if it is lawful, or its first fault. A method and no `TryFrom`: it is
    // the check, with another answer.
    pub fn lawful(&self) -> Result<LawfulDelta<'i, 'u, U>, DeltaFault>
        ensures { MatchResult result (λ d. (checked (parts_of self.now) ≡ Ok d.head) × (lawful_parts d ≡ own (parts_of self.now))) (λ f. checked (parts_of self.now) ≡ Err f) }
    {
        let head = self.check()?;
        Ok(LawfulDelta {
            head,
            instructions: &self.instructions[0..head.instructions],
            units: &self.units[0..head.inserted],
        })
    }
}
