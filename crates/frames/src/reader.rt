// The instructions of a frame, read one after another.
ghost use Rattle.std.specs.Prelude.{◌≡◌, ◌<◌, ◌≤◌, length, Ok, Err, MatchResult};
ghost use Rattle.frames.specs.Instructions.{shown};

use crate::opening::INSTRUCTIONS_PLACE;
use crate::wire::{COPY_TAG, INSERT_TAG, WireInstruction};
use faults::FrameFault;
use units::WireUnit;

// A frame, and the place in it where the next instruction's tag is due: a number, since a fault names
// it. It does not hold how many are due, on which no reading depends, and it is no iterator: each walk
// goes over a count, and one of them looks at what stands behind the last.
#[derive(Clone, Copy)]
pub(crate) struct WireReader<'a> {
    frame: &'a [u8],
    place: usize,
    ghost inside: { place ≤ length frame.now },
}

impl<'a> WireReader<'a> {
    ghost use Rattle.frames.specs.Steps.{Read, due};

    // Stands at the first instruction of a frame.
    pub(crate) fn new(frame: &'a [u8]) -> WireReader<'a>
        requires { INSTRUCTIONS_PLACE ≤ length frame.now }
        ensures frame { result.frame.now ≡ frame.now }
        ensures place { result.place ≡ INSTRUCTIONS_PLACE }
    {
        WireReader {
            frame,
            place: INSTRUCTIONS_PLACE,
        }
    }

    // The instruction that is due, which stays unread.
    fn due_instruction<U: WireUnit>(&self) -> Result<WireInstruction<'a>, FrameFault>
        ensures { MatchResult result (λ x. due U.WIDTH self.now ≡ Ok (shown x)) (λ e. due U.WIDTH self.now ≡ Err e) }
    {
        let rest = &self.frame[self.place..];
        match rest {
            [COPY_TAG, f0, f1, l0, l1, ..] => Ok(WireInstruction::Copy {
                from: u16::from_be_bytes([*f0, *f1]),
                length: u16::from_be_bytes([*l0, *l1]),
            }),
            [INSERT_TAG, l0, l1, units @ ..] => {
                let length = u16::from_be_bytes([*l0, *l1]);
                let size = length as usize * U::WIDTH;
                if units.len() < size {
                    return Err(FrameFault::CutShort(self.place));
                }
                Ok(WireInstruction::Insert {
                    length,
                    units: &units[0..size],
                })
            }
            [] | [COPY_TAG, ..] | [INSERT_TAG, ..] => Err(FrameFault::CutShort(self.place)),
            _ => Err(FrameFault::UnknownTag(self.place)),
        }
    }

    // Reads the instruction that is due, and stands behind it.
    pub(crate) fn next_instruction<U: WireUnit>(
        &mut self,
    ) -> Result<WireInstruction<'a>, FrameFault>
        ensures { MatchResult result (λ x. Read U.WIDTH self.old (shown x) self.new) (λ e. due U.WIDTH self.old ≡ Err e) }
    {
        let instruction = self.due_instruction::<U>()?;
        self.place += instruction.extent();
        Ok(instruction)
    }

    // Whether nothing is left.
    pub(crate) fn end(&self) -> Result<(), FrameFault>
        ensures { MatchResult result (λ _. self.now.place ≡ length self.now.frame.now) (λ e. (e ≡ FrameFault.SpareBytes self.now.place) × (self.now.place < length self.now.frame.now)) }
    {
        if self.place == self.frame.len() {
            Ok(())
        } else {
            Err(FrameFault::SpareBytes(self.place))
        }
    }
}
