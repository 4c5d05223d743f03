// One instruction as it stands in a frame.
ghost use Rattle.std.specs.Prelude.{◌≡◌};
ghost use Rattle.frames.specs.Instructions.{shown, extent, inserts_of};
ghost use Rattle.frames.specs.Reading.{entry};

use deltas::{Instruction, Op};

// The tags that tell a copy from an insert.
pub(crate) const COPY_TAG: u8 = 1;

pub(crate) const INSERT_TAG: u8 = 2;

// An instruction as it stands in a frame: a copy is its tag, from and length; an insert is its tag, length
// and the bytes of its units, which stay in the frame.
#[derive(Clone, Copy, PartialEq, Eq, Debug)]
pub(crate) enum WireInstruction<'a> {
    Copy { from: u16, length: u16 },
    Insert { length: u16, units: &'a [u8] },
}

impl WireInstruction<'_> {
    // How many units it inserts.
    pub(crate) fn inserted(&self) -> u16
        ensures { result ≡ inserts_of (shown self.now) }
    {
        match self {
            WireInstruction::Copy { .. } => 0,
            WireInstruction::Insert { length, .. } => *length,
        }
    }

    // How many bytes it takes.
    pub(crate) fn extent(&self) -> usize
        ensures { result ≡ extent (shown self.now) }
    {
        match self {
            WireInstruction::Copy { .. } => 5,
            WireInstruction::Insert { units, .. } => 3 + units.len(),
        }
    }

    // The instruction as it stands in a table, after so many inserted units.
    pub(crate) fn entry(&self, inserted: u16) -> Instruction
        ensures { result ≡ entry inserted (shown self.now) }
    {
        match self {
            WireInstruction::Copy { from, length } => Instruction::new(Op::Copy, *from, *length),
            WireInstruction::Insert { length, .. } => Instruction::new(
                Op::Insert,
                inserted,
                *length,
            ),
        }
    }
}
