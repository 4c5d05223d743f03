// Deltas that passed the check.
ghost use Rattle.std.specs.Prelude.{◌≡◌, ◌≤◌, length};
ghost use Rattle.deltas.specs.Check.{parts, Lawful};

use crate::delta::Head;
use crate::instruction::Instruction;

// A lawful delta over its own entries alone. It keeps the delta's head whole, though its counts repeat the lengths of
// the slices: the check answers that head, and a frame is written from it.
#[derive(Drop)]
pub struct LawfulDelta<'i, 'u, U> {
    pub head: Head,
    pub instructions: &'i [Instruction],
    pub units: &'u [U],
    // it has as many entries as its head says, and passes the check
    pub ghost count: { length instructions.now ≡ head.instructions },
    pub ghost inserted: { length units.now ≡ head.inserted },
    pub ghost lawful: { Lawful (parts head instructions.now units.now) },
    // what the types of its head's fields say, to specifications
    pub ghost source: { head.source ≤ 65535 },
    pub ghost target: { head.target ≤ 65535 },
}
