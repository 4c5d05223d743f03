ghost use Rattle.std.specs.Prelude.{◌≡◌};
ghost use Rattle.deltas.specs.Instructions.{instruction, blank_instruction};

// Where an instruction takes its units from.
#[derive(Clone, Copy, PartialEq, Eq, Debug)]
pub enum Op {
    // the source, at `from`
    Copy,
    // the delta's own inserted units, at `from`
    Insert,
}

// One step of a delta: it gives the next `length` units of the target, taken at `from`.
#[derive(Clone, Copy, PartialEq, Eq, Debug)]
pub struct Instruction {
    pub op: Op,
    pub from: u16,
    pub length: u16,
}

impl Instruction {
    // The one place where an instruction is made.
    pub fn new(op: Op, from: u16, length: u16) -> Instruction
        ensures { result ≡ instruction op from length }
    {
        Instruction { op, from, length }
    }

    // What stands in a table where no instruction does: a copy with from 0 and length 0.
    pub fn blank() -> Instruction
        ensures { result ≡ blank_instruction }
    {
        Instruction::new(Op::Copy, 0, 0)
    }
}
