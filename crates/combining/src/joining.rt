// How instructions are joined and cut.
ghost use Rattle.std.specs.Prelude.{◌≡◌, ◌+◌, ◌≤◌};
ghost use Rattle.combining.specs.Joining.{goes_on, cut};

use deltas::Instruction;

// Whether `next` takes its units where those of `last` end.
pub(crate) fn goes_on(last: Instruction, next: Instruction) -> bool
    ensures { result ≡ goes_on last next }
{
    let end = last.from as u32 + last.length as u32;
    last.op == next.op && end == next.from as u32
}

// A clone of an instruction, cut at its front by `offset`, and of `length` units.
pub(crate) fn cut(found: Instruction, offset: u16, length: u16) -> Instruction
    requires { found.from + offset ≤ 65535 }
    ensures { result ≡ cut found offset length }
{
    Instruction::new(found.op, found.from + offset, length)
}
