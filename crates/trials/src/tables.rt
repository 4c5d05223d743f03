// What the tests share: short ways to write instructions, deltas and refusals, and calls that are refused.

use deltas::{Delta, Head, Instruction, Op};
use std::process::Abort;
use std::test::Fail;
use units::{Layer, Refusal};

// Two names, since a test reads as the list of its instructions.
pub(crate) fn copy(from: u16, length: u16) -> Instruction {
    Instruction::new(Op::Copy, from, length)
}

pub(crate) fn insert(from: u16, length: u16) -> Instruction {
    Instruction::new(Op::Insert, from, length)
}

pub(crate) fn head(source: u16, target: u16, instructions: usize, inserted: usize) -> Head {
    Head {
        source,
        target,
        instructions,
        inserted,
    }
}

// A delta whose counts are its tables' lengths.
pub(crate) fn delta<'i, 'u>(
    source: u16,
    target: u16,
    instructions: &'i [Instruction],
    units: &'u [u8],
) -> Delta<'i, 'u, u8> {
    Delta {
        head: head(source, target, instructions.len(), units.len()),
        instructions,
        units,
    }
}

pub(crate) fn refusal(number: u8, layer: Layer, place: usize) -> Refusal {
    Refusal {
        number,
        layer,
        place,
    }
}

// The fault of a call that writes into tables of so many entries, if it is refused. The tables must then be
// as they were. Their sizes are two numbers here and in what calls this, as each case writes them.
pub(crate) fn fault_of<E: Drop, F: FnOnce(&mut [Instruction], &mut [u8]) -> Result<Head, E>>(
    rt: &impl Abort,
    entries: usize,
    more: usize,
    call: F,
) -> Result<Option<E>, Fail>
    requires { F.IsAlwaysCallable call }
{
    let mut instructions = [insert(7, 7); 8];
    let mut units = [9; 8];
    let fault = call(
        &mut instructions[0..entries.min(8)],
        &mut units[0..more.min(8)],
    )
    .err();
    if fault.is_some() {
        assert_eq!(rt; instructions, [insert(7, 7); 8]);
        assert_eq!(rt; units, [9; 8]);
    }
    Ok(fault)
}
