// Reading a frame into tables.
ghost use Rattle.std.specs.Prelude.{◌≡◌, ◌+◌, ◌*◌, ◌≤◌, length, IfOk, IsOk};
ghost use Rattle.std.specs.List.{flat_map};
ghost use Rattle.std.proofs.lemmas.List.Edits.{sets};
ghost use Rattle.deltas.specs.Check.{parts};
ghost use Rattle.deltas.specs.Instructions.{blank_instruction};
ghost use Rattle.combining.specs.Outcomes.{left_in};
ghost use Rattle.frames.specs.Instructions.{shown, inserts_of};
ghost use Rattle.frames.specs.Reading.{units_in, units_of_wire, entries, inserts_in, parsed_frame};
ghost use Rattle.frames.specs.Writing.{encoded};
ghost use Rattle.frames.specs.Outcomes.{read_answer, held};
ghost use Rattle.frames.specs.Steps.{left, wires_in, Sized};

use crate::check::check_frame;
use crate::reader::WireReader;
use crate::wire::WireInstruction;
use deltas::{Head, Instruction, blank_rest};
use faults::ReadFault;
use units::WireUnit;

// Reads as many units as `out` has entries.
fn read_units<U: WireUnit>(bytes: &[u8], out: &mut [U])
    requires { length bytes.now ≡ length out.old * U.WIDTH }
    ensures { out.new ≡ units_in U.code (length out.old) bytes.now }
{
    let mut rest = bytes;
    for unit in out {
        // no chunks, since units may be of no bytes
        let (own, after) = rest.split_at(U::WIDTH);
        *unit = U::read(own);
        rest = after;
    }
}

// Writes the units that an instruction inserts into a table, from `at` on, and answers where they end.
fn store_units<U: WireUnit>(wire: &WireInstruction, units: &mut [U], at: usize) -> usize
    requires sized { Sized U.WIDTH (shown wire.now) }
    requires room { at + inserts_of (shown wire.now) ≤ length units.old }
    ensures end { result ≡ at + inserts_of (shown wire.now) }
    ensures units { units.new ≡ sets units.old at (units_of_wire U.code (shown wire.now)) }
{
    match wire {
        WireInstruction::Copy { .. } => at,
        WireInstruction::Insert {
            length,
            units: bytes,
        } => {
            let end = at + *length as usize;
            read_units(bytes, &mut units[at..end]);
            end
        }
    }
}

// Writes the delta whose instructions are left to the front of two tables.
fn fill<U: WireUnit>(
    mut reader: WireReader,
    count: usize,
    instructions: &mut [Instruction],
    units: &mut [U],
)
    requires stands { IsOk (left U.WIDTH count reader) }
    requires few { inserts_in (wires_in U.WIDTH count reader) ≤ 65535 }
    requires instructions { count ≤ length instructions.old }
    requires units { inserts_in (wires_in U.WIDTH count reader) ≤ length units.old }
    ensures instructions { instructions.new ≡ sets instructions.old 0 (entries 0 (wires_in U.WIDTH count reader.entry)) }
    ensures units { units.new ≡ sets units.old 0 (flat_map (units_of_wire U.code) (wires_in U.WIDTH count reader.entry)) }
{
    let mut inserted = 0;
    for entry in &mut instructions[0..count] {
        // none of those that are left is at fault
        let wire = reader.next_instruction::<U>().unwrap();
        *entry = wire.entry(inserted as u16);
        inserted = store_units(&wire, units, inserted);
    }
}

// Reads a frame into two tables: the delta in their first entries, and blanks in all the others. Answers
// the delta's head. A refusal writes nothing. The tables are two slices, as callers lend them.
pub fn read_frame<U: WireUnit>(
    frame: &[u8],
    instructions: &mut [Instruction],
    units: &mut [U],
) -> Result<Head, ReadFault>
    ensures answer { result ≡ read_answer U.code frame.now (length instructions.old) (length units.old) }
    ensures instructions { instructions.new ≡ left_in result instructions.old (held (parsed_frame U.code frame.now) (λ d. d.table)) blank_instruction }
    ensures units { units.new ≡ left_in result units.old (held (parsed_frame U.code frame.now) (λ d. d.units)) U.Unit.blank }
    ensures written_again { IfOk result (λ h. encoded U.code (parts h instructions.new units.new) ≡ frame.now) }
{
    let head = check_frame::<U>(frame)?;
    let count = head.instructions;
    let inserted = head.inserted;
    if instructions.len() < count {
        return Err(ReadFault::Short(count));
    }
    if units.len() < inserted {
        return Err(ReadFault::Short(inserted));
    }
    fill(WireReader::new(frame), count, instructions, units);
    blank_rest(instructions, count, Instruction::blank());
    blank_rest(units, inserted, U::blank());
    Ok(head)
}
