// The checks of a frame, and of the delta in it.
ghost use Rattle.std.specs.Prelude.{◌≡◌, ◌≤◌, Ok, IsOk};
ghost use Rattle.deltas.specs.Check.{head, walked};
ghost use Rattle.faults.specs.declared.frame.ParseFault.TheVariants as parse;
ghost use Rattle.frames.specs.Reading.{then, with_fault, entries, inserts_in};
ghost use Rattle.frames.specs.Outcomes.{check_answer};
ghost use Rattle.frames.specs.Steps.{left, wires_in};

use crate::opening::{Opening, open_frame};
use crate::reader::WireReader;
use deltas::{DeltaFault, Head, after_instruction};
use faults::{FrameFault, ParseFault};
use units::WireUnit;

// Checks that so many instructions are left, and nothing behind them. Answers how many units they insert.
fn count_inserted<U: WireUnit>(mut reader: WireReader, count: u16) -> Result<usize, FrameFault>
    ensures { result ≡ then (left U.WIDTH count reader.entry) (λ xs. Ok (inserts_in xs)) }
{
    let mut inserted = 0;
    // over a count: each turn reads on, and can fail
    for _turn in 0..count {
        let wire = reader.next_instruction::<U>()?;
        inserted += wire.inserted() as usize;
    }
    reader.end()?;
    Ok(inserted)
}

// Checks the delta whose instructions are left, which insert so many units: its head, or its first fault.
fn check_instructions<U: WireUnit>(
    mut reader: WireReader,
    opening: Opening,
    inserted: usize,
) -> Result<Head, ParseFault>
    requires stands { IsOk (left U.WIDTH opening.instructions reader) }
    requires inserted { inserted ≡ inserts_in (wires_in U.WIDTH opening.instructions reader) }
    requires few { inserted ≤ 65535 }
    ensures { result ≡ with_fault parse.Delta (walked (head opening.source opening.target opening.instructions inserted) 0 0 0 (entries 0 (wires_in U.WIDTH opening.instructions reader.entry))) }
{
    let count = opening.instructions as usize;
    let mut total = 0;
    let mut before = 0;
    // over a count too, and the index is a fault's place; no frame's fault is left here, and `?` says it in less
    for index in 0..count {
        let wire = reader.next_instruction::<U>()?;
        let next = wire.entry(before as u16);
        before = after_instruction(opening.source, before, index, next)?;
        total += next.length as usize;
    }
    if total != opening.target as usize {
        return Err(DeltaFault::TargetLength(count).into());
    }
    Ok(Head {
        source: opening.source,
        target: opening.target,
        instructions: count,
        inserted,
    })
}

// Whether bytes are the frame of a lawful delta: its head, or the first fault.
pub fn check_frame<U: WireUnit>(frame: &[u8]) -> Result<Head, ParseFault>
    ensures { result ≡ check_answer U.code frame.now }
{
    let opening = open_frame(frame, U::KIND)?;
    let reader = WireReader::new(frame);
    let inserted = count_inserted::<U>(reader, opening.instructions)?;
    if inserted > 65535 {
        return Err(DeltaFault::Counts.into());
    }
    check_instructions::<U>(reader, opening, inserted)
}
