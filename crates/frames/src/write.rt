// Writing a delta as a frame.
ghost use Rattle.std.specs.Prelude.{◌≡◌, ◌+◌, ◌^◌, ◌<◌, length, take, IfOk, Ok};
ghost use Rattle.deltas.specs.Check.{parts_of, own};
ghost use Rattle.deltas.specs.LawfulDeltas.{lawful_parts};
ghost use Rattle.frames.specs.Reading.{parsed_frame};
ghost use Rattle.frames.specs.Writing.{encoded};
ghost use Rattle.frames.specs.Outcomes.{length_answer, write_answer, front_in};
ghost use Rattle.frames.specs.Steps.{extent_of};

use crate::opening::{BODY_PLACE, INSTRUCTIONS_PLACE};
use crate::writer::Writer;
use deltas::{Delta, DeltaFault, Instruction, LawfulDelta, Op};
use faults::WriteFault;
use units::WireUnit;

// How many bytes an instruction of a table takes. A wire instruction counts the bytes that it holds (`extent`), of
// which this one has none.
fn extent_of<U: WireUnit>(instruction: Instruction) -> usize
    ensures { result ≡ extent_of U.WIDTH instruction.op instruction.length }
{
    match instruction.op {
        Op::Copy => 5,
        Op::Insert => 3 + instruction.length as usize * U::WIDTH,
    }
}

// How many bytes the frame of a lawful delta has; the count of those after the first five fits four
// bytes.
fn lawful_length<U: WireUnit>(delta: &LawfulDelta<U>) -> usize
    ensures length { result ≡ length (encoded U.code (lawful_parts delta.now)) }
    ensures fits { result < 5 + 2 ^ 32 }
{
    // by a loop: that no part of the sum is too large is shown turn by turn
    let mut length = INSTRUCTIONS_PLACE;
    for instruction in delta.instructions {
        length += extent_of::<U>(*instruction);
    }
    length
}

// How many bytes the frame of a lawful delta has; the count of those after the first five fits four
// bytes.
pub fn frame_length<U: WireUnit>(delta: &Delta<U>) -> Result<usize, DeltaFault>
    ensures answer { result ≡ length_answer U.code (parts_of delta.now) }
    ensures fits { IfOk result (λ n. n < 5 + 2 ^ 32) }
{
    let lawful = delta.lawful()?;
    Ok(lawful_length(&lawful))
}

// Writes the frame of a delta to the front of the output, and answers its length. The rest of the output
// stays as it was. A refusal writes nothing.
pub fn write_frame<U: WireUnit>(delta: &Delta<U>, out: &mut [u8]) -> Result<usize, WriteFault>
    ensures answer { result ≡ write_answer U.code (parts_of delta.now) (length out.old) }
    ensures out { out.new ≡ front_in result out.old (encoded U.code (parts_of delta.now)) }
    ensures read_back { IfOk result (λ n. parsed_frame U.code (take n out.new) ≡ Ok (own (parts_of delta.now))) }
{
    let lawful = delta.lawful()?;
    let length = lawful_length(&lawful);
    if out.len() < length {
        return Err(WriteFault::Short(length));
    }
    let body = (length - BODY_PLACE) as u32;
    let mut writer = Writer::new(out);
    writer.put_opening(body, U::KIND, lawful.head);
    writer.put_instructions(&lawful);
    Ok(length)
}
