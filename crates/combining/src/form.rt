// The normal form of a delta: each instruction one longest run.
ghost use Rattle.std.specs.Prelude.{◌≡◌, length, IfOk, Decides};
ghost use Rattle.deltas.specs.Instructions.{blank_instruction};
ghost use Rattle.deltas.specs.Check.{parts_of};
ghost use Rattle.deltas.specs.LawfulDeltas.{lawful_parts};
ghost use Rattle.deltas.specs.Origins.{origins_of, inserts};
ghost use Rattle.combining.specs.Normal.{runs, all_apart, Normal};
ghost use Rattle.combining.specs.Outcomes.{normal_answer, left_in, Holds};
ghost use Rattle.combining.specs.Steps.{Space, Appended};

use crate::joining::goes_on;
use crate::write::Output;
use deltas::{Delta, Head, Instruction, LawfulDelta, NormalFault};
use units::Unit;

// Writes the runs of a delta's instructions.
fn write_runs<U: Unit>(output: &mut Output<U>, delta: &LawfulDelta<U>)
    requires { Space output.old delta.now.head.target }
    ensures { Appended (origins_of (lawful_parts delta.now)) output.old output.new }
{
    for next in delta.instructions {
        output.append(delta.units, *next);
    }
}

// Whether no instruction goes on where the one before it ended.
fn are_apart(instructions: &[Instruction]) -> bool
    ensures { result ≡ all_apart instructions.now }
{
    instructions
        .array_windows::<2>()
        .all(|[last, next]| !goes_on(*last, *next))
}

// Whether the delta is lawful and each of its instructions is one longest run.
pub fn is_normal<U>(delta: &Delta<U>) -> bool
    ensures { Decides result (Normal (parts_of delta.now)) }
{
    delta
        .lawful()
        .is_ok_and(|lawful| are_apart(lawful.instructions))
}

// Writes the delta's normal form into the first entries of two output tables, and blanks into all
// the others. A refusal writes nothing. The tables are two slices, as callers lend them.
pub fn normalise<U: Unit>(
    delta: &Delta<U>,
    out_instructions: &mut [Instruction],
    out_units: &mut [U],
) -> Result<Head, NormalFault>
    ensures answer { result ≡ normal_answer (parts_of delta.now) (length out_instructions.old) (length out_units.old) }
    ensures instructions { out_instructions.new ≡ left_in result out_instructions.old (runs (origins_of (parts_of delta.now))) blank_instruction }
    ensures units { out_units.new ≡ left_in result out_units.old (inserts (origins_of (parts_of delta.now))) U.blank }
    ensures meaning { IfOk result (λ h. Holds h out_instructions.new out_units.new delta.now.head.source (origins_of (parts_of delta.now))) }
{
    let delta = delta.lawful()?;
    let mut output = Output::new(out_instructions, out_units);
    if output.is_short(delta.head.target) {
        return Err(NormalFault::Short(delta.head.target));
    }
    write_runs(&mut output, &delta);
    Ok(output.finish(delta.head.source, delta.head.target))
}
