// Combining two deltas, without building the version between them.
ghost use Rattle.std.specs.Prelude.{◌≡◌, length, IfOk};
ghost use Rattle.deltas.specs.Instructions.{blank_instruction};
ghost use Rattle.deltas.specs.Check.{parts_of};
ghost use Rattle.deltas.specs.LawfulDeltas.{lawful_parts};
ghost use Rattle.deltas.specs.Origins.{piece, origins_of, inserts};
ghost use Rattle.combining.specs.Normal.{runs};
ghost use Rattle.combining.specs.Combine.{Meet, through, combined_origins};
ghost use Rattle.combining.specs.Outcomes.{combine_answer, left_in, Holds};
ghost use Rattle.combining.specs.Replace.{replace_origins};
ghost use Rattle.deltas.specs.Places.{Fits};
ghost use Rattle.combining.specs.Steps.{Space, Appended};

use crate::locate::{Cursor, splice};
use crate::write::Output;
use deltas::{Delta, Head, Instruction, LawfulDelta, Op, PairFault, Side};
use units::Unit;

// Takes one later instruction: an insert as it is, and in a copy's place what the earlier delta gives
// there. `inserted` has the later delta's inserted units.
fn combine_instruction<U: Unit>(
    output: &mut Output<U>,
    earlier: &mut Cursor<U>,
    inserted: &[U],
    next: Instruction,
)
    requires fits { Fits earlier.old.delta.now.head.target (length inserted.now) next }
    requires space { Space output.old next.length }
    ensures same_delta { earlier.new.delta.now ≡ earlier.old.delta.now }
    ensures appended { Appended (through (origins_of (lawful_parts earlier.old.delta.now)) (piece inserted.now next)) output.old output.new }
{
    match next.op {
        Op::Copy => splice(output, earlier, next.from, next.length),
        Op::Insert => output.append(inserted, next),
    }
}

// Takes every later instruction in order.
fn write_combined<U: Unit>(output: &mut Output<U>, earlier: &LawfulDelta<U>, later: &LawfulDelta<U>)
    requires meet { Meet (lawful_parts earlier.now) (lawful_parts later.now) }
    requires space { Space output.old later.now.head.target }
    ensures { Appended (combined_origins (lawful_parts earlier.now) (lawful_parts later.now)) output.old output.new }
{
    let mut cursor = Cursor::new(earlier);
    for next in later.instructions {
        combine_instruction(output, &mut cursor, later.units, *next);
    }
}

// Combines an earlier and a later delta into one, which does what the two do one after the other: its
// normal form in the first entries of the output tables, and blanks in all the others. A refusal
// writes nothing. The tables are two slices, as callers lend them.
pub fn combine<U: Unit>(
    earlier: &Delta<U>,
    later: &Delta<U>,
    out_instructions: &mut [Instruction],
    out_units: &mut [U],
) -> Result<Head, PairFault>
    ensures answer { result ≡ combine_answer (parts_of earlier.now) (parts_of later.now) (length out_instructions.old) (length out_units.old) }
    ensures instructions { out_instructions.new ≡ left_in result out_instructions.old (runs (combined_origins (parts_of earlier.now) (parts_of later.now))) blank_instruction }
    ensures units { out_units.new ≡ left_in result out_units.old (inserts (combined_origins (parts_of earlier.now) (parts_of later.now))) U.blank }
    ensures meaning { IfOk result (λ h. Holds h out_instructions.new out_units.new earlier.now.head.source (replace_origins (parts_of earlier.now) (parts_of later.now))) }
{
    let earlier = earlier
        .lawful()
        .map_err(|fault| PairFault::Unsound(Side::Earlier, fault))?;
    let later = later
        .lawful()
        .map_err(|fault| PairFault::Unsound(Side::Later, fault))?;
    if earlier.head.target != later.head.source {
        return Err(PairFault::Lengths(later.head.source));
    }
    let mut output = Output::new(out_instructions, out_units);
    if output.is_short(later.head.target) {
        return Err(PairFault::Short(later.head.target));
    }
    write_combined(&mut output, &earlier, &later);
    Ok(output.finish(earlier.head.source, later.head.target))
}
