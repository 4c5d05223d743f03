ghost use Rattle.std.specs.Prelude.{◌≡◌, [], replicate, IfOk, vec_len};
ghost use Rattle.combining.specs.Combine.{combined_origins};
ghost use Rattle.deltas.specs.Instructions.{blank_instruction};
ghost use Rattle.combining.specs.Normal.{runs};
ghost use Rattle.deltas.specs.Origins.{inserts};
ghost use Rattle.combining.specs.Outcomes.{combine_answer, left_in};
ghost use Rattle.frames.specs.Outcomes.{read_answer, held};
ghost use Rattle.frames.specs.Reading.{parsed_frame};
ghost use Rattle.sulgheddo.specs.Tables.{Blank, delta_of};

use crate::delta_text::OwnedDelta;
use crate::entry::Entries;
use crate::text_unit::TextUnit;
use combining::combine;
use deltas::{Delta, Head, Instruction, PairFault};
use faults::ReadFault;
use frames::read_frame;
use std::alloc::{AllocError, Global};
use std::fmt;

// How many entries a table of instructions and a table of units have.
#[derive(Clone, Copy)]
pub struct Sizes {
    pub instructions: usize,
    pub units: usize,
}

// A table of instructions and a table of units.
#[derive(Drop)]
pub struct OwnedTables<U> {
    pub instructions: Vec<Instruction>,
    pub units: Vec<U>,
}

impl<U: TextUnit> OwnedTables<U> {
    // Tables of no entries.
    pub(crate) fn empty(heap: Global) -> OwnedTables<U>
        ensures instructions { result.instructions.items ≡ [] }
        ensures units { result.units.items ≡ [] }
    {
        OwnedTables {
            instructions: Vec::new(heap),
            units: Vec::new(heap),
        }
    }

    // Tables of these sizes, all blank.
    pub(crate) fn blank(heap: Global, sizes: Sizes) -> Result<OwnedTables<U>, AllocError>
        ensures { IfOk result (λ t. Blank U.Unit.blank sizes t) }
    {
        Ok(OwnedTables {
            instructions: filled(heap, Instruction::blank(), sizes.instructions)?,
            units: filled(heap, U::blank(), sizes.units)?,
        })
    }

    // Combines two deltas into the tables.
    pub(crate) fn combine(
        &mut self,
        earlier: &OwnedDelta<U>,
        later: &OwnedDelta<U>,
    ) -> Result<Head, PairFault>
        ensures answer { result ≡ combine_answer (delta_of earlier.now) (delta_of later.now) (vec_len self.old.instructions) (vec_len self.old.units) }
        ensures instructions { self.new.instructions.items ≡ left_in result self.old.instructions.items (runs (combined_origins (delta_of earlier.now) (delta_of later.now))) blank_instruction }
        ensures units { self.new.units.items ≡ left_in result self.old.units.items (inserts (combined_origins (delta_of earlier.now) (delta_of later.now))) U.Unit.blank }
    {
        combine(
            &earlier.lent(),
            &later.lent(),
            self.instructions.as_mut_slice(),
            self.units.as_mut_slice(),
        )
    }

    // Reads a frame into the tables.
    pub(crate) fn parse(&mut self, frame: &[u8]) -> Result<Head, ReadFault>
        ensures answer { result ≡ read_answer U.code frame.now (vec_len self.old.instructions) (vec_len self.old.units) }
        ensures instructions { self.new.instructions.items ≡ left_in result self.old.instructions.items (held (parsed_frame U.code frame.now) (λ d. d.table)) blank_instruction }
        ensures units { self.new.units.items ≡ left_in result self.old.units.items (held (parsed_frame U.code frame.now) (λ d. d.units)) U.Unit.blank }
    {
        read_frame(
            frame,
            self.instructions.as_mut_slice(),
            self.units.as_mut_slice(),
        )
    }

    // The delta that the tables hold under this head.
    pub(crate) fn delta(&self, head: Head) -> Delta<'_, '_, U>
        ensures head { result.head ≡ head }
        ensures instructions { result.instructions.now ≡ self.now.instructions.items }
        ensures units { result.units.now ≡ self.now.units.items }
    {
        Delta {
            head,
            instructions: self.instructions.as_slice(),
            units: self.units.as_slice(),
        }
    }
}

// A table that holds one value throughout.
fn filled<T: Copy>(heap: Global, value: T, count: usize) -> Result<Vec<T>, AllocError>
    ensures { IfOk result (λ v. v.items ≡ replicate count value) }
{
    let mut table = Vec::new(heap);
    table.resize(count, value)?;
    Ok(table)
}

// All that the two tables hold, a line for each.
impl<U: TextUnit> fmt::Display for OwnedTables<U> {
    fn fmt<W: fmt::Write>(&self, f: &mut fmt::Formatter<W>) -> fmt::Result {
        write!(
            f,
            "  instructions {}\n  units {}",
            Entries(self.instructions.as_slice()),
            Entries(self.units.as_slice())
        )
    }
}
