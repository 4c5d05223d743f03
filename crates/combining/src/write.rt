// How the runs of a delta are written into two output tables.
ghost use Rattle.std.specs.Prelude.{◌≡◌, ◌+◌, ◌-◌, ◌<◌, ◌≤◌, ◌++◌, length, take, replicate};
ghost use Rattle.deltas.specs.Check.{head};
ghost use Rattle.deltas.specs.Instructions.{blank_instruction};
ghost use Rattle.combining.specs.Normal.{extend};
ghost use Rattle.combining.specs.Outcomes.{short};
ghost use Rattle.deltas.specs.Origins.{piece};
ghost use Rattle.deltas.specs.Places.{total, Fits};

use crate::joining::goes_on;
use deltas::{Head, Instruction, Op, blank_rest};
use units::Unit;

// Puts one instruction behind the first `count` of a lent table: it makes the last of them longer where
// it goes on, and stands for itself where not. Answers how many there are then.
fn emit(out: &mut [Instruction], count: usize, next: Instruction) -> usize
    requires space { count < length out.old }
    requires places { total (take count out.old) + next.length ≤ 65535 }
    ensures front { take result out.new ≡ extend (take count out.old) next }
    ensures most { result ≤ count + 1 }
{
    if count > 0 && goes_on(out[count - 1], next) {
        out[count - 1].length += next.length;
        return count;
    }
    out[count] = next;
    count + 1
}

// Two output tables, and how many entries of each are written so far: they are lent and keep their
// lengths, since nothing is allocated. The public calls take them as two slices, as callers lend them.
#[derive(Drop)]
pub(crate) struct Output<'i, 'u, U> {
    pub instructions: &'i mut [Instruction],
    pub units: &'u mut [U],
    pub count: usize,
    pub inserted: usize,
}

impl<'i, 'u, U: Unit> Output<'i, 'u, U> {
    ghost use Rattle.combining.specs.Steps.{Space, Appended, written_instructions, written_units};

    // Two tables of which nothing is written.
    pub(crate) fn new(instructions: &'i mut [Instruction], units: &'u mut [U]) -> Output<'i, 'u, U>
        ensures instructions { result.instructions ≡ instructions.entry }
        ensures units { result.units ≡ units.entry }
        ensures count { result.count ≡ 0 }
        ensures inserted { result.inserted ≡ 0 }
    {
        Output {
            instructions,
            units,
            count: 0,
            inserted: 0,
        }
    }

    // Whether one of the tables has fewer entries than this.
    pub(crate) fn is_short(&self, need: u16) -> bool
        ensures { result ≡ short need (length self.now.instructions.now) (length self.now.units.now) }
    {
        let need = need as usize;
        self.instructions.len() < need || self.units.len() < need
    }

    // Writes what one instruction gives behind what is written: `source` has the units that it inserts.
    pub(crate) fn append(&mut self, source: &[U], part: Instruction)
        requires fits { Fits 65535 (length source.now) part }
        requires space { Space self.old part.length }
        ensures { Appended (piece source.now part) self.old self.new }
    {
        match part.op {
            Op::Copy => {
                self.count = emit(self.instructions, self.count, part);
            }
            Op::Insert => {
                let start = self.inserted;
                let end = start + part.length as usize;
                let from = part.from as usize;
                let to = from + part.length as usize;
                let next = Instruction::new(Op::Insert, start as u16, part.length);
                self.count = emit(self.instructions, self.count, next);
                self.units[start..end].copy_from_slice(&source[from..to]);
                self.inserted = end;
            }
        }
    }

    // Blanks what is not written, and answers the head of the delta that is.
    pub(crate) fn finish(self, source: u16, target: u16) -> Head
        ensures head { result ≡ head source target self.entry.count self.entry.inserted }
        ensures instructions { self.exit.0.now ≡ written_instructions self.entry ++ replicate (length self.entry.instructions.now - self.entry.count) blank_instruction }
        ensures units { self.exit.1.0.now ≡ written_units self.entry ++ replicate (length self.entry.units.now - self.entry.inserted) U.blank }
    {
        let Output {
            instructions,
            units,
            count,
            inserted,
        } = self;
        blank_rest(instructions, count, Instruction::blank());
        blank_rest(units, inserted, U::blank());
        Head {
            source,
            target,
            instructions: count,
            inserted,
        }
    }
}
