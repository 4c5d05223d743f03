ghost use Rattle.std.specs.Prelude.{◌≡◌, ◌≤◌, take, drop, IfOk, Ok, Err, vec_len, MatchResult};
ghost use Rattle.deltas.specs.Check.{parts_of};
ghost use Rattle.faults.specs.declared.frame.WriteFault.TheVariants.{Unlawful};
ghost use Rattle.frames.specs.Outcomes.{length_answer};
ghost use Rattle.frames.specs.Reading.{with_fault};
ghost use Rattle.frames.specs.Writing.{encoded};
ghost use Rattle.sulgheddo.specs.Lines.{unread};
ghost use Rattle.sulgheddo.specs.Tables.{delta_of};

use crate::line_error::{Field, LineError};
use crate::tables::OwnedTables;
use crate::text_unit::{TextUnit, Units, read_units};
use crate::words::Words;
use deltas::{Delta, Head, Instruction, Op};
use faults::WriteFault;
use frames::{frame_length, write_frame};
use std::alloc::{AllocError, Global};
use std::fmt;

// A delta that was read, with tables of its own.
#[derive(Drop)]
pub struct OwnedDelta<U> {
    source: u16,
    target: u16,
    tables: OwnedTables<U>,
}

impl<U: TextUnit> OwnedDelta<U> {
    // Reads a delta. The words are then at the first that is no part of it, or at their end.
    pub(crate) fn read(words: &mut Words<'_>) -> Result<OwnedDelta<U>, LineError> {
        let source = words.number(Field::Source)?;
        let target = words.number(Field::Target)?;
        let mut tables = OwnedTables::empty(words.heap);
        while let Some(word) = words.next() {
            let instruction = match word {
                "copy" => read_copy(words)?,
                "insert" => read_insert(words, &mut tables.units)?,
                _ => break,
            };
            tables.instructions.push(instruction)?;
        }
        Ok(OwnedDelta {
            source,
            target,
            tables,
        })
    }

    // Reads a delta that goes to the end of the line.
    pub(crate) fn read_last(words: &mut Words<'_>) -> Result<OwnedDelta<U>, LineError> {
        let delta = OwnedDelta::read(words)?;
        match words.at() {
            Some(_) => Err(LineError::Unknown),
            None => Ok(delta),
        }
    }

    // The delta over its tables, which hold nothing else.
    pub(crate) fn lent(&self) -> Delta<'_, '_, U>
        ensures { parts_of result ≡ delta_of self.now }
    {
        self.tables.delta(Head {
            source: self.source,
            target: self.target,
            instructions: self.tables.instructions.len(),
            inserted: self.tables.units.len(),
        })
    }

    // The delta's frame, in just as many bytes, or why the delta has none. That is an answer, and a lack of memory ends
    // the run: with one error type callers would have to tell the two apart again.
    pub(crate) fn to_frame(&self, heap: Global) -> Result<Result<Vec<u8>, WriteFault>, AllocError>
        ensures { IfOk result (λ a. MatchResult a (λ f. (length_answer U.code (delta_of self.now) ≡ Ok (vec_len f)) × (f.items ≡ encoded U.code (delta_of self.now))) (λ e. with_fault Unlawful (length_answer U.code (delta_of self.now)) ≡ Err e)) }
    {
        let delta = self.lent();
        // where the delta is unlawful, no bytes are asked for, and writing the frame says why
        let length = frame_length(&delta).unwrap_or(0);
        let mut frame = vec![in heap; 0; length]?;
        Ok(write_frame(&delta, frame.as_mut_slice()).and(Ok(frame)))
    }
}

fn read_copy(words: &mut Words<'_>) -> Result<Instruction, LineError>
    ensures { unread words.new ≤ unread words.old }
{
    let from = words.number(Field::From)?;
    let length = words.number(Field::Length)?;
    Ok(Instruction::new(Op::Copy, from, length))
}

// Reads an insert, and adds its units to those that there are.
fn read_insert<U: TextUnit>(
    words: &mut Words<'_>,
    units: &mut Vec<U>,
) -> Result<Instruction, LineError>
    ensures { unread words.new ≤ unread words.old }
{
    let before = units.len();
    read_units(words.word(Field::Units)?, units)?;
    let length = u16::try_from(units.len() - before).map_err(|_| LineError::LongInsert)?;
    // more than 65,535 units in all are refused later, wherever this says that they begin
    let from = u16::try_from(before).unwrap_or(u16::MAX);
    Ok(Instruction::new(Op::Insert, from, length))
}

// A delta as it is written.
#[derive(Drop)]
pub struct Shown<'i, 'u, U>(pub Delta<'i, 'u, U>);

impl<U: TextUnit> fmt::Display for Shown<'_, '_, U> {
    fn fmt<W: fmt::Write>(&self, f: &mut fmt::Formatter<W>) -> fmt::Result {
        let head = self.0.head;
        write!(f, "{} {}", head.source, head.target)?;
        for instruction in self.0.instructions.iter().take(head.instructions) {
            let Instruction { op, from, length } = *instruction;
            match op {
                Op::Copy => write!(f, " copy {from} {length}")?,
                Op::Insert => {
                    write!(f, " insert {}", Units(part(self.0.units, from, length)))?;
                }
            }
        }
        Ok(())
    }
}

// So many units from a place on, as far as there are any.
fn part<U>(units: &[U], from: u16, length: u16) -> &[U]
    ensures { result.now ≡ take length (drop from units.now) }
{
    let rest = units.get(from as usize..).unwrap_or(&[]);
    rest.get(..length as usize).unwrap_or(rest)
}
