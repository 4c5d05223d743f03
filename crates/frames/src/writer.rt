// Bytes that are written one after another.
ghost use Rattle.std.specs.Prelude.{◌≡◌, ℕ, ◌≤◌, length};
ghost use Rattle.std.specs.List.{flat_map};
ghost use Rattle.deltas.specs.Places.{Fits};
ghost use Rattle.frames.specs.Instructions.{wire_bytes};
ghost use Rattle.frames.specs.Writing.{wire_of, instructions_bytes, opening_bytes};
ghost use Rattle.frames.specs.Steps.{HasRoom, Wrote};

use crate::opening::VERSION;
use crate::wire::{COPY_TAG, INSERT_TAG};
use deltas::{Head, Instruction, LawfulDelta, Op};
use units::WireUnit;

// An output, which is written up to `at`: it is lent and keeps its length.
#[derive(Drop)]
pub(crate) struct Writer<'a> {
    out: &'a mut [u8],
    at: usize,
}

impl<'a> Writer<'a> {
    // At the front of an output.
    pub(crate) fn new(out: &'a mut [u8]) -> Writer<'a>
        ensures out { result.out ≡ out.entry }
        ensures at { result.at ≡ 0 }
    {
        Writer { out, at: 0 }
    }

    // Writes bytes.
    fn put(&mut self, bytes: &[u8])
        requires { HasRoom self.old bytes.now }
        ensures { Wrote self.old bytes.now self.new }
    {
        let end = self.at + bytes.len();
        self.out[self.at..end].copy_from_slice(bytes);
        self.at = end;
    }

    // Writes units.
    fn put_units<U: WireUnit>(&mut self, units: &[U])
        requires { HasRoom self.old (flat_map U.code.written units.now) }
        ensures { Wrote self.old (flat_map U.code.written units.now) self.new }
    {
        // no chunks, since units may be of no bytes
        for unit in units {
            let end = self.at + U::WIDTH;
            unit.write(&mut self.out[self.at..end]);
            self.at = end;
        }
    }

    // Writes an instruction; `units` are the delta's own.
    fn put_instruction<U: WireUnit>(&mut self, units: &[U], instruction: Instruction)
        requires fits { (s : ℕ) × Fits s (length units.now) instruction }
        requires room { HasRoom self.old (wire_bytes (wire_of U.code units.now instruction)) }
        ensures { Wrote self.old (wire_bytes (wire_of U.code units.now instruction)) self.new }
    {
        match instruction.op {
            Op::Copy => {
                self.put(&[COPY_TAG]);
                self.put(&instruction.from.to_be_bytes());
                self.put(&instruction.length.to_be_bytes());
            }
            Op::Insert => {
                let from = instruction.from as usize;
                let to = from + instruction.length as usize;
                self.put(&[INSERT_TAG]);
                self.put(&instruction.length.to_be_bytes());
                self.put_units(&units[from..to]);
            }
        }
    }

    // Writes the instructions of a lawful delta.
    pub(crate) fn put_instructions<U: WireUnit>(&mut self, delta: &LawfulDelta<U>)
        requires { HasRoom self.old (instructions_bytes U.code delta.now.units.now delta.now.instructions.now) }
        ensures { Wrote self.old (instructions_bytes U.code delta.now.units.now delta.now.instructions.now) self.new }
    {
        for instruction in delta.instructions {
            self.put_instruction(delta.units, *instruction);
        }
    }

    // Writes the first 12 bytes of a frame.
    pub(crate) fn put_opening(&mut self, body: u32, kind: u8, head: Head)
        requires few { head.instructions ≤ 65535 }
        requires room { HasRoom self.old (opening_bytes body kind head.source head.target head.instructions) }
        ensures { Wrote self.old (opening_bytes body kind head.source head.target head.instructions) self.new }
    {
        let count = head.instructions as u16;
        self.put(&[VERSION]);
        self.put(&body.to_be_bytes());
        self.put(&[kind]);
        self.put(&head.source.to_be_bytes());
        self.put(&head.target.to_be_bytes());
        self.put(&count.to_be_bytes());
    }
}
