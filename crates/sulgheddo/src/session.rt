ghost use Rattle.std.specs.Prelude.{◌≡◌, IfOk, OnOk};
ghost use Rattle.sulgheddo.specs.Tables.{Blank};

use crate::command::{Command, Kind};
use crate::delta_text::{OwnedDelta, Shown};
use crate::line_error::LineError;
use crate::tables::{OwnedTables, Sizes};
use crate::tally::Tally;
use crate::text_unit::{TextUnit, Units};
use crate::words::Words;
use deltas::{PairFault, Side};
use std::alloc::{AllocError, Global};
use std::{fmt, io};
use units::Refusal;

// What another kind of unit leaves as it is.
#[derive(Clone, Copy)]
pub struct Kept {
    pub tally: Tally,
    // of the output tables
    pub sizes: Sizes,
}

// One client's work with units of one kind, in tables that serve every call.
#[derive(Drop)]
pub struct Session<U> {
    kept: Kept,
    output: OwnedTables<U>,
}

impl<U: TextUnit> Session<U> {
    // A session with blank tables.
    pub(crate) fn new(heap: Global, kept: Kept) -> Result<Session<U>, AllocError>
        ensures { IfOk result (λ s. (s.kept ≡ kept) × Blank U.Unit.blank kept.sizes s.output) }
    {
        let output = OwnedTables::blank(heap, kept.sizes)?;
        Ok(Session { kept, output })
    }

    pub(crate) fn kept(&self) -> Kept
        ensures { result ≡ self.now.kept }
    {
        self.kept
    }

    // Carries out a line. Where it names a kind, that is the answer.
    pub(crate) fn carry_out(
        &mut self,
        rt: &impl Print,
        words: &mut Words<'_>,
    ) -> Result<Option<Kind>, LineError> {
        let Some(command) = Command::read(words)? else {
            return Ok(None);
        };
        match command {
            Command::Kind(kind) => return Ok(Some(kind)),
            Command::RoomOutput(sizes) => self.resize_output(words.heap, sizes)?,
            Command::Combine(earlier, later) => self.combine(rt, &earlier, &later)?,
            Command::Frame(delta) => self.frame(rt, words.heap, &delta)?,
            Command::Parse(frame) => self.parse(rt, frame.as_slice())?,
            Command::TablesOutput => self.print_output(rt)?,
        }
        Ok(None)
    }

    // Gives new, blank output tables.
    fn resize_output(&mut self, heap: Global, sizes: Sizes) -> Result<(), AllocError>
        ensures made { OnOk result (Blank U.Unit.blank sizes self.new.output × (self.new.kept.sizes ≡ sizes)) }
        ensures tally { self.new.kept.tally ≡ self.old.kept.tally }
    {
        self.output = OwnedTables::blank(heap, sizes)?;
        self.kept.sizes = sizes;
        Ok(())
    }

    fn combine(
        &mut self,
        rt: &impl Print,
        earlier: &OwnedDelta<U>,
        later: &OwnedDelta<U>,
    ) -> io::Result<()> {
        let answer = self
            .output
            .combine(earlier, later)
            .map(|head| Shown(self.output.delta(head)))
            .map_err(PairRefusal);
        self.kept.tally.count(rt, "combine", answer)
    }

    fn frame(
        &mut self,
        rt: &impl Print,
        heap: Global,
        delta: &OwnedDelta<U>,
    ) -> Result<(), LineError> {
        let answer = delta.to_frame(heap)?;
        let answer = answer
            .as_ref()
            .map(|frame| Units(frame.as_slice()))
            .map_err(|fault| Refusal::from(*fault));
        self.kept.tally.count(rt, "frame", answer)?;
        Ok(())
    }

    // In the steps of `combine`: a function for what is the same (show the head's delta, count the answer) would be longer
    // than the two lines that it saves.
    fn parse(&mut self, rt: &impl Print, frame: &[u8]) -> io::Result<()> {
        let answer = self
            .output
            .parse(frame)
            .map(|head| Shown(self.output.delta(head)))
            .map_err(Refusal::from);
        self.kept.tally.count(rt, "parse", answer)
    }

    fn print_output(&self, rt: &impl Print) -> io::Result<()> {
        let tables = &self.output;
        println!(rt; "tables: output\n{tables}")
    }
}

// Why two deltas were not combined, as it is printed.
#[derive(Clone, Copy)]
struct PairRefusal(PairFault);

impl fmt::Display for PairRefusal {
    fn fmt<W: fmt::Write>(&self, f: &mut fmt::Formatter<W>) -> fmt::Result {
        write!(f, "{}", Refusal::from(self.0))?;
        match self.0.side() {
            Some(Side::Earlier) => f.write_str(", earlier"),
            Some(Side::Later) => f.write_str(", later"),
            None => Ok(()),
        }
    }
}
