ghost use Rattle.std.specs.Prelude.{◌≤◌, IfOk};

use crate::delta_text::OwnedDelta;
use crate::line_error::{Field, LineError};
use crate::tables::Sizes;
use crate::text_unit::{TextUnit, read_units};
use crate::words::Words;
use std::str::FromStr;

// The kinds of units.
#[derive(Clone, Copy)]
pub enum Kind {
    Byte,
    Cashflow,
}

// The most entries that a table may be given.
const MOST_ENTRIES: usize = 4_194_240;

// A line of a call list, understood.
#[derive(Drop)]
pub enum Command<U> {
    Kind(Kind),
    RoomOutput(Sizes),
    Combine(OwnedDelta<U>, OwnedDelta<U>),
    Frame(OwnedDelta<U>),
    Parse(Vec<u8>),
    TablesOutput,
}

impl FromStr for Kind {
    ghost use Rattle.sulgheddo.specs.Clients.{NamesKind};

    type Err = LineError;

    ghost from_str_gives = { NamesKind };

    fn from_str(name: &str) -> Result<Kind, LineError> {
        match name {
            "byte" => Ok(Kind::Byte),
            "cashflow" => Ok(Kind::Cashflow),
            _ => Err(LineError::Unknown),
        }
    }
}

impl<U: TextUnit> Command<U> {
    // The command of a line's words, or none where the line has none.
    pub(crate) fn read(words: &mut Words<'_>) -> Result<Option<Command<U>>, LineError> {
        let Some(name) = words.next() else {
            return Ok(None);
        };
        let command = match name {
            "kind" => Command::Kind(words.word(Field::Kind)?.parse()?),
            "room" => Command::read_room(words)?,
            "combine" => Command::read_combine(words)?,
            "frame" => Command::Frame(OwnedDelta::read_last(words)?),
            "parse" => Command::read_parse(words)?,
            "tables" => Command::read_tables(words)?,
            _ => return Err(LineError::Unknown),
        };
        words.end()?;
        Ok(Some(command))
    }

    fn read_room(words: &mut Words<'_>) -> Result<Command<U>, LineError> {
        words.keyword(Field::What, "output")?;
        Ok(Command::RoomOutput(Sizes {
            instructions: read_entries(Field::InstructionEntries, words)?,
            units: read_entries(Field::UnitEntries, words)?,
        }))
    }

    fn read_combine(words: &mut Words<'_>) -> Result<Command<U>, LineError> {
        let earlier = OwnedDelta::read(words)?;
        match words.at().ok_or(LineError::Missing(Field::Then))? {
            "then" => Ok(Command::Combine(earlier, OwnedDelta::read_last(words)?)),
            _ => Err(LineError::Unknown),
        }
    }

    fn read_parse(words: &mut Words<'_>) -> Result<Command<U>, LineError> {
        let mut frame = Vec::new(words.heap);
        read_units(words.word(Field::Frame)?, &mut frame)?;
        Ok(Command::Parse(frame))
    }

    fn read_tables(words: &mut Words<'_>) -> Result<Command<U>, LineError> {
        words.keyword(Field::What, "output")?;
        Ok(Command::TablesOutput)
    }
}

// How many entries a table is to have.
fn read_entries(field: Field, words: &mut Words<'_>) -> Result<usize, LineError>
    ensures { IfOk result (λ n. n ≤ 4194240) }
{
    let entries = words.number(field)?;
    if entries > MOST_ENTRIES {
        return Err(LineError::Unfit(field));
    }
    Ok(entries)
}
