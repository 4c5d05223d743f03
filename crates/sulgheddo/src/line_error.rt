use std::alloc::AllocError;
use std::{fmt, io};
use thiserror::Error;

// What a word of a line says.
#[derive(Clone, Copy, Debug)]
pub enum Field {
    Kind,
    What,
    InstructionEntries,
    UnitEntries,
    Source,
    Target,
    From,
    Length,
    Units,
    Day,
    Amount,
    Then,
    Frame,
}

// Why a line ended the run. Most cases are about one word of the line, the one that was read last.
#[derive(Clone, Copy, Debug, Error)]
pub enum LineError {
    // the word means nothing where it stands
    #[error("unknown word")]
    Unknown,
    // the line ends where this should stand
    #[error("{0} is missing")]
    Missing(Field),
    // a word more than the command takes
    #[error("spare word")]
    Spare,
    // this should stand there, and it is no number
    #[error("{0} is not a number")]
    NotNumber(Field),
    // the number does not fit this
    #[error("{0} does not fit")]
    Unfit(Field),
    // two hexadecimal digits make a byte, and one digit is left over
    #[error("an odd digit")]
    OddDigit,
    // not hexadecimal digits
    #[error("not hexadecimal")]
    NotHexadecimal,
    // not DAY:AMOUNT
    #[error("not DAY:AMOUNT")]
    NotCashflow,
    // more units than the length of one instruction can say
    #[error("more than 65535 units")]
    LongInsert,
    // the line could not be read
    #[error("cannot be read: {0}")]
    Unread(io::Error),
    // an answer could not be printed: `?` after printing makes this, and a line that can't be read is made `Unread` by hand
    #[error("cannot be printed: {0}")]
    Unprinted(#[from] io::Error),
    // there is no memory left
    #[error("out of memory")]
    Memory(#[from(alloc)] AllocError),
}

// By hand, since a derive writes texts for errors alone.
impl fmt::Display for Field {
    fn fmt<W: fmt::Write>(&self, f: &mut fmt::Formatter<W>) -> fmt::Result {
        f.write_str(match self {
            Field::Kind => "KIND",
            Field::What => "WHAT",
            Field::InstructionEntries => "I",
            Field::UnitEntries => "U",
            Field::Source => "SOURCE",
            Field::Target => "TARGET",
            Field::From => "FROM",
            Field::Length => "LENGTH",
            Field::Units => "UNITS",
            Field::Day => "DAY",
            Field::Amount => "AMOUNT",
            Field::Then => "then",
            Field::Frame => "FRAME",
        })
    }
}
