ghost use Rattle.std.specs.Prelude.{◌≡◌, ◌≤◌, IfOk, None, Ok};
ghost use Rattle.sulgheddo.specs.Lines.{unread};
ghost use Rattle.std.specs.Iterator.{at_most};

use crate::line_error::{Field, LineError};
use std::alloc::Global;
use std::fmt;
use std::num::{IntErrorKind, ParseIntError};
use std::str::FromStr;

// The words of a line, which spaces part, read from left to right, and where the memory for what they say comes from.
#[derive(Clone, Copy)]
pub struct Words<'a> {
    pub heap: Global,
    // the word that was read last; none before the first word and after the last
    at: Option<&'a str>,
    rest: &'a str,
}

// What reads a word says that no more is left than before. That is a fact about two states, which no invariant of one
// value can say, so each of these functions says it.
impl<'a> Words<'a> {
    pub(crate) fn new(heap: Global, line: &'a str) -> Words<'a>
        ensures at { result.at ≡ None }
        ensures rest { result.rest.now ≡ line.now }
    {
        Words {
            heap,
            at: None,
            rest: line,
        }
    }

    // The word that was read last; none at either end of the line.
    pub(crate) fn at(&self) -> Option<&'a str>
        ensures { result ≡ self.now.at }
    {
        self.at
    }

    // The next word, which says this.
    pub(crate) fn word(&mut self, field: Field) -> Result<&'a str, LineError>
        ensures { unread self.new ≤ unread self.old }
    {
        self.next().ok_or(LineError::Missing(field))
    }

    // The next word as a number.
    pub(crate) fn number<N: FromStr<Err = ParseIntError>>(
        &mut self,
        field: Field,
    ) -> Result<N, LineError>
        ensures { unread self.new ≤ unread self.old }
    {
        number(field, self.word(field)?)
    }

    // Reads the next word, which can only be this one.
    pub(crate) fn keyword(&mut self, field: Field, keyword: &str) -> Result<(), LineError>
        ensures { unread self.new ≤ unread self.old }
    {
        if self.word(field)? == keyword {
            Ok(())
        } else {
            Err(LineError::Unknown)
        }
    }

    // Refuses a word more.
    pub(crate) fn end(&mut self) -> Result<(), LineError>
        ensures { unread self.new ≤ unread self.old }
    {
        match self.next() {
            Some(_) => Err(LineError::Spare),
            None => Ok(()),
        }
    }
}

impl<'a> Iterator for Words<'a> {
    type Item = &'a str;

    ghost remaining = { λ s. at_most (unread s) };

    ghost next_gives = { λ s _ t. unread t ≤ unread s };

    fn next(&mut self) -> Option<&'a str> {
        let rest = self.rest.trim_start_matches(' ');
        if rest.is_empty() {
            self.at = None;
            return None;
        }
        let (word, rest) = rest.split_once(' ').unwrap_or((rest, ""));
        self.at = Some(word);
        self.rest = rest;
        Some(word)
    }
}

// A number in decimal digits, with no plus. A minus stands only before a number that may be below 0.
pub(crate) fn number<N: FromStr<Err = ParseIntError>>(
    field: Field,
    word: &str,
) -> Result<N, LineError>
    ensures { IfOk result (λ n. N.FromStr.from_str_gives word.now (Ok n)) }
{
    if word.starts_with('+') {
        return Err(LineError::NotNumber(field));
    }
    word.parse()
        .map_err(|error: ParseIntError| match error.kind() {
            IntErrorKind::PosOverflow | IntErrorKind::NegOverflow => LineError::Unfit(field),
            _ => LineError::NotNumber(field),
        })
}

// How many characters of a word are quoted.
const QUOTED: usize = 40;

// A word as an error quotes it: escaped, so that it stays on one line, and cut where it is long.
#[derive(Clone, Copy)]
pub struct Quoted<'a>(pub &'a str);

impl fmt::Display for Quoted<'_> {
    fn fmt<W: fmt::Write>(&self, f: &mut fmt::Formatter<W>) -> fmt::Result {
        f.write_str("'")?;
        for c in self.0.chars().take(QUOTED) {
            write!(f, "{}", c.escape_debug())?;
        }
        let is_cut = self.0.chars().count() > QUOTED;
        f.write_str(if is_cut { "..'" } else { "'" })
    }
}
