ghost use Rattle.std.specs.Prelude.{◌+◌, ◌*◌, ◌<◌, ◌≤◌, vec_len};
ghost use Rattle.std.specs.Option.{SomeIff};
ghost use Rattle.std.specs.Char.{digit_value};

use crate::entry::{Entry, EntryText, NONE};
use crate::line_error::{Field, LineError};
use crate::words::number;
use std::fmt;
use units::{Cashflow, WireUnit};

// A kind of unit that call lists can name.
pub trait TextUnit: WireUnit + Entry {
    // what stands between two units
    const GAP: &'static str;

    // Adds the units of a run, one at least, to those that there are.
    fn read_run(text: &str, units: &mut Vec<Self>) -> Result<(), LineError>
        ensures { vec_len units.old ≤ vec_len units.new };
}

impl TextUnit for u8 {
    const GAP: &'static str = "";

    fn read_run(text: &str, units: &mut Vec<u8>) -> Result<(), LineError> {
        for pair in text.as_bytes().chunks(2) {
            let [high, low] = pair else {
                return Err(LineError::OddDigit);
            };
            units.push(byte_of(*high, *low).ok_or(LineError::NotHexadecimal)?)?;
        }
        Ok(())
    }
}

// The byte that two hexadecimal digits stand for.
fn byte_of(high: u8, low: u8) -> Option<u8>
    ensures { SomeIff result ((digit_value high < 16) × (digit_value low < 16)) (digit_value high * 16 + digit_value low) }
{
    let high = (high as char).to_digit(16)?;
    let low = (low as char).to_digit(16)?;
    Some((high * 16 + low) as u8)
}

impl TextUnit for Cashflow {
    const GAP: &'static str = ",";

    fn read_run(text: &str, units: &mut Vec<Cashflow>) -> Result<(), LineError> {
        for flow in text.split(',') {
            units.push(cashflow_of(flow)?)?;
        }
        Ok(())
    }
}

// The cashflow that DAY:AMOUNT stands for.
fn cashflow_of(text: &str) -> Result<Cashflow, LineError> {
    let (day, amount) = text.split_once(':').ok_or(LineError::NotCashflow)?;
    Ok(Cashflow {
        day: number(Field::Day, day)?,
        amount: number(Field::Amount, amount)?,
    })
}

// Adds the units that UNITS stands for to those that there are. A lone minus stands for none.
pub(crate) fn read_units<U: TextUnit>(text: &str, units: &mut Vec<U>) -> Result<(), LineError>
    ensures { vec_len units.old ≤ vec_len units.new }
{
    if text == NONE {
        return Ok(());
    }
    U::read_run(text, units)
}

// Units as they are written.
#[derive(Clone, Copy)]
pub struct Units<'a, U>(pub &'a [U]);

impl<U: TextUnit> fmt::Display for Units<'_, U> {
    fn fmt<W: fmt::Write>(&self, f: &mut fmt::Formatter<W>) -> fmt::Result {
        if self.0.is_empty() {
            return f.write_str(NONE);
        }
        f.write_joined(self.0.iter().map(EntryText), U::GAP)
    }
}
