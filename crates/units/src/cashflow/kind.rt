ghost use Rattle.units.specs.Cashflows.{no_payment, cashflow_code};
ghost use Rattle.units.specs.CashflowLaws.{cashflow_laws};

use crate::cashflow::Cashflow;
use crate::room::{RoomUnit, Slots};
use crate::unit::Unit;
use crate::wire::WireUnit;

// Cashflows, kind 2: a unit is written in 12 bytes, its day and then its amount.

impl Unit for Cashflow {
    ghost blank = { no_payment };

    fn blank() -> Cashflow {
        Cashflow { day: 0, amount: 0 }
    }
}

impl RoomUnit for Cashflow {
    type Room = Slots<Cashflow>;
}

impl WireUnit for Cashflow {
    const KIND: u8 = 2;

    ghost KIND = { 2 };

    const WIDTH: usize = 12;

    ghost WIDTH = { 12 };

    ghost code = { cashflow_code };

    ghost laws = { cashflow_laws };

    fn write(self, out: &mut [u8]) {
        out[0..4].copy_from_slice(&self.day.to_be_bytes());
        out[4..12].copy_from_slice(&self.amount.to_be_bytes());
    }

    fn read(bytes: &[u8]) -> Cashflow {
        let (day, amount) = bytes.split_at(4);
        let day = day.first_chunk().unwrap();
        let amount = amount.first_chunk().unwrap();
        Cashflow {
            day: u32::from_be_bytes(*day),
            amount: i64::from_be_bytes(*amount),
        }
    }
}
