ghost use Rattle.std.specs.Prelude.{◌^◌, ◌<◌};
ghost use Rattle.std.specs.Int.Signed.{mag};

mod kind;

// A payment on a day.
#[derive(Clone, Copy, PartialEq, Eq, Debug)]
pub struct Cashflow {
    // days since 1 January 1970, which is day 0
    pub day: u32,
    // in minor currency units, below 0 where it is paid out
    pub amount: i64,
    // the two fit their types, to specifications, where a number has no limit
    ghost fits_day: { day < 2 ^ 32 },
    ghost fits_amount: { mag amount < 2 ^ 63 },
}
