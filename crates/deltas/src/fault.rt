ghost use Rattle.std.specs.Prelude.{◌≡◌};
ghost use Rattle.deltas.specs.declared.fault.NormalFault.TheVariants.{Unlawful};
ghost use Rattle.deltas.specs.Refusals.{delta_refusal, pair_refusal, pair_side};

use units::{Layer, Refusal};

// Why a delta is not lawful, with the index of the instruction at fault or, for the two totals, the
// count of instructions.
#[derive(Clone, Copy, PartialEq, Eq, Debug)]
pub enum DeltaFault {
    // a count passes its table or 65,535
    Counts,
    // an instruction of length 0
    EmptyInstruction(usize),
    // a copy that does not end inside the source
    CopyPastSource(usize),
    // an insert that does not begin where the earlier inserts ended
    InsertMisplaced(usize),
    // the lengths do not add up to the target length
    TargetLength(usize),
    // the inserted lengths do not add up to the inserted count
    InsertedCount(usize),
}

// Which of two deltas: the one that is applied first, or the one after it.
#[derive(Clone, Copy, PartialEq, Eq, Debug)]
pub enum Side {
    Earlier,
    Later,
}

// Why two deltas are not combined.
#[derive(Clone, Copy, PartialEq, Eq, Debug)]
pub enum PairFault {
    // one of the two is not lawful
    Unsound(Side, DeltaFault),
    // the later delta's source length, which is not the earlier one's target length
    Lengths(u16),
    // an output table has fewer entries than this, the later target length
    Short(u16),
}

// Why a delta is not normalised. It has no refusal number: who calls for a normal form gives it one.
#[derive(Clone, Copy, PartialEq, Eq, Debug)]
pub enum NormalFault {
    // the delta is not lawful
    Unlawful(DeltaFault),
    // an output table has fewer entries than this, the target length
    Short(u16),
}

// By hand: a derived conversion promises nothing, and this one says what it gives.
impl From<DeltaFault> for NormalFault {
    ghost from_gives = { λ f r. r ≡ Unlawful f };

    fn from(fault: DeltaFault) -> NormalFault {
        NormalFault::Unlawful(fault)
    }
}

// A fault as users know it.
impl From<DeltaFault> for Refusal {
    ghost from_gives = { λ f r. r ≡ delta_refusal f };

    fn from(fault: DeltaFault) -> Refusal {
        let (number, place) = match fault {
            DeltaFault::Counts => (9, 0),
            DeltaFault::EmptyInstruction(index) => (6, index),
            DeltaFault::CopyPastSource(index) => (7, index),
            DeltaFault::InsertMisplaced(index) => (10, index),
            DeltaFault::TargetLength(count) => (8, count),
            DeltaFault::InsertedCount(count) => (10, count),
        };
        Refusal {
            number,
            layer: Layer::Delta,
            place,
        }
    }
}

// A fault as users know it.
impl From<PairFault> for Refusal {
    ghost from_gives = { λ f r. r ≡ pair_refusal f };

    fn from(fault: PairFault) -> Refusal {
        let (number, place) = match fault {
            PairFault::Unsound(_, fault) => return fault.into(),
            PairFault::Lengths(source) => (11, source),
            PairFault::Short(need) => (31, need),
        };
        Refusal {
            number,
            layer: Layer::Pair,
            place: place as usize,
        }
    }
}

impl PairFault {
    // Which of the two deltas is at fault, where it is one of them.
    pub fn side(self) -> Option<Side>
        ensures { result ≡ pair_side self }
    {
        match self {
            PairFault::Unsound(side, _) => Some(side),
            _ => None,
        }
    }
}
