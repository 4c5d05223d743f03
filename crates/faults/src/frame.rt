// Faults of frames.
ghost use Rattle.std.specs.Prelude.{◌≡◌};
ghost use Rattle.faults.specs.declared.frame.ParseFault.TheVariants.{Frame, Delta};
ghost use Rattle.faults.specs.declared.frame.ReadFault.TheVariants.{Unread};
ghost use Rattle.faults.specs.declared.frame.WriteFault.TheVariants.{Unlawful};
ghost use Rattle.units.specs.declared.refusal.Layer.TheVariants as layer;
ghost use Rattle.deltas.specs.Refusals.{refused};
ghost use Rattle.faults.specs.Refusals.{frame_refusal, parse_refusal, read_refusal, write_refusal};

use deltas::DeltaFault;
use units::{Layer, Refusal};

// Why bytes are not a frame, with the place in the frame where that shows.
#[derive(Clone, Copy, PartialEq, Eq, Debug)]
pub enum FrameFault {
    // the frame ends too early: under 12 bytes (0), fewer than its body length says (1), or inside the
    // instruction whose tag is due at this place
    CutShort(usize),
    // byte 0 is not the version
    Version,
    // bytes past the end, from this place on
    SpareBytes(usize),
    // the units are of another kind
    OtherKind,
    // the byte at this place, where a tag is due, is none
    UnknownTag(usize),
}

// Why bytes are not the frame of a lawful delta.
#[derive(Clone, Copy, PartialEq, Eq, Debug)]
pub enum ParseFault {
    // they are not a frame
    Frame(FrameFault),
    // they are the frame of a delta that is not lawful
    Delta(DeltaFault),
}

// Why a frame is not read into tables. This and `WriteFault` stay two enums: one that is generic in the
// fault inside could only promise that its refusal is related to that fault's, and each of these
// promises the very refusal.
#[derive(Clone, Copy, PartialEq, Eq, Debug)]
pub enum ReadFault {
    // it is not the frame of a lawful delta
    Unread(ParseFault),
    // a table has fewer entries than this, which its part of the delta has
    Short(usize),
}

// Why a delta is not written as a frame.
#[derive(Clone, Copy, PartialEq, Eq, Debug)]
pub enum WriteFault {
    // it is not lawful
    Unlawful(DeltaFault),
    // the output has fewer bytes than this, the frame's length
    Short(usize),
}

// These four by hand: a derived conversion promises nothing, and each of these says what it gives.
impl From<FrameFault> for ParseFault {
    ghost from_gives = { λ f r. r ≡ Frame f };

    fn from(fault: FrameFault) -> ParseFault {
        ParseFault::Frame(fault)
    }
}

impl From<DeltaFault> for ParseFault {
    ghost from_gives = { λ f r. r ≡ Delta f };

    fn from(fault: DeltaFault) -> ParseFault {
        ParseFault::Delta(fault)
    }
}

impl From<ParseFault> for ReadFault {
    ghost from_gives = { λ f r. r ≡ Unread f };

    fn from(fault: ParseFault) -> ReadFault {
        ReadFault::Unread(fault)
    }
}

impl From<DeltaFault> for WriteFault {
    ghost from_gives = { λ f r. r ≡ Unlawful f };

    fn from(fault: DeltaFault) -> WriteFault {
        WriteFault::Unlawful(fault)
    }
}

// A fault as users know it.
impl From<FrameFault> for Refusal {
    ghost from_gives = { λ f r. r ≡ frame_refusal f };

    fn from(fault: FrameFault) -> Refusal {
        let (number, place) = match fault {
            FrameFault::CutShort(place) => (1, place),
            FrameFault::Version => (2, 0),
            FrameFault::SpareBytes(place) => (3, place),
            FrameFault::OtherKind => (4, 5),
            FrameFault::UnknownTag(place) => (5, place),
        };
        Refusal {
            number,
            layer: Layer::Frame,
            place,
        }
    }
}

// A fault as users know it.
impl From<ParseFault> for Refusal {
    ghost from_gives = { λ f r. r ≡ parse_refusal f };

    fn from(fault: ParseFault) -> Refusal {
        match fault {
            ParseFault::Frame(fault) => fault.into(),
            ParseFault::Delta(fault) => fault.into(),
        }
    }
}

// What is refused where a table or an output has fewer entries than the need.
fn too_short(need: usize) -> Refusal
    ensures { result ≡ refused 31 layer.Frame need }
{
    Refusal {
        number: 31,
        layer: Layer::Frame,
        place: need,
    }
}

// A fault as users know it.
impl From<ReadFault> for Refusal {
    ghost from_gives = { λ f r. r ≡ read_refusal f };

    fn from(fault: ReadFault) -> Refusal {
        match fault {
            ReadFault::Unread(fault) => fault.into(),
            ReadFault::Short(need) => too_short(need),
        }
    }
}

// A fault as users know it.
impl From<WriteFault> for Refusal {
    ghost from_gives = { λ f r. r ≡ write_refusal f };

    fn from(fault: WriteFault) -> Refusal {
        match fault {
            WriteFault::Unlawful(fault) => fault.into(),
            WriteFault::Short(need) => too_short(need),
        }
    }
}
