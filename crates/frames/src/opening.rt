// What a frame says before its instructions.
ghost use Rattle.std.specs.Prelude.{◌≡◌};
ghost use Rattle.frames.specs.Reading.{opened};

use faults::FrameFault;

// The number of the form that frames have.
pub(crate) const VERSION: u8 = 1;

// Where the body begins, behind the version and the body length.
pub(crate) const BODY_PLACE: usize = 5;

// Where the instructions begin.
pub(crate) const INSTRUCTIONS_PLACE: usize = 12;

// The lengths of source and target, and how many instructions follow.
#[derive(Clone, Copy, PartialEq, Eq, Debug)]
pub(crate) struct Opening {
    pub source: u16,
    pub target: u16,
    pub instructions: u16,
}

// Checks a frame of units of a kind, up to its instructions.
pub(crate) fn open_frame(frame: &[u8], kind: u8) -> Result<Opening, FrameFault>
    ensures { result ≡ opened kind frame.now }
{
    // in two: by the rule of this place, version and body length stand apart from the rest
    let [version, b0, b1, b2, b3, body @ ..] = frame else {
        return Err(FrameFault::CutShort(0));
    };
    let [units, s0, s1, t0, t1, n0, n1, ..] = body else {
        return Err(FrameFault::CutShort(0));
    };
    if *version != VERSION {
        return Err(FrameFault::Version);
    }
    let end = BODY_PLACE + u32::from_be_bytes([*b0, *b1, *b2, *b3]) as usize;
    if frame.len() < end {
        return Err(FrameFault::CutShort(1));
    }
    if frame.len() > end {
        return Err(FrameFault::SpareBytes(end));
    }
    if *units != kind {
        return Err(FrameFault::OtherKind);
    }
    Ok(Opening {
        source: u16::from_be_bytes([*s0, *s1]),
        target: u16::from_be_bytes([*t0, *t1]),
        instructions: u16::from_be_bytes([*n0, *n1]),
    })
}
