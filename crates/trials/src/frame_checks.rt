// What the tests of frames share: bytes written as text, and what is checked of a frame.

use crate::tables::{fault_of, insert, refusal};
use deltas::Delta;
use frames::{check_frame, frame_length, read_frame, write_frame};
use std::alloc::{AllocError, Global};
use std::process::Abort;
use std::test::Fail;
use units::{Layer, Refusal, WireUnit};

// The bytes of a text, each two hexadecimal digits. Spaces mean nothing.
pub(crate) fn bytes(heap: Global, text: &str) -> Result<Vec<u8>, AllocError> {
    let mut out = Vec::new(heap);
    let mut high = None;
    for letter in text.as_bytes() {
        high = match (high, (*letter as char).to_digit(16)) {
            (Some(first), Some(second)) => {
                out.push(first << 4 | second as u8)?;
                None
            }
            (None, Some(first)) => Some(first as u8),
            _ => high,
        };
    }
    Ok(out)
}

// How the reading of a frame into tables of so many entries is refused, if it is.
pub(crate) fn unread(
    rt: &impl Abort,
    frame: &[u8],
    entries: usize,
    more: usize,
) -> Result<Option<Refusal>, Fail> {
    let fault = fault_of(rt, entries, more, |instructions, units| {
        read_frame(frame, instructions, units)
    })?;
    Ok(fault.map(Refusal::from))
}

// Checks that a frame is refused in this way by its check and by its reading.
pub(crate) fn refuses(rt: &impl Abort, frame: &[u8], wrong: Refusal) -> Result<(), Fail> {
    assert_eq!(rt;
        check_frame::<u8>(frame).err().map(Refusal::from),
        Some(wrong)
    );
    assert_eq!(rt; unread(rt, frame, 8, 8)?, Some(wrong));
    Ok(())
}

// The same for each of some frames, with its number and its place.
pub(crate) fn refuses_each(
    rt: &(impl Abort + AllocGlobal),
    layer: Layer,
    cases: &[(&str, u8, usize)],
) -> Result<(), Fail> {
    for (text, number, place) in cases {
        let frame = bytes(rt.alloc(), text)?;
        refuses(rt, frame.as_slice(), refusal(*number, layer, *place))?;
    }
    Ok(())
}

// Checks that a delta is written as this frame.
fn writes<U: WireUnit>(
    rt: &(impl Abort + AllocGlobal),
    sent: &Delta<U>,
    frame: &[u8],
) -> Result<(), Fail> {
    let length = frame_length(sent)?;
    let mut out = Vec::from_elem(rt.alloc(), 7u8, length)?;
    write_frame(sent, out.as_mut_slice())?;
    assert_eq!(rt; out.as_slice(), frame);
    Ok(())
}

// Checks that a frame is read into tables that are just long enough, and is written from them again.
pub(crate) fn there_and_back<U: WireUnit>(
    rt: &(impl Abort + AllocGlobal),
    frame: &[u8],
) -> Result<(), Fail> {
    let head = check_frame::<U>(frame)?;
    let mut instructions = Vec::from_elem(rt.alloc(), insert(7, 7), head.instructions)?;
    let mut units = Vec::from_elem(rt.alloc(), U::blank(), head.inserted)?;
    read_frame(frame, instructions.as_mut_slice(), units.as_mut_slice())?;
    let received = Delta {
        head,
        instructions: instructions.as_slice(),
        units: units.as_slice(),
    };
    writes(rt, &received, frame)
}
