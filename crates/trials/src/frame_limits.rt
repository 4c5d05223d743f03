// The shortest and the longest frames.

use crate::frame_checks::{bytes, refuses, there_and_back};
use crate::tables::refusal;
use std::alloc::{AllocError, Global};
use std::test::Fail;
use units::Layer;

#[test]
fn nothing_at_all_goes_there_and_back(rt: HostRuntime) -> Result<(), Fail> {
    let frame = bytes(rt.alloc(), "01 00000007 01 0000 0000 0000")?;
    there_and_back::<u8>(&rt, frame.as_slice())
}

// A frame of so many bytes, with two inserts, of which the first is of 40,000 units.
fn two_inserts(
    heap: Global,
    opening: &str,
    second: &str,
    length: usize,
) -> Result<Vec<u8>, AllocError> {
    let mut frame = bytes(heap, opening)?;
    frame.resize(40015, 5)?;
    let tag = bytes(heap, second)?;
    frame.extend_from_slice(tag.as_slice())?;
    frame.resize(length, 6)?;
    Ok(frame)
}

#[test]
fn no_more_than_65535_units_are_inserted(rt: HostRuntime) -> Result<(), Fail> {
    let heap = rt.alloc();
    let most = two_inserts(
        heap,
        "01 0001000c 01 0000 ffff 0002 02 9c40",
        "02 63bf",
        65553,
    )?;
    there_and_back::<u8>(&rt, most.as_slice())?;
    let wrong = refusal(9, Layer::Delta, 0);
    let more = two_inserts(
        heap,
        "01 0001000d 01 0000 ffff 0002 02 9c40",
        "02 63c0",
        65554,
    )?;
    refuses(&rt, more.as_slice(), wrong)?;
    let much = two_inserts(
        heap,
        "01 0001388d 01 0000 ffff 0002 02 9c40",
        "02 9c40",
        80018,
    )?;
    refuses(&rt, much.as_slice(), wrong)
}

// 65,535 units in turned order, one instruction for each.
#[test]
fn the_most_instructions_go_there_and_back(rt: HostRuntime) -> Result<(), Fail> {
    let mut frame = bytes(rt.alloc(), "01 00050002 01 ffff ffff ffff")?;
    for place in (0..65535u16).rev() {
        let [high, low] = place.to_be_bytes();
        frame.extend_from_slice(&[1, high, low, 0, 1])?;
    }
    there_and_back::<u8>(&rt, frame.as_slice())
}
