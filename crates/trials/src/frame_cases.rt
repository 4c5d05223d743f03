// Frames: every refusal with its place, what is left in tables and outputs, and the way there and back.

use crate::frame_checks::{bytes, refuses, refuses_each, there_and_back, unread};
use crate::tables::{copy, delta, head, insert, refusal};
use frames::{check_frame, read_frame, write_frame};
use std::process::Abort;
use std::test::Fail;
use units::{Cashflow, Layer, Refusal};

// Two units are copied and three inserted.
const SHORT: &str = "01 00000012 01 0003 0005 0002 01 0001 0002 02 0003 616263";

// Two units are copied, two inserted, one copied and three inserted.
const LONG: &str =
    "01 0000001c 01 0003 0008 0004 01 0001 0002 02 0002 6162 01 0000 0001 02 0003 636465";

#[test]
fn openings_are_refused_at_the_first_fault(rt: HostRuntime) -> Result<(), Fail> {
    let cases = [
        ("", 1, 0),
        ("01 00000006 01 0000 0000 00", 1, 0),
        ("02 00000006 01 0000 0000 00", 1, 0),
        ("00 00000007 01 0000 0000 0000", 2, 0),
        ("02 00000009 03 0000 0000 0000", 2, 0),
        ("01 00000008 03 0000 0000 0000", 1, 1),
        ("01 ffffffff 01 0000 0000 0000", 1, 1),
        ("01 00000006 03 0000 0000 0000", 3, 11),
        ("01 00000007 03 0000 0000 0000 05", 3, 12),
        ("01 00000007 00 0000 0000 0000", 4, 5),
        ("01 00000008 02 0000 0000 0001 05", 4, 5),
    ];
    refuses_each(&rt, Layer::Frame, &cases)
}

#[test]
fn instructions_are_refused_at_the_place_of_their_tag(rt: HostRuntime) -> Result<(), Fail> {
    let cases = [
        ("01 00000007 01 0000 0000 0001", 1, 12),
        ("01 0000000c 01 0002 0002 0002 01 0000 0002", 1, 17),
        ("01 0000000b 01 0002 0002 0001 01 0000 00", 1, 12),
        ("01 00000009 01 0000 0001 0001 02 00", 1, 12),
        ("01 0000000e 01 0000 0005 0001 02 0005 61626364", 1, 12),
        ("01 0000000a 01 0000 ffff 0001 02 ffff", 1, 12),
        (
            "01 00000010 01 0002 0004 0002 01 0000 0002 02 0002 61",
            1,
            17,
        ),
        ("01 0000000c 01 0002 0002 0001 00 0000 0002", 5, 12),
        ("01 0000000d 01 0002 0002 0002 01 0000 0002 03", 5, 17),
        ("01 0000000d 01 0002 0002 0002 01 0000 0000 ff", 5, 17),
        ("01 0000000c 01 0002 0000 0000 01 0000 0002", 3, 12),
        (
            "01 00000011 01 0002 0002 0001 01 0000 0000 01 0000 0002",
            3,
            17,
        ),
    ];
    refuses_each(&rt, Layer::Frame, &cases)
}

#[test]
fn a_frame_of_an_unlawful_delta_is_refused_as_the_delta_is(rt: HostRuntime) -> Result<(), Fail> {
    let cases = [
        ("01 0000000a 01 0000 0000 0001 02 0000", 6, 0),
        (
            "01 00000011 01 0002 0002 0002 01 0000 0002 01 0002 0000",
            6,
            1,
        ),
        ("01 0000000c 01 ffff ffff 0001 01 ffff ffff", 7, 0),
        (
            "01 00000011 01 0003 0004 0002 01 0001 0002 01 0002 0002",
            7,
            1,
        ),
        ("01 00000007 01 0002 0001 0000", 8, 0),
        ("01 0000000c 01 0002 0003 0001 01 0000 0002", 8, 1),
        (
            "01 00000011 01 ffff 0000 0002 01 0000 ffff 01 0000 0001",
            8,
            2,
        ),
    ];
    refuses_each(&rt, Layer::Delta, &cases)
}

#[test]
fn every_truncation_is_refused(rt: HostRuntime) -> Result<(), Fail> {
    let all = bytes(rt.alloc(), LONG)?;
    let frame = all.as_slice();
    // by its end, since a front of the frame is read at each turn
    for end in 0..frame.len() {
        let place = if end < 12 { 0 } else { 1 };
        refuses(&rt, &frame[0..end], refusal(1, Layer::Frame, place))?;
    }
    Ok(())
}

// Accepted are 255 + 252 source lengths more, one other place to copy from, and 3 × 255 other units.
#[test]
fn a_changed_byte_is_refused_or_read_as_another_delta(rt: HostRuntime) -> Result<(), Fail> {
    let mut all = bytes(rt.alloc(), SHORT)?;
    let frame = all.as_mut_slice();
    let mut count = 0u32;
    // by its place, since the whole frame is read at each turn
    for place in 0..frame.len() {
        let old = frame[place];
        for value in 0..=255 {
            frame[place] = value;
            if value != old && check_frame::<u8>(frame).is_ok() {
                there_and_back::<u8>(&rt, frame)?;
                count = count.wrapping_add(1);
            }
        }
        frame[place] = old;
    }
    assert_eq!(rt; count, 1273);
    Ok(())
}

#[test]
fn short_tables_are_refused_with_the_need(rt: HostRuntime) -> Result<(), Fail> {
    let frame = bytes(rt.alloc(), SHORT)?;
    let cases = [(1, 3, 2), (2, 2, 3), (1, 2, 2), (2, 0, 3)];
    for (entries, more, need) in cases {
        let answer = unread(&rt, frame.as_slice(), entries, more)?;
        assert_eq!(rt; answer, Some(refusal(31, Layer::Frame, need)));
    }
    Ok(())
}

// How the writing of a delta over so long a source, to an output of so many bytes, is refused, if it is.
// The output must then be as it was.
fn unwritten(rt: &impl Abort, source: u16, size: usize) -> Result<Option<Refusal>, Fail> {
    let table = [copy(1, 2), insert(0, 3)];
    let mut out = [7; 32];
    let fault = write_frame(&delta(source, 5, &table, b"abc"), &mut out[0..size.min(32)]).err();
    if fault.is_some() {
        assert_eq!(rt; out, [7; 32]);
    }
    Ok(fault.map(Refusal::from))
}

#[test]
fn a_short_output_is_refused_with_the_length(rt: HostRuntime) -> Result<(), Fail> {
    assert_eq!(rt; unwritten(&rt, 3, 23)?, None);
    assert_eq!(rt; unwritten(&rt, 3, 22)?, Some(refusal(31, Layer::Frame, 23)));
    assert_eq!(rt; unwritten(&rt, 2, 22)?, Some(refusal(7, Layer::Delta, 0)));
    Ok(())
}

#[test]
fn tables_hold_the_last_delta_and_then_blanks(rt: HostRuntime) -> Result<(), Fail> {
    let long = bytes(rt.alloc(), LONG)?;
    let short = bytes(rt.alloc(), SHORT)?;
    let mut instructions = [insert(7, 7); 4];
    let mut units = [9; 5];
    read_frame(long.as_slice(), &mut instructions, &mut units)?;
    assert_eq!(rt;
        read_frame(short.as_slice(), &mut instructions, &mut units)?,
        head(3, 5, 2, 3)
    );
    assert_eq!(rt;
        instructions,
        [copy(1, 2), insert(0, 3), copy(0, 0), copy(0, 0)]
    );
    assert_eq!(rt; units, [97, 98, 99, 0, 0]);
    Ok(())
}

#[test]
fn an_output_keeps_what_stands_behind_the_frame(rt: HostRuntime) -> Result<(), Fail> {
    let mut out = bytes(rt.alloc(), LONG)?;
    there_and_back::<u8>(&rt, out.as_slice())?;
    let table = [copy(1, 2), insert(0, 3)];
    let sent = delta(3, 5, &table, b"abc");
    assert_eq!(rt; write_frame(&sent, out.as_mut_slice())?, 23);
    let left = bytes(
        rt.alloc(),
        "01 00000012 01 0003 0005 0002 01 0001 0002 02 0003 616263 0000 0001 02 0003 636465",
    )?;
    assert_eq!(rt; out.as_slice(), left.as_slice());
    Ok(())
}

#[test]
fn cashflows_go_there_and_back(rt: HostRuntime) -> Result<(), Fail> {
    let frame = bytes(
        rt.alloc(),
        "01 00000027 02 0001 0003 0002 01 0000 0001 02 0002 00004e20 fffffffffffffe0c ffffffff 8000000000000000",
    )?;
    there_and_back::<Cashflow>(&rt, frame.as_slice())?;
    let mut instructions = [insert(7, 7); 3];
    let mut units = [Cashflow { day: 9, amount: 9 }; 3];
    read_frame(frame.as_slice(), &mut instructions, &mut units)?;
    assert_eq!(rt; instructions, [copy(0, 1), insert(0, 2), copy(0, 0)]);
    assert_eq!(rt;
        units,
        [
            Cashflow {
                day: 20000,
                amount: -500,
            },
            Cashflow {
                day: u32::MAX,
                amount: i64::MIN,
            },
            Cashflow { day: 0, amount: 0 },
        ]
    );
    Ok(())
}

#[test]
fn cashflows_are_refused_in_other_frames_and_cut_short(rt: HostRuntime) -> Result<(), Fail> {
    let cut = "01 00000015 02 0000 0001 0001 02 0001 00004e20 fffffffffffffe";
    for (text, number, place) in [(SHORT, 4, 5), (cut, 1, 12)] {
        let frame = bytes(rt.alloc(), text)?;
        assert_eq!(rt;
            check_frame::<Cashflow>(frame.as_slice())
                .err()
                .map(Refusal::from),
            Some(refusal(number, Layer::Frame, place))
        );
    }
    Ok(())
}
