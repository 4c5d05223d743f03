// Every refusal of a delta's check, with its place, and the normal form.

use crate::tables::{copy, delta, head, insert, refusal};
use combining::{is_normal, normalise};
use deltas::{Delta, DeltaFault, Instruction, NormalFault};
use std::test::Fail;
use units::{Layer, Refusal};

// How a delta's check refuses it, if it does.
fn refused(d: &Delta<u8>) -> Option<Refusal> {
    d.check().err().map(Refusal::from)
}

#[test]
fn instructions_at_fault(rt: HostRuntime) {
    let good = [copy(0, 2), insert(0, 1)];
    assert_eq!(rt; refused(&delta(2, 3, &good, b"x")), None);
    let empty = [copy(0, 2), copy(0, 0)];
    assert_eq!(rt;
        refused(&delta(2, 2, &empty, b"")),
        Some(refusal(6, Layer::Delta, 1))
    );
    let nothing = [insert(0, 0)];
    assert_eq!(rt;
        refused(&delta(2, 0, &nothing, b"")),
        Some(refusal(6, Layer::Delta, 0))
    );
    let past = [copy(23, 2), copy(24, 2)];
    assert_eq!(rt;
        refused(&delta(25, 4, &past, b"")),
        Some(refusal(7, Layer::Delta, 1))
    );
    let apart = [insert(0, 1), insert(2, 1)];
    assert_eq!(rt;
        refused(&delta(2, 2, &apart, b"xyz")),
        Some(refusal(10, Layer::Delta, 1))
    );
}

#[test]
fn totals_at_fault(rt: HostRuntime) {
    let long = [copy(0, 2), insert(0, 1)];
    assert_eq!(rt;
        refused(&delta(2, 4, &long, b"x")),
        Some(refusal(8, Layer::Delta, 2))
    );
    assert_eq!(rt;
        refused(&delta(2, 3, &long, b"xy")),
        Some(refusal(10, Layer::Delta, 2))
    );
    let none: [Instruction; 0] = [];
    assert_eq!(rt;
        refused(&delta(2, 1, &none, b"")),
        Some(refusal(8, Layer::Delta, 0))
    );
}

// A delta with other counts than its tables have entries.
fn counted<'i, 'u>(
    instructions: usize,
    inserted: usize,
    table: &'i [Instruction],
    units: &'u [u8],
) -> Delta<'i, 'u, u8> {
    Delta {
        head: head(9, 1, instructions, inserted),
        instructions: table,
        units,
    }
}

#[test]
fn counts_at_fault(rt: HostRuntime) -> Result<(), Fail> {
    let table = Vec::from_elem(rt.alloc(), copy(0, 1), 65536)?;
    let units = Vec::from_elem(rt.alloc(), 7u8, 65536)?;
    let none: [Instruction; 0] = [];
    let nothing: [u8; 0] = [];
    let wrong = Some(refusal(9, Layer::Delta, 0));
    assert_eq!(rt;
        refused(&counted(1, 0, table.as_slice(), units.as_slice())),
        None
    );
    assert_eq!(rt; refused(&counted(1, 0, &none, units.as_slice())), wrong);
    assert_eq!(rt; refused(&counted(1, 1, table.as_slice(), &nothing)), wrong);
    assert_eq!(rt;
        refused(&counted(65536, 0, table.as_slice(), units.as_slice())),
        wrong
    );
    assert_eq!(rt;
        refused(&counted(1, 65536, table.as_slice(), units.as_slice())),
        wrong
    );
    assert_eq!(rt;
        refused(&counted(65535, 0, table.as_slice(), units.as_slice())),
        Some(refusal(8, Layer::Delta, 65535))
    );
    Ok(())
}

#[test]
fn normal_forms(rt: HostRuntime) {
    let split = [copy(0, 2), copy(2, 1), insert(0, 1), insert(1, 2)];
    let joined = [copy(0, 3), insert(0, 3)];
    assert!(rt; !is_normal(&delta(3, 6, &split, b"abc")));
    assert!(rt; is_normal(&delta(3, 6, &joined, b"abc")));
    let mut instructions = [insert(7, 7); 8];
    let mut units = [9; 8];
    let answer = normalise(&delta(3, 6, &split, b"abc"), &mut instructions, &mut units);
    assert_eq!(rt; answer, Ok(head(3, 6, 2, 3)));
    assert_eq!(rt;
        instructions,
        [
            copy(0, 3),
            insert(0, 3),
            copy(0, 0),
            copy(0, 0),
            copy(0, 0),
            copy(0, 0),
            copy(0, 0),
            copy(0, 0),
        ]
    );
    assert_eq!(rt; units, [97, 98, 99, 0, 0, 0, 0, 0]);
}

#[test]
fn normal_form_refused(rt: HostRuntime) {
    let split = [copy(0, 2), copy(2, 1), insert(0, 1), insert(1, 2)];
    let mut instructions = [insert(7, 7); 6];
    let mut units = [9; 5];
    let answer = normalise(&delta(3, 6, &split, b"abc"), &mut instructions, &mut units);
    assert_eq!(rt; answer, Err(NormalFault::Short(6)));
    let answer = normalise(&delta(2, 6, &split, b"abc"), &mut instructions, &mut units);
    assert_eq!(rt;
        answer,
        Err(NormalFault::Unlawful(DeltaFault::CopyPastSource(1)))
    );
    assert_eq!(rt; instructions, [insert(7, 7); 6]);
    assert_eq!(rt; units, [9; 5]);
}
