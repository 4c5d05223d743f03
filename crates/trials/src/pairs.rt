// Combining: what is left in tables that held something longer, and every refusal with its place.

use crate::tables::{copy, delta, fault_of, head, insert, refusal};
use combining::combine;
use deltas::{Delta, Side};
use std::process::Abort;
use std::test::Fail;
use units::{Layer, Refusal};

#[test]
fn tables_that_held_something_longer(rt: HostRuntime) {
    let booked = [copy(0, 2), insert(0, 1), copy(3, 2), insert(1, 1)];
    let struck = [copy(0, 2), copy(3, 3)];
    let mut instructions = [insert(7, 7); 8];
    let mut units = [9; 8];
    let answer = combine(
        &delta(6, 6, &booked, b"xy"),
        &delta(6, 5, &struck, b""),
        &mut instructions,
        &mut units,
    );
    assert_eq!(rt; answer, Ok(head(6, 5, 3, 1)));
    assert_eq!(rt;
        instructions,
        [
            copy(0, 2),
            copy(3, 2),
            insert(0, 1),
            copy(0, 0),
            copy(0, 0),
            copy(0, 0),
            copy(0, 0),
            copy(0, 0),
        ]
    );
    assert_eq!(rt; units, [121, 0, 0, 0, 0, 0, 0, 0]);
}

// How a pair is refused, if it is, with the side at fault.
fn refused(
    rt: &impl Abort,
    earlier: &Delta<u8>,
    later: &Delta<u8>,
    entries: usize,
    more: usize,
) -> Result<Option<(Refusal, Option<Side>)>, Fail> {
    let fault = fault_of(rt, entries, more, |instructions, units| {
        combine(earlier, later, instructions, units)
    })?;
    Ok(fault.map(|fault| (Refusal::from(fault), fault.side())))
}

#[test]
fn refusals_of_a_pair(rt: HostRuntime) -> Result<(), Fail> {
    let good = [copy(0, 3)];
    let bad = [copy(1, 3)];
    let first = delta(3, 3, &good, b"");
    let second = delta(3, 3, &good, b"");
    let wrong = delta(3, 3, &bad, b"");
    assert_eq!(rt; refused(&rt, &first, &second, 3, 3)?, None);
    assert_eq!(rt;
        refused(&rt, &wrong, &wrong, 0, 0)?,
        Some((refusal(7, Layer::Delta, 0), Some(Side::Earlier)))
    );
    assert_eq!(rt;
        refused(&rt, &first, &wrong, 0, 0)?,
        Some((refusal(7, Layer::Delta, 0), Some(Side::Later)))
    );
    let longer = delta(4, 3, &good, b"");
    assert_eq!(rt;
        refused(&rt, &first, &longer, 0, 0)?,
        Some((refusal(11, Layer::Pair, 4), None))
    );
    assert_eq!(rt;
        refused(&rt, &first, &second, 2, 3)?,
        Some((refusal(31, Layer::Pair, 3), None))
    );
    assert_eq!(rt;
        refused(&rt, &first, &second, 3, 2)?,
        Some((refusal(31, Layer::Pair, 3), None))
    );
    Ok(())
}
