// The shortest and the longest deltas.

use crate::tables::{copy, delta, head, insert};
use combining::combine;
use deltas::Instruction;
use std::test::Fail;

#[test]
fn nothing_at_all(rt: HostRuntime) {
    let none: [Instruction; 0] = [];
    let empty = delta(0, 0, &none, b"");
    assert_eq!(rt;
        combine(&empty, &empty, &mut [], &mut []),
        Ok(head(0, 0, 0, 0))
    );
}

// 65,535 places in turned order, one instruction for each; turned again, they are one copy.
#[test]
fn turned_twice(rt: HostRuntime) -> Result<(), Fail> {
    let mut turned = Vec::new(rt.alloc());
    for place in (0..65535).rev() {
        turned.push(copy(place, 1))?;
    }
    let mut instructions = Vec::from_elem(rt.alloc(), insert(7, 7), 65535)?;
    let mut units = Vec::from_elem(rt.alloc(), 9u8, 65535)?;
    let turn = delta(65535, 65535, turned.as_slice(), b"");
    let answer = combine(
        &turn,
        &turn,
        instructions.as_mut_slice(),
        units.as_mut_slice(),
    );
    assert_eq!(rt; answer, Ok(head(65535, 65535, 1, 0)));
    assert_eq!(rt; instructions.get(0).copied(), Some(copy(0, 65535)));
    assert_eq!(rt; instructions.get(1).copied(), Some(copy(0, 0)));
    assert_eq!(rt; instructions.last().copied(), Some(copy(0, 0)));
    assert_eq!(rt; units.last().copied(), Some(0));
    Ok(())
}

// 65,535 inserted units, all of which a later delta copies.
#[test]
fn all_inserted(rt: HostRuntime) -> Result<(), Fail> {
    let table = [insert(0, 65535)];
    let whole = [copy(0, 65535)];
    let nothing: [u8; 0] = [];
    let own = Vec::from_elem(rt.alloc(), 5u8, 65535)?;
    let mut instructions = Vec::from_elem(rt.alloc(), insert(7, 7), 65535)?;
    let mut units = Vec::from_elem(rt.alloc(), 9u8, 65535)?;
    let first = delta(0, 65535, &table, own.as_slice());
    let second = delta(65535, 65535, &whole, &nothing);
    let answer = combine(
        &first,
        &second,
        instructions.as_mut_slice(),
        units.as_mut_slice(),
    );
    assert_eq!(rt; answer, Ok(head(0, 65535, 1, 65535)));
    assert_eq!(rt; instructions.get(0).copied(), Some(insert(0, 65535)));
    assert_eq!(rt; units.last().copied(), Some(5));
    Ok(())
}
