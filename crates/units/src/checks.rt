ghost use Rattle.std.specs.Prelude.{◌≡◌, ◌+◌, ◌*◌, max, length, if◌then◌else◌, Some, None, nat_eq};

use crate::wire::WireUnit;

// Code for every kind at once, which the laws of a kind prove.

// Writes a unit over `out` and reads it back. Where `out` has not the kind's width it answers `None` and
// writes nothing.
pub fn round_trip<U: WireUnit>(unit: U, out: &mut [u8]) -> Option<U>
    ensures answer { result ≡ (if nat_eq (length out.old) U.WIDTH then Some unit else None) }
    ensures bytes { out.new ≡ (if nat_eq (length out.old) U.WIDTH then U.code.written unit else out.old) }
{
    if out.len() == U::WIDTH {
        unit.write(out);
        Some(U::read(out))
    } else {
        None
    }
}

// How many bytes the body of a lawful delta's frame can have at most: a number of four bytes says it.
pub fn longest_body<U: WireUnit>() -> u32
    ensures { result ≡ 7 + 65535 * max 5 (3 + U.WIDTH) }
{
    7 + 65535 * (3 + U::WIDTH as u32).max(5)
}
