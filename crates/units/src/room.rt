ghost use Rattle.std.specs.Prelude.{◌≡◌, ◌<◌, List, length, replicate, slice_index_or, slice_set};

use crate::unit::Unit;

// Room for 64 units of a kind.
pub trait Room<U: Unit>: Drop {
    // the units in a room, in their order
    ghost held: { Self → List U };

    // a proof that a room always holds 64 units: above the functions, so that clauses can cite it
    ghost full: { (r : Self) → length (held r) ≡ 64 };

    // A room of blanks.
    fn room() -> Self
        ensures { held result ≡ replicate 64 U.blank };

    // Lends the units of a room.
    fn room_units(&self) -> &[U]
        ensures { result.now ≡ held self.now };

    // The unit at an index of a room.
    fn room_unit(&self, i: usize) -> U
        requires { i < 64 }
        ensures { result ≡ slice_index_or (held self.now) i U.blank };

    // Writes a unit at an index of a room, and leaves the others.
    fn room_put(&mut self, i: usize, unit: U)
        requires { i < 64 }
        ensures { held self.new ≡ slice_set (held self.old) i unit };
}

// A unit that comes with room for 64 of its kind.
pub trait RoomUnit: Unit {
    // what holds the 64 units
    type Room: Room<Self>;
}

// Sixty-four units in a row. The ghost field says how many to specifications, where an array is a list
// of any length.
#[derive(Drop)]
pub struct Slots<U> {
    pub units: [U; 64],
    ghost full: { length units ≡ 64 },
}

impl<U: Unit> Room<U> for Slots<U> {
    ghost held = { λ r. r.units };

    ghost full = { λ r. r.full };

    fn room() -> Slots<U> {
        Slots {
            units: [U::blank(); 64],
        }
    }

    fn room_units(&self) -> &[U] {
        &self.units
    }

    fn room_unit(&self, i: usize) -> U {
        self.units[i]
    }

    fn room_put(&mut self, i: usize, unit: U) {
        self.units[i] = unit;
    }
}
