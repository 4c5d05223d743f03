ghost use Rattle.std.specs.Prelude.{[], ◌∷◌, slice_index};
ghost use Rattle.std.proofs.Common.{sym, ◌∙◌, rules};
ghost use Rattle.std.proofs.lemmas.List.{set-get_or};
ghost use Rattle.units.specs.Runs.{set_only};

use crate::room::{RoomUnit, Slots};
use crate::unit::Unit;
use crate::wire::WireUnit;

// Bytes, kind 1: a unit is one byte, and is written as itself.

impl Unit for u8 {
    ghost blank = { 0 };

    fn blank() -> u8 {
        0
    }
}

impl RoomUnit for u8 {
    type Room = Slots<u8>;
}

impl WireUnit for u8 {
    const KIND: u8 = 1;

    ghost KIND = { 1 };

    const WIDTH: usize = 1;

    ghost WIDTH = { 1 };

    ghost code = { record { written = λ b. b ∷ []; parsed = λ bs. slice_index bs 0 } };

    ghost laws = { record { length_written = Prim.search rules; parsed_written = Prim.search rules; written_parsed = λ bs long bytes. sym (set_only bs (slice_index bs 0) long) ∙ set-get_or bs 0 0; frame_fits = Prim.search rules } };

    fn write(self, out: &mut [u8]) {
        out[0] = self;
    }

    fn read(bytes: &[u8]) -> u8 {
        bytes[0]
    }
}
