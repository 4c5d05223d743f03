ghost use Rattle.std.specs.Prelude.{◌≡◌, ℕ, length};
ghost use Rattle.units.specs.Code.{Code, CodeLaws};

use crate::unit::Unit;

// A unit that can be sent: its kind has a number, and every unit of the kind is written in the same number
// of bytes.
pub trait WireUnit: Unit {
    // the number of the kind: a number and not an enum, since a frame holds it, and kinds are open
    const KIND: u8;

    ghost KIND: { ℕ };

    // how many bytes a unit is written in; 0 is lawful, for a kind with one unit
    const WIDTH: usize;

    ghost WIDTH: { ℕ };

    // how units are written as bytes, and the unit that bytes stand for
    ghost code: { Code Self KIND WIDTH };

    // The number of the kind, for callers that ask by a call.
    final fn kind_number() -> u8
        ensures { result ≡ KIND }
    {
        Self::KIND
    }

    // The width, for callers that ask by a call.
    final fn byte_width() -> usize
        ensures { result ≡ WIDTH }
    {
        Self::WIDTH
    }

    // Writes the unit over the whole of `out`.
    fn write(self, out: &mut [u8])
        requires { length out.old ≡ WIDTH }
        ensures { out.new ≡ code.written self };

    // Reads the unit that the bytes stand for.
    fn read(bytes: &[u8]) -> Self
        requires { length bytes.now ≡ WIDTH }
        ensures { result ≡ code.parsed bytes.now };

    // What is written is read back, and what is read is written back, in so few bytes that every frame has a
    // length that four bytes can say.
    ghost laws: { CodeLaws code };
}
