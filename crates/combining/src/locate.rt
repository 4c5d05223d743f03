// Finding the instruction that gives a place, and taking a run of places from there on.
ghost use Rattle.std.specs.Prelude.{◌≡◌, ◌+◌, ◌<◌, ◌≤◌, take, drop};
ghost use Rattle.deltas.specs.LawfulDeltas.{lawful_parts};
ghost use Rattle.deltas.specs.Origins.{origins_of};
ghost use Rattle.combining.specs.Steps.{Space, Appended, Standing, Located};

use crate::joining::cut;
use crate::write::Output;
use deltas::LawfulDelta;
use units::Unit;

// A lawful delta, and where in it the next search for a place may begin.
#[derive(Drop)]
pub(crate) struct Cursor<'d, 'i, 'u, U> {
    pub delta: &'d LawfulDelta<'i, 'u, U>,
    index: usize,
    place: u16,
    // the place is the first that the instruction at the index gives
    ghost standing: { Standing delta.now.instructions.now index place },
}

impl<'d, 'i, 'u, U> Cursor<'d, 'i, 'u, U> {
    // A cursor that stands at the first place.
    pub(crate) fn new(delta: &'d LawfulDelta<'i, 'u, U>) -> Cursor<'d, 'i, 'u, U>
        ensures same_delta { result.delta.now ≡ delta.now }
        ensures start { result.place ≡ 0 }
    {
        Cursor {
            delta,
            index: 0,
            place: 0,
        }
    }

    // The index of the instruction that gives a place, and the place's offset inside it, searched from
    // the cursor on. They are a pair: a struct with the fact in it would hold the delta once more. The search
    // goes ahead one by one, since instructions hold lengths and not places. It is kept apart, since as a part
    // of its caller's machine code each step was longer, and took up to half as much time again.
    #[inline(never)]
    fn search(&self, place: u16) -> (usize, u16)
        requires inside { place < self.now.delta.now.head.target }
        requires ahead { self.now.place ≤ place }
        ensures { Located self.now.delta.now.instructions.now place result.0 result.1 }
    {
        let mut offset = place - self.place;
        for (ahead, instruction) in self.delta.instructions[self.index..].iter().enumerate() {
            if offset < instruction.length {
                return (self.index + ahead, offset);
            }
            offset -= instruction.length;
        }
        unreachable!()
    }

    // The same, searched from the first instruction where the cursor is past the place. The cursor then
    // stands at the instruction that was found. That it holds the same delta is a fact about two states, so
    // each function that moves a cursor says it.
    pub(crate) fn locate(&mut self, place: u16) -> (usize, u16)
        requires { place < self.old.delta.now.head.target }
        ensures same_delta { self.new.delta.now ≡ self.old.delta.now }
        ensures located { Located self.old.delta.now.instructions.now place result.0 result.1 }
    {
        if place < self.place {
            *self = Cursor::new(self.delta);
        }
        let (index, offset) = self.search(place);
        *self = Cursor {
            delta: self.delta,
            index,
            place: place - offset,
        };
        (index, offset)
    }
}

// Writes `count` of the places that the cursor's delta gives, from `place` on.
pub(crate) fn splice<U: Unit>(
    output: &mut Output<U>,
    cursor: &mut Cursor<U>,
    place: u16,
    count: u16,
)
    requires some { 0 < count }
    requires inside { place + count ≤ cursor.old.delta.now.head.target }
    requires space { Space output.old count }
    ensures same_delta { cursor.new.delta.now ≡ cursor.old.delta.now }
    ensures appended { Appended (take count (drop place (origins_of (lawful_parts cursor.old.delta.now)))) output.old output.new }
{
    let (index, mut offset) = cursor.locate(place);
    let delta = cursor.delta;
    let mut wanted = count;
    for next in &delta.instructions[index..] {
        let taken = wanted.min(next.length - offset);
        output.append(delta.units, cut(*next, offset, taken));
        wanted -= taken;
        if wanted == 0 {
            break;
        }
        offset = 0;
    }
}
