ghost use Rattle.std.specs.Prelude.{◌≡◌, length, drop, MatchOption};
ghost use Rattle.std.specs.Iterator.{at_most};
ghost use Rattle.sulgheddo.specs.Runs.{Front};

use deltas::{Instruction, Op};
use std::fmt;
use units::Cashflow;

// What a table holds, and how one entry is printed. Not by Display: a byte's own is decimal, and an entry's text is this
// program's; three wrappers with a trait to name them are no shorter.
pub trait Entry: Copy + PartialEq {
    fn write_entry<W: fmt::Write>(&self, f: &mut fmt::Formatter<W>) -> fmt::Result;
}

impl Entry for Instruction {
    fn write_entry<W: fmt::Write>(&self, f: &mut fmt::Formatter<W>) -> fmt::Result {
        let op = match self.op {
            Op::Copy => "copy",
            Op::Insert => "insert",
        };
        write!(f, "{op} {} {}", self.from, self.length)
    }
}

impl Entry for u8 {
    fn write_entry<W: fmt::Write>(&self, f: &mut fmt::Formatter<W>) -> fmt::Result {
        write!(f, "{self:02x}")
    }
}

impl Entry for Cashflow {
    fn write_entry<W: fmt::Write>(&self, f: &mut fmt::Formatter<W>) -> fmt::Result {
        write!(f, "{}:{}", self.day, self.amount)
    }
}

// An entry as it is printed.
#[derive(Clone, Copy)]
pub struct EntryText<'a, T>(pub &'a T);

impl<T: Entry> fmt::Display for EntryText<'_, T> {
    fn fmt<W: fmt::Write>(&self, f: &mut fmt::Formatter<W>) -> fmt::Result {
        self.0.write_entry(f)
    }
}

// Stands for no entries and no units. `Entries` and `Units` each test for it: one function for both would take an
// iterator, have to require that it ends, and be no shorter.
pub(crate) const NONE: &str = "-";

// All entries of a table, equal neighbours once.
#[derive(Clone, Copy)]
pub struct Entries<'a, T>(pub &'a [T]);

impl<T: Entry> fmt::Display for Entries<'_, T> {
    fn fmt<W: fmt::Write>(&self, f: &mut fmt::Formatter<W>) -> fmt::Result {
        if self.0.is_empty() {
            return f.write_str(NONE);
        }
        f.write_joined(Runs { rest: self.0 }, ", ")
    }
}

// Equal neighbours: the entry, and how often it stands there.
#[derive(Clone, Copy)]
struct Run<T> {
    entry: T,
    count: usize,
}

impl<T: Entry> fmt::Display for Run<T> {
    fn fmt<W: fmt::Write>(&self, f: &mut fmt::Formatter<W>) -> fmt::Result {
        self.entry.write_entry(f)?;
        if self.count > 1 {
            write!(f, " x{}", self.count)?;
        }
        Ok(())
    }
}

// The runs of a table, from its front. The other entries of a run are compared with a copy of its first, so that the
// first is read once, and not again at each of them.
#[derive(Clone, Copy)]
struct Runs<'a, T> {
    rest: &'a [T],
}

impl<T: Entry> Iterator for Runs<'_, T> {
    type Item = Run<T>;

    ghost remaining = { λ s. at_most (length s.rest.now) };

    ghost next_gives = { λ s r t. MatchOption r (length s.rest.now ≡ 0) (λ run. Front (λ x' y' r'. r' ≡ T.PartialEq.eq x' y') s.rest.now run.entry run.count × (t.rest.now ≡ drop run.count s.rest.now)) };

    fn next(&mut self) -> Option<Run<T>> {
        let (first, others) = self.rest.split_first()?;
        let entry = *first;
        let end = others.iter().position(|other| *other != entry);
        let count = end.map_or(self.rest.len(), |end| end + 1);
        self.rest = &self.rest[count..];
        Some(Run { entry, count })
    }
}
