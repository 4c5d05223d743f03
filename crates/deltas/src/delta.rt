use crate::instruction::Instruction;

// What a delta says of itself: the lengths of its source and its target, and how many entries of its
// two tables are its own. Both counts are wide enough to be wrong.
#[derive(Clone, Copy, PartialEq, Eq, Debug)]
pub struct Head {
    pub source: u16,
    pub target: u16,
    pub instructions: usize,
    pub inserted: usize,
}

// A delta over lent tables, which may be longer than its counts: the entries past them are no part of it. The
// counts stand beside the tables because tables are lent whole, at a fixed length, and a delta may be wrong.
#[derive(Clone, Copy)]
pub struct Delta<'i, 'u, U> {
    pub head: Head,
    pub instructions: &'i [Instruction],
    pub units: &'u [U],
}
