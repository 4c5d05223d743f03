// What is done to a table of any entries.
ghost use Rattle.std.specs.Prelude.{◌≡◌, ◌-◌, ◌++◌, length, take, replicate};

// Blanks every entry of a table past the first `count`. By a loop over places: the library's `fill` asks for more than
// copying, and a loop over the part behind can take several times as long, as it does for instructions.
pub fn blank_rest<T: Copy>(table: &mut [T], count: usize, blank: T)
    ensures { table.new ≡ take count table.old ++ replicate (length table.old - count) blank }
{
    for i in count..table.len() {
        table[i] = blank;
    }
}
