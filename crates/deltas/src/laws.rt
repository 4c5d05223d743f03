// What holds of every delta, the contract of a function that does nothing.
ghost use Rattle.deltas.specs.Meaning.{CheckMeans};

use units::Unit;

// A delta passes the check exactly if it meets all that is asked of it, and the fault that the check
// answers is the first thing that is wrong.
pub fn the_check_finds_the_first_fault<U: Unit>()
    ensures { CheckMeans U }
{}
