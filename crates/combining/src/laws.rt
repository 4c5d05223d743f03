// What holds of deltas and of combining them, each fact the contract of a function that does nothing.
ghost use Rattle.combining.specs.Laws.{StaysInside, OneNormalForm, Fewest, CombinedIsNormal, Associative, Applies, CombiningIsReplace};
ghost use Rattle.combining.specs.Examples.{Examples};

use units::Unit;

// Deltas over bytes, worked by hand, come out as they should.
pub fn worked_examples_hold()
    ensures { Examples }
{}

// A lawful delta gives as many places as its target has and copies only places of its source, and a
// later one that meets it copies only places that it gives.
pub fn lawful_deltas_stay_inside<U: Unit>()
    ensures { StaysInside U }
{}

// Given origins have one normal delta, and no other.
pub fn one_normal_form<U: Unit>()
    ensures { OneNormalForm U }
{}

// No lawful delta with the same origins has fewer instructions than a normal one.
pub fn normal_has_fewest_instructions<U: Unit>()
    ensures { Fewest U }
{}

// What is combined is normal, with the origins of both deltas taken together.
pub fn combined_is_normal<U: Unit>()
    ensures { CombinedIsNormal U }
{}

// Combining is associative.
pub fn combining_is_associative<U: Unit>()
    ensures { Associative U }
{}

// Applying the combined delta is applying one delta after the other.
pub fn applying_combined_is_applying_both<U: Unit>()
    ensures { Applies U }
{}

// Combining is replace, joined into longest runs.
pub fn combining_is_replace<U: Unit>()
    ensures { CombiningIsReplace U }
{}
