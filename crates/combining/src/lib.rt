// The normal form of a delta, combining two deltas into one, and the laws of combining.
#![tactic(auto)]

mod form;
mod joining;
mod laws;
mod locate;
mod pair;
mod write;

pub use form::{is_normal, normalise};
pub use laws::{
    applying_combined_is_applying_both, combined_is_normal, combining_is_associative,
    combining_is_replace, lawful_deltas_stay_inside, normal_has_fewest_instructions,
    one_normal_form, worked_examples_hold,
};
pub use pair::combine;
