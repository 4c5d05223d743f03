// Units, the elements of a version, and the form of a refusal.
#![tactic(auto)]

mod byte;
mod cashflow;
mod checks;
mod refusal;
mod room;
mod unit;
mod wire;

pub use cashflow::Cashflow;
pub use checks::{longest_body, round_trip};
pub use refusal::{Layer, Refusal};
pub use room::{Room, RoomUnit, Slots};
pub use unit::Unit;
pub use wire::WireUnit;
