// Deltas as bytes: a frame is checked, read into tables, and written.
#![tactic(auto)]

mod check;
mod laws;
mod opening;
mod read;
mod reader;
mod wire;
mod write;
mod writer;

pub use check::check_frame;
pub use laws::{a_worked_frame, frames_are_lawful_deltas, what_is_sent_is_received};
pub use read::read_frame;
pub use write::{frame_length, write_frame};
