// The faults of frames: why bytes are refused, with number, layer and place.
#![tactic(auto)]

mod frame;

pub use frame::{FrameFault, ParseFault, ReadFault, WriteFault};
