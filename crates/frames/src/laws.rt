// What holds of every frame: each law is the contract of a function that does nothing.
ghost use Rattle.frames.specs.Meaning.{FramesMean};
ghost use Rattle.frames.specs.Distribution.{Distribution, Worked};

use units::WireUnit;

// Bytes are accepted exactly if they are the frame of a lawful delta, and a fault is the first thing that
// is wrong.
pub fn frames_are_lawful_deltas<U: WireUnit>()
    ensures { FramesMean U.code }
{}

// What a sender writes from a normal delta, a receiver reads as that delta, so that applied to the same
// list it gives the same list.
pub fn what_is_sent_is_received<U: WireUnit>()
    ensures { Distribution U.code }
{}

// A frame that was worked by hand, both ways.
pub fn a_worked_frame()
    ensures { Worked }
{}
