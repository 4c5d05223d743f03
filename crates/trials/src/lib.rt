// Tests of the library on examples: bad input, output tables that held something longer, and the
// shortest and longest deltas and frames.

#![tactic(auto)]

#[cfg(test)]
mod checking;
#[cfg(test)]
mod frame_cases;
#[cfg(test)]
mod frame_checks;
#[cfg(test)]
mod frame_limits;
#[cfg(test)]
mod limits;
#[cfg(test)]
mod pairs;
#[cfg(test)]
mod tables;
