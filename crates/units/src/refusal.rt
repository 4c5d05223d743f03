ghost use Rattle.std.specs.Prelude.{Some};
ghost use Rattle.units.specs.RefusalText.{layer_word, refusal_text};

use std::fmt;

// The part of the product that refused.
#[derive(Clone, Copy, PartialEq, Eq, Debug)]
pub enum Layer {
    // the bytes of a frame
    Frame,
    // one delta
    Delta,
    // two deltas that were to be combined
    Pair,
    // a base, the list of units that version 0 shows
    Ground,
    // the chain of versions
    Chain,
}

// Why a call was refused: the number of the reason, the layer that found it, and the place (an index,
// a number or a length, as the reason says). A number and not an enum: users know refusals by it, and code
// matches on the faults, of which it is made.
#[derive(Clone, Copy, PartialEq, Eq, Debug)]
pub struct Refusal {
    pub number: u8,
    pub layer: Layer,
    pub place: usize,
}

impl fmt::Display for Layer {
    ghost output = { λ l. Some (layer_word l) };

    fn fmt<W: fmt::Write>(&self, f: &mut fmt::Formatter<W>) -> fmt::Result {
        f.write_str(match self {
            Layer::Frame => "frame",
            Layer::Delta => "delta",
            Layer::Pair => "pair",
            Layer::Ground => "ground",
            Layer::Chain => "chain",
        })
    }
}

impl fmt::Display for Refusal {
    ghost output = { λ r. Some (refusal_text r) };

    fn fmt<W: fmt::Write>(&self, f: &mut fmt::Formatter<W>) -> fmt::Result {
        write!(
            f,
            "refused {} at {} ({})",
            self.number, self.place, self.layer
        )
    }
}
