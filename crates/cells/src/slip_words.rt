// A slip in words.
ghost use Rattle.std.specs.Prelude.{Some};
ghost use Rattle.cells.specs.SlipWords.{state_words, slip_words};

use crate::slip::{Slip, SlipState};
use std::fmt;

impl fmt::Display for SlipState {
    ghost output = { λ s. Some (state_words s) };

    fn fmt<W: fmt::Write>(&self, f: &mut fmt::Formatter<W>) -> fmt::Result {
        f.write_str(match self {
            SlipState::Received => "received",
            SlipState::Reflashed => "reflashed",
            SlipState::SentBack => "sent back",
        })
    }
}

impl fmt::Display for Slip {
    ghost output = { λ s. Some (slip_words s) };

    fn fmt<W: fmt::Write>(&self, f: &mut fmt::Formatter<W>) -> fmt::Result {
        write!(
            f,
            "(serial {}, fault {}, {})",
            self.serial, self.fault, self.state
        )
    }
}
