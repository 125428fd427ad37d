// The faults of a line, and the parts that raise them, in words.
ghost use Rattle.std.specs.Prelude.{Some};
ghost use Rattle.lines.specs.Words.{fault_words, part_words};

use crate::line_fault::{LineFault, Part};
use std::fmt;

impl fmt::Display for LineFault {
    ghost output = { λ fault. Some (fault_words fault) };

    fn fmt<W: fmt::Write>(&self, f: &mut fmt::Formatter<W>) -> fmt::Result {
        match self {
            LineFault::Malformed => f.write_str(
                "not 1 to 10 pairs of the digits 0 to 9 and A to F",
            ),
            LineFault::UnknownOperation => f.write_str("there is no such operation"),
            LineFault::OutOfOrder => f.write_str("it is not the turn of this frame"),
            LineFault::WrongLength => f.write_str("the frame has the wrong length"),
            LineFault::OutOfRange => {
                f.write_str("a number is out of range, or the class is not the next one")
            }
            LineFault::Unfit => {
                f.write_str("a class directly below is not smaller, or the label is used")
            }
            LineFault::Refused(fault) => fault.fmt(f),
        }
    }
}

impl fmt::Display for Part {
    ghost output = { λ part. Some (part_words part) };

    fn fmt<W: fmt::Write>(&self, f: &mut fmt::Formatter<W>) -> fmt::Result {
        f.write_str(match self {
            Part::Line => "line",
            Part::Door => "door",
            Part::Rule => "rule",
        })
    }
}
