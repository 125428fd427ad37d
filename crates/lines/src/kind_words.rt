// The kinds that set-up chooses from, in words.
ghost use Rattle.std.specs.Prelude.{Some};
ghost use Rattle.lines.specs.Words.{order_words, value_words};

use crate::kinds::{OrderKind, ValueKind};
use std::fmt;

impl fmt::Display for OrderKind {
    ghost output = { λ kind. Some (order_words kind) };

    fn fmt<W: fmt::Write>(&self, f: &mut fmt::Formatter<W>) -> fmt::Result {
        f.write_str(match self {
            OrderKind::Drawn => "drawn order",
            OrderKind::Labelled => "labelled order",
        })
    }
}

impl fmt::Display for ValueKind {
    ghost output = { λ kind. Some (value_words kind) };

    fn fmt<W: fmt::Write>(&self, f: &mut fmt::Formatter<W>) -> fmt::Result {
        f.write_str(match self {
            ValueKind::Words => "words",
            ValueKind::Slips => "slips",
        })
    }
}
