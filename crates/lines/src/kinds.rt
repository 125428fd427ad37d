// The kinds of class order and of value that set-up chooses from, by their numbers.
// A table each: the two enums share no more than their numbers.
ghost use Rattle.std.specs.Prelude.{◌≡◌};
ghost use Rattle.lines.specs.Kinds.{order_kind_of, value_kind_of};

use crate::line_fault::LineFault;

#[derive(Clone, Copy, PartialEq, Eq, Debug)]
pub enum OrderKind {
    // Each class names those directly below it.
    Drawn,
    // Each class has a rank and compartments.
    Labelled,
}

impl TryFrom<u8> for OrderKind {
    type Error = LineFault;

    ghost try_from_gives = { λ number r. r ≡ order_kind_of number };

    fn try_from(number: u8) -> Result<OrderKind, LineFault> {
        match number {
            0 => Ok(OrderKind::Drawn),
            1 => Ok(OrderKind::Labelled),
            _ => Err(LineFault::OutOfRange),
        }
    }
}

#[derive(Clone, Copy, PartialEq, Eq, Debug)]
pub enum ValueKind {
    Words,
    Slips,
}

impl TryFrom<u8> for ValueKind {
    type Error = LineFault;

    ghost try_from_gives = { λ number r. r ≡ value_kind_of number };

    fn try_from(number: u8) -> Result<ValueKind, LineFault> {
        match number {
            0 => Ok(ValueKind::Words),
            1 => Ok(ValueKind::Slips),
            _ => Err(LineFault::OutOfRange),
        }
    }
}
