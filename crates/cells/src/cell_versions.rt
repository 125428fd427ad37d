// Calls on one cell, by value.
ghost use Rattle.std.specs.Prelude.{◌≡◌, ◌≤◌};
ghost use Rattle.cells.specs.Versions.{stored, read_at, fresh as fresh_item};
ghost use Rattle.cells.specs.Cells.{versions};

use crate::cell::Cell;
use crate::older::Older;
use crate::value::Value;
use crate::version::Version;

impl<V: Value> Cell<V> {
    // A fresh cell of a kind of value: its starting value under number 0.
    pub fn starting() -> Cell<V>
        ensures { versions result ≡ fresh_item V.Value.starting }
    {
        Cell::fresh(V::start())
    }
}

impl<V: Copy> Cell<V> {
    // A cell whose only version is `value` under number 0.
    pub fn fresh(value: V) -> Cell<V>
        ensures { versions result ≡ fresh_item value }
    {
        Cell {
            newest: Version { number: 0, value },
            older: Older::Nothing,
        }
    }

    // Under the newest number a store replaces that value; under a greater one it adds a version, and the oldest of three goes.
    pub(crate) fn stored(self, number: u32, value: V) -> Cell<V>
        requires { self.newest.number ≤ number }
        ensures { versions result ≡ stored number value (versions self) }
    {
        let older = if number == self.newest.number {
            self.older
        } else {
            match self.older {
                Older::Nothing => Older::One(self.newest),
                Older::One(second) | Older::Two(second, _) => Older::Two(self.newest, second),
            }
        };
        Cell {
            newest: Version { number, value },
            older,
        }
    }

    // The version with the greatest number not above `number`.
    pub(crate) fn read_at(self, number: u32) -> Option<Version<V>>
        ensures { result ≡ read_at number (versions self) }
    {
        if self.newest.number <= number {
            return Some(self.newest);
        }
        match self.older {
            Older::One(second) | Older::Two(second, _) if second.number <= number => Some(second),
            Older::Two(_, third) if third.number <= number => Some(third),
            _ => None,
        }
    }
}
