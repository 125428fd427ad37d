// The value of an item at a version, and its newest value.
ghost use Rattle.std.specs.Prelude.{◌≡◌, map};
ghost use Rattle.cells.specs.Cells.{versions, item};
ghost use Rattle.laws.specs.State.{or_else, newest_value, value_at};

use crate::memory::Memory;
use cells::value::Value;
use cells::version_store::{newest, read_at};

impl<V: Value, R> Memory<'_, V, R> {
    // Only in memory that set-up did not fill does a cell have no such version: then the starting value stands in.
    pub(crate) fn value_at(&self, place: usize, number: u32) -> V
        ensures reply { result ≡ or_else (value_at number (item place (map versions self.now.cells.now))) V.Value.starting }
    {
        match read_at(self.cells, place, number) {
            Ok(Some(version)) => version.value,
            Ok(None) | Err(_) => V::start(),
        }
    }

    pub(crate) fn newest_value(&self, place: usize) -> V
        ensures reply { result ≡ or_else (newest_value (item place (map versions self.now.cells.now))) V.Value.starting }
    {
        newest(self.cells, place).map_or_else(|_| V::start(), |version| version.value)
    }
}
