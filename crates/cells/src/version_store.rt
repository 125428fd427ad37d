// The version store: calls on cells in lent memory, one text for every kind of value.
ghost use Rattle.std.specs.Prelude.{◌≡◌, map, slice_set};
ghost use Rattle.cells.specs.Versions.{stored};
ghost use Rattle.cells.specs.Cells.{versions, item, store_reply, read_reply, newest_reply};
ghost use Rattle.cells.specs.Laws.{Changes, Reads, Latest};

use crate::cell::Cell;
use crate::faults::{ReadFault, StoreFault};
use crate::version::Version;

// The cells come with each call and are no field of a struct: memory is lent for the time of a call, a rule of the project.
// Stores a value of one item under the number of a version period.
pub fn store<V: Copy>(
    cells: &mut [Cell<V>],
    index: usize,
    number: u32,
    value: V,
) -> Result<(), StoreFault>
    ensures reply { result ≡ store_reply index number (map versions cells.old) }
    ensures memory { map versions cells.new ≡ slice_set (map versions cells.old) index (stored number value (item index (map versions cells.old))) }
    ensures laws { Changes index number value (map versions cells.old) result (map versions cells.new) }
{
    let cell = *cells.get(index).ok_or(StoreFault::NoCell)?;
    if number < cell.newest.number {
        return Err(StoreFault::OldNumber);
    }
    cells[index] = cell.stored(number, value);
    Ok(())
}

// The version that a reader at a number is served; nothing below the oldest number kept.
pub fn read_at<V: Copy>(
    cells: &[Cell<V>],
    index: usize,
    number: u32,
) -> Result<Option<Version<V>>, ReadFault>
    ensures reply { result ≡ read_reply index number (map versions cells.now) }
    ensures laws { Reads number (item index (map versions cells.now)) result }
{
    let cell = cells.get(index).ok_or(ReadFault::NoCell)?;
    Ok(cell.read_at(number))
}

// The newest version of an item.
pub fn newest<V: Copy>(cells: &[Cell<V>], index: usize) -> Result<Version<V>, ReadFault>
    ensures reply { result ≡ newest_reply index (map versions cells.now) }
    ensures laws { Latest (item index (map versions cells.now)) result }
{
    let cell = cells.get(index).ok_or(ReadFault::NoCell)?;
    Ok(cell.newest)
}
