// A commit stores the pending values of a job into the cells of its class.
ghost use Rattle.std.specs.Prelude.{◌+◌, ◌≤◌, map, length};
ghost use Rattle.cells.specs.Cells.{versions};
ghost use Rattle.jobs.specs.Represents.{pending_of, bay_values, pending_place};
ghost use Rattle.jobs.specs.Storing.{all_stored, CellsBecome};

use crate::bay_id::BayId;
use crate::memory::Memory;
use crate::pending_memory::pending_index;
use cells::version_store::store;
use register_parts::bay::PendingItems;

impl<V: Copy, R> Memory<'_, V, R> {
    // Stores each pending value of a bay under a number, where the class has so many items and their cells begin at `first`.
    // The last goes first: of several values of one item the first counts.
    pub(crate) fn store_pending(
        &mut self,
        id: BayId,
        pending: PendingItems,
        items: u8,
        first: usize,
        number: u32,
    )
        requires { (first + items ≤ length self.old.cells.now) × (pending_place id.class id.bay + 8 ≤ length self.old.pending.now) }
        ensures memory { CellsBecome (all_stored items first number (pending_of pending (bay_values self.old.pending.now id.class id.bay)) (map versions self.old.cells.now)) self.old self.new }
    {
        // By place. Over `pending.items().iter().enumerate().rev()` the proof did not close: "it is not proved that what `pending_at` requires
        // holds at this call (`pending_at-value-requires`); `search` gave up at one of its limits".
        for k in (0..pending.len()).rev() {
            let item = pending.items[k as usize];
            if item < items {
                let value = self.pending_at(pending_index(id, k));
                let _ = store(self.cells, first + item as usize, number, value);
            }
        }
    }
}
