// The pending value of an item in a bay.
ghost use Rattle.std.specs.Prelude.{◌≡◌, ◌+◌, ◌≤◌, length};
ghost use Rattle.laws.specs.State.{find};
ghost use Rattle.jobs.specs.Represents.{pending_place, pending_of, bay_values};

use crate::bay_id::BayId;
use crate::memory::Memory;
use crate::pending_memory::pending_index;
use register_parts::bay::PendingItems;

impl<V: Copy, R> Memory<'_, V, R> {
    pub(crate) fn pending_value(&self, id: BayId, pending: PendingItems, item: u8) -> Option<V>
        requires { pending_place id.class id.bay + 8 ≤ length self.now.pending.now }
        ensures reply { result ≡ find item (pending_of pending (bay_values self.now.pending.now id.class id.bay)) }
    {
        let place = pending.find(item)?;
        Some(self.pending_at(pending_index(id, place)))
    }
}
