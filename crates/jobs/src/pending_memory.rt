// Pending values in lent memory: each bay of each class has eight places, one behind the other.
ghost use Rattle.std.specs.Prelude.{◌≡◌, ◌+◌, ◌<◌, length, slice_index_or, slice_set};
ghost use Rattle.jobs.specs.Represents.{pending_place};
ghost use Rattle.jobs.specs.Lent.{with_pending};

use crate::bay_id::BayId;
use crate::memory::Memory;

// So many places for pending values each class needs.
pub(crate) const PENDING_PLACES: usize = 64;

// Where a place of a bay is among those of all bays. (Without a heap, callers lend one run of values, so a place is an index.)
pub(crate) fn pending_index(id: BayId, place: u8) -> usize
    ensures { result ≡ pending_place id.class id.bay + place }
{
    (usize::from(id.class) * 8 + usize::from(id.bay)) * 8 + usize::from(place)
}

fn value_at<V: Copy>(values: &[V], index: usize) -> V
    requires { index < length values.now }
    ensures { result ≡ slice_index_or values.now index result }
{
    values[index]
}

impl<V: Copy, R> Memory<'_, V, R> {
    pub(crate) fn pending_at(&self, index: usize) -> V
        requires { index < length self.now.pending.now }
        ensures reply { result ≡ slice_index_or self.now.pending.now index result }
    {
        value_at(self.pending, index)
    }

    pub(crate) fn set_pending(&mut self, index: usize, value: V)
        requires { index < length self.old.pending.now }
        ensures memory { self.new ≡ with_pending self.old (slice_set self.old.pending.now index value) }
    {
        self.pending[index] = value;
    }
}
