// The items that have a pending value in a bay, and the places of their values.
ghost use Rattle.std.specs.Prelude.{◌≡◌, ◌≤◌, length, position, nat_eq};
ghost use Rattle.register_parts.specs.PendingPlaces.{pending_items, place, room_for};

use crate::bay::PendingItems;

// So many items may be pending in a bay.
const PLACES: u8 = 8;

impl PendingItems {
    // How many items have a pending value.
    // Each call says the bound: as an invariant of the type it was tried, and then the proof of `close_late` did not close.
    pub fn len(&self) -> u8
        ensures reply { result ≡ length (pending_items self.now) }
        ensures few { result ≤ 8 }
    {
        self.count.min(PLACES)
    }

    // The items themselves, in the order of their places.
    pub fn items(&self) -> &[u8]
        ensures items { result.now ≡ pending_items self.now }
        ensures few { length (pending_items self.now) ≤ 8 }
    {
        &self.items[..usize::from(self.len())]
    }

    // The place where an item has its value, if it has one.
    pub fn find(&self, item: u8) -> Option<u8>
        ensures reply { result ≡ position (nat_eq item) (pending_items self.now) }
        ensures few { length (pending_items self.now) ≤ 8 }
    {
        self.items()
            .iter()
            .position(|pending| *pending == item)
            .map(|place| place as u8)
    }

    // The place for a value of an item: that of its earlier value, else the one behind the others.
    pub fn place(&self, item: u8) -> u8
        ensures reply { result ≡ place item (pending_items self.now) }
        ensures few { length (pending_items self.now) ≤ 8 }
    {
        self.find(item).unwrap_or(self.len())
    }

    // That place, if one is left: none where eight other items have a pending value.
    pub fn room_for(&self, item: u8) -> Option<u8>
        ensures reply { result ≡ room_for item (pending_items self.now) }
        ensures few { length (pending_items self.now) ≤ 8 }
    {
        let place = self.place(item);
        (place < PLACES).then_some(place)
    }
}
