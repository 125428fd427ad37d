// A new item among those that have a pending value in a bay.
ghost use Rattle.std.specs.Prelude.{◌≡◌, ◌<◌, ◌≤◌, length};
ghost use Rattle.register_parts.specs.PendingPlaces.{pending_items, with_item};

use register_parts::bay::PendingItems;

// The item has its value at a place from now on.
pub(crate) fn put_item(pending: &mut PendingItems, place: u8, item: u8)
    requires { (place < 8) × (place ≤ length (pending_items pending.old)) }
    ensures state { pending_items pending.new ≡ with_item place item (pending_items pending.old) }
{
    pending.items[place as usize] = item;
    if place >= pending.count {
        pending.count = place + 1;
    }
}
