// The register: an order of classes, the items of each class, the variant of the local rules, the clock, and the bays.
use register_parts::class_state::ClassState;
use register_parts::clock::Clock;
use register_parts::item_counts::ItemCounts;

#[derive(Drop)]
pub struct Register<O> {
    pub(crate) order: O,
    // Apart from the states: what is asked of the counts, their bounds and their sum, is a fact of the counts alone.
    pub(crate) counts: ItemCounts,
    pub(crate) variant: u8,
    pub(crate) clock: Clock,
    // The states of the classes, by class number; those past the last class are not used. An `ArrayVec` would keep the order's count a second time.
    pub(crate) classes: [ClassState; 16],
}
