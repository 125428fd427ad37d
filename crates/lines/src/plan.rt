// The plan of a register that is being set up.
ghost use Rattle.std.specs.Prelude.{◌≡◌, ◌≤◌, true, length, take, sum};
ghost use Rattle.register_parts.specs.CheckedCounts.{said, each_at_most};
ghost use Rattle.lines.specs.Drafts.{class_count};
ghost use Rattle.lines.specs.PlanParts.{classes_so_far};

use crate::kinds::ValueKind;
use crate::planned_order::PlannedOrder;
use jobs::class_setup::ClassSetup;
use orders::class_order::MAX_CLASSES;

#[derive(Clone, Copy)]
pub(crate) struct Plan {
    pub(crate) values: ValueKind,
    // How many classes there will be.
    pub(crate) wanted: u8,
    // How many there are so far.
    pub(crate) count: u8,
    pub(crate) order: PlannedOrder,
    // What is said of each class so far, by class number. An ArrayVec would be no plainer: a plan that is `Copy` is
    // judged with the next class before it takes the place of the plan so far.
    pub(crate) records: [ClassSetup; MAX_CLASSES as usize],
    ghost full: { length records ≡ 16 },
    ghost some: { 1 ≤ wanted },
    ghost few: { wanted ≤ 16 },
    ghost so_far: { count ≤ wanted },
    ghost ordered: { class_count (classes_so_far order) ≡ count },
    ghost few_items: { each_at_most 64 (said (take count records)) ≡ true },
    ghost few_in_all: { sum (said (take count records)) ≤ 256 },
}
