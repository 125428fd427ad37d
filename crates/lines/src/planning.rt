// Set-up, frame by frame: the kinds are chosen, then class after class is added.
ghost use Rattle.std.specs.Prelude.{◌≡◌, ◌<◌, not, length, nat_lt, slice_index};
ghost use Rattle.lines.specs.Drafts.{chosen_draft, with_class};
ghost use Rattle.lines.specs.Plans.{draft_of, draft_in, CompleteIf};

use crate::kinds::{OrderKind, ValueKind};
use crate::line_fault::LineFault;
use crate::plan::Plan;
use crate::planned_order::PlannedOrder;
use jobs::class_setup::ClassSetup;
use orders::class_order::MAX_CLASSES;
use register_parts::item_counts::ItemCounts;

impl Plan {
    // A plan without classes, of kinds that go by their numbers.
    pub(crate) fn choose(order: u8, values: u8, classes: u8) -> Result<Plan, LineFault>
        ensures reply { draft_in result ≡ chosen_draft order values classes }
    {
        let kind = OrderKind::try_from(order)?;
        let values = ValueKind::try_from(values)?;
        if classes == 0 || classes > MAX_CLASSES {
            return Err(LineFault::OutOfRange);
        }
        Ok(Plan {
            values,
            wanted: classes,
            count: 0,
            order: PlannedOrder::Empty(kind),
            records: [ClassSetup { items: 0 }; MAX_CLASSES as usize],
        })
    }

    // The plan with the next class: its number, its place in the order, and how many items it has.
    pub(crate) fn with_class(self, class: u8, place: [u8; 2], items: u8) -> Result<Plan, LineFault>
        requires { self.count < self.wanted }
        ensures reply { draft_in result ≡ with_class (draft_of self) class (slice_index place 0) (slice_index place 1) items }
    {
        if class != self.count {
            return Err(LineFault::OutOfRange);
        }
        let count = class + 1;
        let mut records = self.records;
        records[class as usize] = ClassSetup { items };
        // The register's own set-up judges the item counts.
        let _ = ItemCounts::new(&records[..count as usize])?;
        let order = self.order.with_class(place)?;
        Ok(Plan {
            values: self.values,
            wanted: self.wanted,
            count,
            order: PlannedOrder::Classes(order),
            records,
        })
    }

    // Whether every class that was announced is there.
    pub(crate) fn is_complete(&self) -> bool
        ensures reply { result ≡ not (nat_lt (length (draft_of self.now).items) (draft_of self.now).wanted) }
        ensures classes { CompleteIf self.now result }
    {
        self.count >= self.wanted
    }
}
