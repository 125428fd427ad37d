// The order of a plan, class by class. Each class comes with two bytes: for a drawn order the set of the classes
// directly below it, bit d for class d and the high byte first, and for a labelled order its rank and its compartments.
ghost use Rattle.std.specs.Prelude.{◌≡◌, ◌<◌, slice_index};
ghost use Rattle.std.specs.Result.{result_map_both};
ghost use Rattle.lines.specs.Drafts.{no_classes, class_count, classes_in, one_more};
ghost use Rattle.lines.specs.LineFaults.{fault_of_order};
ghost use Rattle.lines.specs.PlanParts.{classes_so_far};

use crate::kinds::OrderKind;
use crate::planned_order::PlannedOrder;
use orders::chosen_order::ChosenOrder;
use orders::drawn_order::DrawnOrder;
use orders::labelled_order::LabelledOrder;
use orders::order_fault::OrderFault;

// An order of this kind with its first class.
fn first_class(kind: OrderKind, place: [u8; 2]) -> Result<ChosenOrder, OrderFault>
    ensures reply { result_map_both classes_in fault_of_order result ≡ one_more (no_classes kind) (slice_index place 0) (slice_index place 1) }
{
    match kind {
        OrderKind::Drawn => {
            let order = DrawnOrder::new(u16::from_be_bytes(place))?;
            Ok(ChosenOrder::Drawn(order))
        }
        OrderKind::Labelled => {
            let [rank, compartments] = place;
            let order = LabelledOrder::new(rank, compartments)?;
            Ok(ChosenOrder::Labelled(order))
        }
    }
}

// The order with its next class.
fn next_class(order: ChosenOrder, place: [u8; 2]) -> Result<ChosenOrder, OrderFault>
    requires { class_count (classes_in order) < 16 }
    ensures reply { result_map_both classes_in fault_of_order result ≡ one_more (classes_in order) (slice_index place 0) (slice_index place 1) }
{
    match order {
        ChosenOrder::Drawn(mut drawn) => {
            drawn.add(u16::from_be_bytes(place))?;
            Ok(ChosenOrder::Drawn(drawn))
        }
        ChosenOrder::Labelled(mut labelled) => {
            let [rank, compartments] = place;
            labelled.add(rank, compartments)?;
            Ok(ChosenOrder::Labelled(labelled))
        }
    }
}

impl PlannedOrder {
    // The order with one more class; there may be none yet.
    pub(crate) fn with_class(self, place: [u8; 2]) -> Result<ChosenOrder, OrderFault>
        requires { class_count (classes_so_far self) < 16 }
        ensures reply { result_map_both classes_in fault_of_order result ≡ one_more (classes_so_far self) (slice_index place 0) (slice_index place 1) }
    {
        match self {
            PlannedOrder::Empty(kind) => first_class(kind, place),
            PlannedOrder::Classes(order) => next_class(order, place),
        }
    }
}
