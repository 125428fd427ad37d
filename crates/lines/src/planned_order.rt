// The order of a plan so far.
use crate::kinds::OrderKind;
use orders::chosen_order::ChosenOrder;

#[derive(Clone, Copy)]
pub(crate) enum PlannedOrder {
    // There is no class yet, only the kind of order.
    Empty(OrderKind),
    // The order of the classes so far.
    Classes(ChosenOrder),
}
