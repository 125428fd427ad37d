// Why a class is not added to an order.
#[derive(Clone, Copy, PartialEq, Eq, Debug)]
pub enum OrderFault {
    TooManyClasses,
    RankTooHigh,
    NotSmaller,
    LabelUsed,
}
