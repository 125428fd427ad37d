// Why set-up refuses what it is given.

#[derive(Clone, Copy, PartialEq, Eq, Debug)]
pub enum SetUpFault {
    // More records than a register can have classes.
    TooManyClasses,
    // The order has another number of classes than there are records.
    OtherClassCount,
    // More items in one class than it can have.
    TooManyItems,
    // More items in all classes together than a register can have.
    TooManyItemsInAll,
    // The local rules have no such variant.
    NoSuchVariant,
    TooLittleMemory,
}
