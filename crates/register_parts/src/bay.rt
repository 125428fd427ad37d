// Bays: a bay is the slot of one running job, that is of one transaction.

#[derive(Clone, Copy)]
pub enum Bay {
    Free,
    // The clock has ended the job; its owner has yet to learn of it.
    Closed,
    Open(Job),
}

#[derive(Clone, Copy)]
pub enum Job {
    // An update job reads and writes.
    Update(UpdateJob),
    // A long job only reads, at the stable version of this number.
    Long(u32),
}

#[derive(Clone, Copy)]
pub struct UpdateJob {
    // The version at which the job reads lower classes, once it has done so.
    pub down: Option<u32>,
    pub pending: PendingItems,
}

// The items that have a pending value, the first `count` of `items`. Their values lie in lent memory, in the same order.
// No `ArrayVec`: it is not `Copy`, which the table of bays relies on.
#[derive(Clone, Copy)]
pub struct PendingItems {
    pub count: u8,
    pub items: [u8; 8],
}
