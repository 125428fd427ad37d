// A ticket: the right to the job, that is the transaction, which runs in one bay of a class.
use crate::job_kind::{Long, Update};
use jobs::job_fault::JobFault;
use std::marker::PhantomData;

// It is not `Drop` and derives nothing, and its fields are private: nobody else can make, copy or drop one, so whoever holds it hands it in.
pub struct Ticket<K> {
    pub(crate) class: u8,
    pub(crate) bay: u8,
    pub(crate) kind: PhantomData<K>,
}

pub type UpdateTicket = Ticket<Update>;

pub type LongTicket = Ticket<Long>;

// Why the end of a job is refused.
pub enum EndFault<K> {
    // Too little memory was lent: nothing has changed, and here is the ticket again.
    Unspent(Ticket<K>),
    // The ticket is spent.
    Refused(JobFault),
}
