// Somebody with a ticket in hand. Like the ticket, a holder cannot be dropped: it has to come to a commit or to giving up.
use tickets::ticket::Ticket;

pub struct Holder<K> {
    pub name: &'static str,
    pub ticket: Ticket<K>,
}
