// Locks: a claim that another bay's claim excludes is refused at once.
ghost use Rattle.rules.specs.Policies.{lock};
ghost use Rattle.rules.specs.Refusals.{lock_names_a_rival};

use crate::access::Access;
use crate::claim_policy::ClaimPolicy;
use crate::claim_table::ClaimTable;
use crate::table_rule::TableRule;

pub type Locks = TableRule<Locking>;

#[derive(Clone, Copy, PartialEq, Eq, Debug)]
pub struct Locking;

impl ClaimPolicy for Locking {
    ghost number = { λ s. 0 };

    ghost variants = { 1 };

    ghost policy = { lock };

    ghost rivals = { lock_names_a_rival };

    fn of_variant(variant: u8) -> Option<Locking> {
        (variant == 0).then_some(Locking)
    }

    fn rival(&self, table: &ClaimTable, access: Access, bay: u8, item: u8) -> Option<u8> {
        table.lowest_in_the_way(access, bay, item)
    }
}
