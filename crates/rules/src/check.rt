// The check rule: every claim is accepted, and conflicts show when a bay settles (optimistic validation).
ghost use Rattle.rules.specs.Policies.{nothing_in_the_way};
ghost use Rattle.std.proofs.Common.{rules};

use crate::access::Access;
use crate::claim_policy::ClaimPolicy;
use crate::claim_table::ClaimTable;
use crate::table_rule::TableRule;

pub type Check = TableRule<Checking>;

#[derive(Clone, Copy, PartialEq, Eq, Debug)]
pub struct Checking;

impl ClaimPolicy for Checking {
    ghost number = { λ s. 0 };

    ghost variants = { 1 };

    ghost policy = { λ access. nothing_in_the_way };

    ghost rivals = { Prim.search rules };

    fn of_variant(variant: u8) -> Option<Checking> {
        (variant == 0).then_some(Checking)
    }

    fn rival(&self, _table: &ClaimTable, _access: Access, _bay: u8, _item: u8) -> Option<u8> {
        None
    }
}
