// A rule that keeps the claims of its bays in a table and answers them by a policy.
ghost use Rattle.rules.specs.Tables.{claims_of};

use crate::access::Access;
use crate::claim_policy::ClaimPolicy;
use crate::claim_table::ClaimTable;
use crate::local_rule::LocalRule;
use crate::rule_fault::RuleFault;

#[derive(Clone, Copy)]
pub struct TableRule<P> {
    policy: P,
    table: ClaimTable,
}

impl<P: ClaimPolicy> LocalRule for TableRule<P> {
    ghost meaning = { λ s. claims_of (P.number s.policy) s.table.bays };

    ghost variants = { P.variants };

    ghost policy = { P.policy };

    ghost rivals = { P.rivals };

    fn fresh(variant: u8) -> Option<Self> {
        let policy = P::of_variant(variant)?;
        Some(TableRule {
            policy,
            table: ClaimTable::empty(),
        })
    }

    fn claim(&mut self, access: Access, bay: u8, item: u8) -> Result<(), RuleFault> {
        let rival = self.policy.rival(&self.table, access, bay, item);
        self.table.claim(access, bay, item, rival)
    }

    fn settle(&mut self, bay: u8) -> Result<(), RuleFault> {
        self.table.settle(bay)
    }

    fn forget(&mut self, bay: u8) -> Result<(), RuleFault> {
        self.table.forget(bay)
    }
}
