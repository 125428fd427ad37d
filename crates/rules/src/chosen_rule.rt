// A rule whose kind is chosen when it is set up: locks or the check rule.
ghost use Rattle.rules.specs.Policies.{chosen};
ghost use Rattle.rules.specs.Tables.{kind_number, KindNumbered};
ghost use Rattle.rules.specs.Refusals.{chosen_names_a_rival};

use crate::access::Access;
use crate::claim_policy::ClaimPolicy;
use crate::claim_table::ClaimTable;
use crate::table_rule::TableRule;

pub type ChosenRule = TableRule<RuleKind>;

#[derive(Clone, Copy, PartialEq, Eq, Debug)]
pub enum RuleKind {
    Locking,
    Checking,
}

// A number that no kind of rule has.
#[derive(Clone, Copy, PartialEq, Eq, Debug)]
pub struct NoSuchKind(pub u8);

impl TryFrom<u8> for RuleKind {
    type Error = NoSuchKind;

    ghost try_from_gives = { KindNumbered };

    fn try_from(number: u8) -> Result<RuleKind, NoSuchKind> {
        match number {
            0 => Ok(RuleKind::Locking),
            1 => Ok(RuleKind::Checking),
            _ => Err(NoSuchKind(number)),
        }
    }
}

impl ClaimPolicy for RuleKind {
    ghost number = { kind_number };

    ghost variants = { 2 };

    ghost policy = { chosen };

    ghost rivals = { chosen_names_a_rival };

    fn of_variant(variant: u8) -> Option<RuleKind> {
        RuleKind::try_from(variant).ok()
    }

    fn rival(&self, table: &ClaimTable, access: Access, bay: u8, item: u8) -> Option<u8> {
        match self {
            RuleKind::Locking => table.lowest_in_the_way(access, bay, item),
            RuleKind::Checking => None,
        }
    }
}
