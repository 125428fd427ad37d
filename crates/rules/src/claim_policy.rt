// The trait of policies: how a rule that keeps a table of claims answers them.
ghost use Rattle.std.specs.Prelude.{◌≡◌, ℕ};
ghost use Rattle.std.specs.Option.{option_map};
ghost use Rattle.rules.specs.declared.access.Access.{Access};
ghost use Rattle.rules.specs.Claims.{Policy};
ghost use Rattle.rules.specs.Rivals.{NamesARival};
ghost use Rattle.rules.specs.Calls.{one_of};
ghost use Rattle.rules.specs.Tables.{claims_of};

use crate::access::Access;
use crate::claim_table::ClaimTable;

pub trait ClaimPolicy: Copy {
    // Which of its variants a policy is.
    ghost number: { Self → ℕ };

    // How many variants there are, numbered from 0.
    ghost variants: { ℕ };

    // How a claim is answered: which bay stands in its way, if any.
    ghost policy: { Access → Policy };

    // The policy of this variant; none where there is no such variant.
    fn of_variant(variant: u8) -> Option<Self>
        ensures { option_map number result ≡ one_of variants variant };

    // The bay that stands in the way of a claim, if any.
    fn rival(&self, table: &ClaimTable, access: Access, bay: u8, item: u8) -> Option<u8>
        ensures { result ≡ policy access (claims_of (number self.now) table.now.bays) bay item };

    // A bay in the way is another bay that claims the item.
    ghost rivals: { (access : Access) → NamesARival (policy access) };
}
